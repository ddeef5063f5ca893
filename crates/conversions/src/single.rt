// f32 bit patterns: from a whole number or a fraction, and to a whole number. The steps on bits are a rule of the project: no f32 is computed with.
ghost use Rattle.std.specs.Prelude.{◌≡◌, ◌≤◌, ◌+◌, ◌<◌, ◌*◌, ◌%◌, ◌^◌, pos, ◌-ℤ◌, ◌*ℤ◌};
ghost use Rattle.std.proofs.Math.IntN.{sub_ℕ};
ghost use Rattle.conversions.specs.Single.{value};
ghost use Rattle.conversions.specs.Round.{Rounded, round_quotient, divisor_shift, ratio_of, mag_of, f32_of};
ghost use Rattle.conversions.specs.Trunc.{whole, i64_of};

// n / d to the nearest whole number, and at a tie to the even one.
fn quotient_even(n: u64, d: u64) -> u64
    requires { (0 < d) × (d % 2 ≡ 0) }
    ensures { result ≡ round_quotient n d }
{
    let q = n / d;
    let rest = n % d;
    let half = d / 2;
    if rest < half {
        return q;
    }
    if rest == half { q + q % 2 } else { q + 1 }
}

// The pattern of the f32 nearest to m: m / 1, where the divisor is 2^40 always.
pub fn f32_of_u64(m: u64) -> u32
    ensures { result ≡ mag_of m }
{
    if m == 0 {
        return 0;
    }
    let z = m.leading_zeros();
    let c = quotient_even(m << z, 0x100_0000_0000);
    (189 - z) * 0x80_0000 + (c as u32)
}

// By how many binary digits d is moved up, so that t / d, t with its first digit in place 63, has 24.
fn divisor_shift(t: u64, d: u64) -> u32
    requires { (0 < d) × (d ≤ 2 ^ 30) }
    ensures { result ≡ divisor_shift t d }
{
    let v = d.leading_zeros();
    if t < d << v { v - 24 } else { v - 23 }
}

// The pattern of the f32 nearest to n / d: a quotient of 24 binary digits, rounded.
pub fn f32_of_ratio(n: u64, d: u64) -> u32
    requires { (0 < d) × (d ≤ 2 ^ 30) }
    ensures { result ≡ ratio_of n d }
{
    if n == 0 {
        return 0;
    }
    let z = n.leading_zeros();
    let t = n << z;
    let s = divisor_shift(t, d);
    let c = quotient_even(t, d << s);
    (149 + s - z) * 0x80_0000 + (c as u32)
}

// The pattern of the f32 nearest to x. What x has more than that is `f32_rest`.
pub fn f32_of_i64(x: i64) -> u32
    ensures { Rounded x result }
{
    let m = f32_of_u64(x.unsigned_abs());
    if x < 0 { 0x8000_0000 + m } else { m }
}

// The whole part of the f32 with the pattern p, whose sign bit is not set and which is below 2^64.
fn whole_of(p: u32) -> u64
    requires { p < 191 * 2 ^ 23 }
    ensures { result ≡ whole p }
{
    let e = p >> 23;
    let c = u64::from(p % 0x80_0000 + 0x80_0000);
    if e < 127 {
        return 0;
    }
    if e < 150 {
        c >> (150 - e)
    } else {
        c << (e - 150)
    }
}

// The f32 with the pattern b as an i64: toward zero, at the nearer end where it lies outside; 0 for a NaN.
#[tactic(auto, using(crate::proofs::Trunc::i64_of_nan))]
pub fn i64_of_f32(b: u32) -> i64
    ensures { result ≡ i64_of b }
{
    let p = b % 0x8000_0000;
    if p > 0x7F80_0000 {
        return 0;
    }
    let negative = 0x8000_0000 <= b;
    if p < 0x5F00_0000 {
        let n = whole_of(p) as i64;
        return if negative { -n } else { n };
    }
    if negative { i64::MIN } else { i64::MAX }
}

// a - b, which is in range.
fn difference(a: u64, b: u64) -> i64
    requires { (a < b + 2 ^ 63) × (b < a + 2 ^ 63) }
    ensures { result ≡ sub_ℕ a b }
{
    a.wrapping_sub(b).cast_signed()
}

// What x has more than the f32 nearest to it: exact, and negative where x is below.
pub fn f32_rest(x: i64) -> i64
    ensures { x *ℤ pos (2 ^ 149) -ℤ value (f32_of x) ≡ result *ℤ pos (2 ^ 149) }
{
    let m = x.unsigned_abs();
    let w = whole_of(f32_of_u64(m));
    if x < 0 {
        difference(w, m)
    } else {
        difference(m, w)
    }
}
