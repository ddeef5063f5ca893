// Whole numbers in a text, as std's from_str_radix reads them.
ghost use Rattle.std.specs.Prelude.{◌≡◌, ◌≤◌, ◌-◌, ◌^◌};
ghost use Rattle.conversions.specs.Radix.{digits, after_plus, unsigned, signed};

// The number of the digits `s`. Read from the bytes: what makes a `str` of them for std's from_str_radix walks over all of them first, also where the first is no digit.
fn number_of(s: &[u8], radix: u64) -> Option<u64>
    requires { (2 ≤ radix) × (radix ≤ 36) }
    ensures { result ≡ digits radix (2 ^ 64 - 1) s.now }
{
    if s.is_empty() {
        return None;
    }
    let mut n: u64 = 0;
    for &b in s {
        let d = char::from(b).to_digit(radix as u32)?;
        n = n.checked_mul(radix)?.checked_add(u64::from(d))?;
    }
    Some(n)
}

// What follows a '+'.
fn after_plus(s: &[u8]) -> &[u8]
    ensures { result.now ≡ after_plus s.now }
{
    match s {
        [b'+', rest @ ..] => rest,
        _ => s,
    }
}

// u64::from_str_radix. The radix is a number with std's bounds, as there, and no type of its own.
pub fn u64_of(s: &[u8], radix: u64) -> Option<u64>
    requires { (2 ≤ radix) × (radix ≤ 36) }
    ensures { result ≡ unsigned 64 radix s.now }
{
    number_of(after_plus(s), radix)
}

// i64::from_str_radix
pub fn i64_of(s: &[u8], radix: u64) -> Option<i64>
    requires { (2 ≤ radix) × (radix ≤ 36) }
    ensures { result ≡ signed 64 radix s.now }
{
    match s {
        [b'-', rest @ ..] => 0i64.checked_sub_unsigned(number_of(rest, radix)?),
        _ => i64::try_from(number_of(after_plus(s), radix)?).ok(),
    }
}

// u32::from_str_radix in radix 16
pub fn hex_u32_of(s: &[u8]) -> Option<u32>
    ensures { result ≡ unsigned 32 16 s.now }
{
    u32::try_from(number_of(after_plus(s), 16)?).ok()
}
