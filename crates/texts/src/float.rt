// The texts that Rust's f32 and f64 parse takes.
ghost use Rattle.std.specs.Prelude.{◌≡◌, ◌≤◌, length};
ghost use Rattle.texts.specs.Float;

use crate::text::is_word;

// How many digits stand in front.
pub fn leading_digits(s: &[u8]) -> usize
    ensures { (result ≡ Float.leading_digits s.now) × (result ≤ length s.now) }
{
    s.iter()
        .position(|b| !b.is_ascii_digit())
        .unwrap_or(s.len())
}

// What follows a sign.
pub fn after_sign(s: &[u8]) -> &[u8]
    ensures { result.now ≡ Float.after_sign s.now }
{
    match s {
        [b'+' | b'-', rest @ ..] => rest,
        _ => s,
    }
}

fn only_digits(s: &[u8]) -> bool
    ensures { result ≡ Float.only_digits s.now }
{
    let n = leading_digits(s);
    1 <= n && n == s.len()
}

fn exponent(s: &[u8]) -> bool
    ensures { result ≡ Float.exponent s.now }
{
    match s {
        [] => true,
        [b'e' | b'E', rest @ ..] => only_digits(after_sign(rest)),
        _ => false,
    }
}

fn decimal(s: &[u8]) -> bool
    ensures { result ≡ Float.decimal s.now }
{
    let n = leading_digits(s);
    let t = &s[n..];
    match t {
        [b'.', rest @ ..] => {
            let m = leading_digits(rest);
            1 <= n + m && exponent(&rest[m..])
        }
        _ => 1 <= n && exponent(t),
    }
}

fn special(s: &[u8]) -> bool
    ensures { result ≡ Float.special s.now }
{
    is_word(b"inf", s) || is_word(b"infinity", s) || is_word(b"nan", s)
}

pub fn parses_float(s: &[u8]) -> bool
    ensures { result ≡ Float.parses_float s.now }
{
    let t = after_sign(s);
    special(t) || decimal(t)
}
