// The texts that are decimals of one to nine digits.
ghost use Rattle.std.specs.Prelude.{◌≡◌, ◌≤◌, ◌+◌, ◌*◌, ◌^◌, ◌++◌, length};
ghost use Rattle.conversions.specs.Radix;
ghost use Rattle.texts.specs.Decimal as Decimals;

use crate::float::{after_sign, leading_digits};
use conversions::decimal::Decimal;

// The number of a text's digits behind digits whose number is n; none, where another byte is in it.
fn number(n: u32, s: &[u8]) -> Option<u32>
    requires { (n + 1) * 10 ^ length s.now ≤ 10 ^ 9 }
    ensures { result ≡ Radix.number 10 n s.now }
{
    let mut m = n;
    for &b in s {
        if !b.is_ascii_digit() {
            return None;
        }
        m = m * 10 + u32::from(b - b'0');
    }
    Some(m)
}

// Without the point if one stands in front.
fn without_point(s: &[u8]) -> &[u8]
    ensures { result.now ≡ Decimals.without_point s.now }
{
    match s {
        [b'.', rest @ ..] => rest,
        _ => s,
    }
}

fn is_minus(s: &[u8]) -> bool
    ensures { result ≡ Decimals.is_minus s.now }
{
    matches!(s, [b'-', ..])
}

// The number of one to nine digits, in two parts.
fn nine_digits(whole: &[u8], rest: &[u8]) -> Option<u32>
    ensures { result ≡ Decimals.nine_digits (whole.now ++ rest.now) }
{
    let n = whole.len() + rest.len();
    if n < 1 || 9 < n {
        return None;
    }
    number(number(0, whole)?, rest)
}

// The decimal that a text is.
pub fn decimal_of(s: &[u8]) -> Option<Decimal>
    ensures { result ≡ Decimals.decimal_of s.now }
{
    let t = after_sign(s);
    let n = leading_digits(t);
    let rest = without_point(&t[n..]);
    let digits = nine_digits(&t[..n], rest)?;
    Some(Decimal {
        minus: is_minus(s),
        digits,
        places: rest.len() as u32,
    })
}
