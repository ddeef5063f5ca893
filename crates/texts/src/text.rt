// Texts as parts of a slice of bytes.
ghost use Rattle.std.specs.Prelude.{◌≡◌, ◌≤◌, length, take, drop};
ghost use Rattle.texts.specs.Text.{space, parting, trim_start, trim_end, trimmed, is_word};

// std's is_ascii_whitespace leaves out byte 11.
pub fn is_space(b: u8) -> bool
    ensures { result ≡ space b }
{
    matches!(b, b'\t'..=b'\r' | b' ')
}

// Where the text starts, behind the white space at the front.
fn start_of(s: &[u8]) -> usize
    ensures { (result ≤ length s.now) × (drop result s.now ≡ trim_start s.now) }
{
    s.iter().position(|&b| !is_space(b)).unwrap_or(s.len())
}

// Where the text ends, before the white space at the end.
fn end_of(s: &[u8]) -> usize
    ensures { (result ≤ length s.now) × (take result s.now ≡ trim_end s.now) }
{
    s.iter().rposition(|&b| !is_space(b)).map_or(0, |i| i + 1)
}

// The part of `s` without the white space at both ends: the middle of the caller's slice, never a copy. std's trim_ascii leaves byte 11.
pub fn trim(s: &[u8]) -> &[u8]
    ensures { result.now ≡ trimmed s.now }
{
    let t = &s[start_of(s)..];
    let e = end_of(t);
    &t[..e]
}

// Whether `s` is the word `w`, its letters in either case. The definition is for any `w`, and a capital
// in it matches nothing; std's eq_ignore_ascii_case would take it too.
pub fn is_word(w: &[u8], s: &[u8]) -> bool
    ensures { result ≡ is_word w.now s.now }
{
    s.len() == w.len() && s.iter().zip(w).all(|(b, c)| b.to_ascii_lowercase() == *c)
}

// Whether names and numbers in a text end before this byte.
pub fn is_parting(b: u8) -> bool
    ensures { result ≡ parting b }
{
    b == b',' || is_space(b)
}
