// Texts and rows as hashes.
ghost use Rattle.std.specs.Prelude.{◌≡◌, length};
ghost use Rattle.numbers.specs.Words.{starts_with};
ghost use Rattle.names.specs.Names;

use conversions::parse::hex_u32_of;
use hash::rage_joaat;
use texts::text::trim;
use value::kind::Kind;
use value::{Row, text_of};

// The hexadecimal number behind the mark.
#[tactic(auto, using(crate::proofs::Marks::starts_with_taken))]
fn behind(mark: &[u8], s: &[u8]) -> Option<u32>
    ensures { result ≡ Names.behind (starts_with mark.now s.now) (length mark.now) s.now }
{
    hex_u32_of(s.strip_prefix(mark)?)
}

// A text that is not empty.
#[tactic(auto, unfolding(crate::specs::Names::hash_word, numbers::specs::Words::starts_with))]
fn hash_word(s: &[u8]) -> u32
    ensures { result ≡ Names.hash_word s.now }
{
    behind(b"hash_", s)
        .or_else(|| behind(b"0x", s))
        .or_else(|| behind(b"0X", s))
        .unwrap_or_else(|| rage_joaat(s))
}

// A text as a hash.
#[tactic(auto, unfolding(crate::specs::Names::hash_text))]
pub fn hash_of_str(s: &[u8]) -> u32
    ensures { result ≡ Names.hash_text s.now }
{
    let t = trim(s);
    if t.is_empty() {
        return 0;
    }
    hash_word(t)
}

// A row as a hash.
#[tactic(auto, unfolding(crate::specs::Names::hash_of))]
pub fn hash_of(sheet: &[u8], v: Row) -> Option<u32>
    ensures { result ≡ Names.hash_of sheet.now v }
{
    match Kind::try_from(v.kind) {
        Ok(Kind::Null) => Some(0),
        Ok(Kind::Hash | Kind::U32 | Kind::I32 | Kind::Enum) => Some(v.a),
        Ok(Kind::I64 | Kind::U64) => Some(v.b),
        Ok(Kind::Str) => Some(hash_of_str(text_of(sheet, v))),
        _ => None,
    }
}
