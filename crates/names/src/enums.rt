// Rows as an enum's value.
ghost use Rattle.std.specs.Prelude.{◌≡◌, Err};
ghost use Rattle.coerce.specs.Numbers.{map_fit, int_of};
ghost use Rattle.coerce.specs.declared.misfit.Misfit.TheVariants.{Unfit};
ghost use Rattle.names.specs.Entries.{all_of};
ghost use Rattle.names.specs.Names;

use crate::entries::Entries;
use crate::hashes::hash_of_str;
use coerce::misfit::Misfit;
use coerce::whole::{int_of, parse_int};
use texts::text::trim;
use value::kind::Kind;
use value::{Row, text_of};

// The low 32 bits.
fn low32(n: u64) -> u32
    ensures { result ≡ Names.low32 n }
{
    (n % 0x1_0000_0000) as u32
}

// The low 32 bits of a whole number that fits.
pub fn low_bits(x: Result<u64, Misfit>) -> Result<u32, Misfit>
    ensures { result ≡ map_fit Names.low32 x }
{
    x.map(low32)
}

// The low 32 bits of a row as a whole number.
pub fn low_of(sheet: &[u8], v: Row) -> Result<u32, Misfit>
    ensures { result ≡ map_fit Names.low32 (int_of sheet.now v) }
{
    low_bits(int_of(sheet, v))
}

// A text's number in an enum or flags place: where there is none, its names decide. Most such texts are names, and a call for each
// would be seen in a scene's time.
#[inline(always)]
#[tactic(auto, unfolding(crate::specs::Names::named_text))]
pub fn number_text(t: &[u8]) -> Result<u32, Misfit>
    ensures { result ≡ Names.named_text t.now (Err Unfit) }
{
    if t.is_empty() {
        return Ok(0);
    }
    low_bits(parse_int(t))
}

// A trimmed text in an enum's place. `flag_text` asks other names where there is no number: a closure for that would be no plainer.
#[tactic(auto, unfolding(crate::specs::Names::named_text))]
fn enum_text(entries: Entries, t: &[u8]) -> Result<u32, Misfit>
    ensures { result ≡ Names.enum_text (all_of entries.entry) t.now }
{
    match number_text(t) {
        Err(Misfit::Unfit) => entries.value_of(hash_of_str(t)).ok_or(Misfit::Unfit),
        number => number,
    }
}

// The stored value of an enum member.
#[tactic(auto, unfolding(crate::specs::Names::enum_value))]
pub fn enum_value(sheet: &[u8], entries: Entries, v: Row) -> Result<u32, Misfit>
    ensures { result ≡ Names.enum_value sheet.now (all_of entries.entry) v }
{
    match Kind::try_from(v.kind) {
        Ok(Kind::Enum) => Ok(v.a),
        Ok(Kind::Str) => enum_text(entries, trim(text_of(sheet, v))),
        Ok(Kind::Hash) => Ok(entries.value_of(v.a).unwrap_or(v.a)),
        _ => low_of(sheet, v),
    }
}
