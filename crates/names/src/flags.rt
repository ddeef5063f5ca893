// Rows as flag bits.
ghost use Rattle.std.specs.Prelude.{◌≡◌};
ghost use Rattle.texts.specs.Text.{parts};
ghost use Rattle.names.specs.Entries.{all_of};
ghost use Rattle.names.specs.Names;
ghost use Rattle.names.specs.Answer;

use crate::entries::Entries;
use crate::enums::{low_of, number_text};
use crate::hashes::hash_of_str;
use coerce::misfit::Misfit;
use texts::text::{is_parting, trim};
use value::kind::Kind;
use value::{Row, read_row, text_of};

fn bit_of(x: u32) -> u32
    ensures { result ≡ Names.bit_of x }
{
    1 << (x % 32)
}

// The bit of the name p; none, where p is empty.
fn flag_part(entries: Entries, p: &[u8]) -> Result<u32, Misfit>
    ensures { result ≡ Answer.part_bits (all_of entries.entry) p.now }
{
    if p.is_empty() {
        return Ok(0);
    }
    entries
        .value_of(hash_of_str(p))
        .map(bit_of)
        .ok_or(Misfit::Unfit)
}

// The bits of all names in a text.
fn flag_names(entries: Entries, t: &[u8]) -> Result<u32, Misfit>
    ensures { result ≡ Names.flag_names (all_of entries.entry) (parts t.now) }
{
    let mut bits = 0;
    for part in t.split(|&b| is_parting(b)) {
        bits |= flag_part(entries, part)?;
    }
    Ok(bits)
}

// A trimmed text in a flags place.
#[tactic(auto, unfolding(crate::specs::Names::named_text))]
fn flag_text(entries: Entries, t: &[u8]) -> Result<u32, Misfit>
    ensures { result ≡ Names.flag_text (all_of entries.entry) t.now }
{
    match number_text(t) {
        Err(Misfit::Unfit) => flag_names(entries, t),
        number => number,
    }
}

// A row as flag bits, with so many levels of arrays left.
#[tactic(auto, unfolding(crate::specs::Names::flags_bits, crate::specs::Names::flags_body, value::specs::Rows::children_of))]
pub fn flags_bits(sheet: &[u8], entries: Entries, levels: usize, v: Row) -> Result<u32, Misfit>
    ensures { result ≡ Names.flags_bits levels sheet.now (all_of entries.entry) v }
{
    if levels == 0 {
        return Err(Misfit::Unfit);
    }
    match Kind::try_from(v.kind) {
        Ok(Kind::Flags) => Ok(v.a),
        Ok(Kind::Str) => flag_text(entries, trim(text_of(sheet, v))),
        Ok(Kind::Array) => {
            let first = v.first_child();
            let mut bits = 0;
            for i in 0..v.child_count() {
                bits |= flags_bits(sheet, entries, levels - 1, read_row(sheet, first + i))?;
            }
            Ok(bits)
        }
        _ => low_of(sheet, v),
    }
}
