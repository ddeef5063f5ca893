// The definitions of a file's PSCH sections are whole: refusals 4, 5 and 6, and the number of index entries.
ghost use Rattle.std.specs.Prelude.{◌≡◌, ℕ, ◌^◌, ◌<◌, length, cond};
ghost use Rattle.numbers.specs.Words.{read_at};
ghost use Rattle.numbers.specs.Result.{ok, refused, map_result};
ghost use Rattle.numbers.specs.Refusal.{answer_of};
ghost use Rattle.schema.specs.Defs.{index_entries};
ghost use Rattle.schema.specs.Psch.{past, def_at, psch_of, section_defs, schema_of};
ghost use Rattle.schema.specs.Steps.{judged};

use crate::cursor::{Cursor, Section};
use crate::kind::Kind;
use numbers::refusal::Refusal;
use numbers::words::{read, read_number};

// n things that end at `stop` lie in p.
fn within(p: &[u8], n: usize, stop: usize) -> Result<(), Refusal>
    ensures { answer_of result ≡ cond (past p.now n stop) (refused 5) (ok tt) }
{
    if 0 < n && p.len() < stop {
        return Err(Refusal::SchemaBounds);
    }
    Ok(())
}

// The kind of the definition at `at` of a PSCH section.
fn kind_at(p: &[u8], at: usize) -> Result<Kind, Refusal>
    requires { at < 2 ^ 32 }
    ensures { (name : ℕ) → def_at p.now name at ≡ judged p.now name at result }
{
    within(p, 1, at + 4)?;
    match Kind::try_from(read::<u8>(p, at)) {
        Ok(Kind::Structure) => {
            within(p, 1, at + 8)?;
            let n = usize::from(read::<u16>(p, at + 2));
            within(p, n, at + 12 + 12 * n)?;
            Ok(Kind::Structure)
        }
        Ok(Kind::Enum) => {
            let n = read_number(p, at + 1, 3) as usize;
            within(p, n, at + 4 + 8 * n)?;
            Ok(Kind::Enum)
        }
        Err(()) => Err(Refusal::TopByte),
    }
}

// A PSCH section: the number of its index entries.
pub fn check_psch(p: &[u8]) -> Result<usize, Refusal>
    ensures { answer_of result ≡ map_result length (psch_of p.now) }
{
    within(p, 1, 12)?;
    let n = read::<u32>(p, 8) as usize;
    within(p, n, 12 + 8 * n)?;
    for i in 0..n {
        let place = read::<u32>(p, 12 + 8 * i + 4) as usize;
        kind_at(p, place)?;
    }
    Ok(n)
}

// A section of a file: another than PSCH has no definitions.
fn check_section(section: Section) -> Result<usize, Refusal>
    ensures { let P = section.entry.bytes.now in answer_of result ≡ map_result length (section_defs (read_at 4 P 0) P) }
{
    if section.is(b"PSCH") {
        check_psch(section.bytes)
    } else {
        Ok(0)
    }
}

// All sections of a schema file, in file order.
pub fn check_schema(file: &[u8]) -> Result<usize, Refusal>
    ensures { answer_of result ≡ map_result index_entries (schema_of file.now) }
{
    let mut cursor = Cursor::new(file);
    let mut count = 0;
    while let Some((section, next)) = cursor.step()? {
        count += check_section(section)?;
        cursor = next;
    }
    Ok(count)
}
