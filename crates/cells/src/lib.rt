// What is stored in a member's place or in an element of a run, from a row alone; and what a member that leads to no structure is,
// decided before anything is written.
#![tactic(auto)]

ghost use Rattle.std.specs.Prelude.{◌≡◌, ◌+◌, ◌*◌, ◌≤◌, length, take};
ghost use Rattle.numbers.specs.Words.{words, over};
ghost use Rattle.cells.specs.Cells.{cell_bytes, cell_size, Sane, Puts, text_fit};

use area::write_words;
use coerce::misfit::Misfit;
use coerce::vector::vec_of;
use coerce::whole::{float_of, has_str, int_of, str_of};
use names::entries::Entries;
use names::enums::enum_value;
use names::flags::flags_bits;
use names::hashes::hash_of;
use numbers::words::{copy, part_to, write};
use value::Row;

pub mod defs;
pub mod kinds;
pub mod plan;

// Widths are numbers of bytes and not names: `write` takes them, and offsets are counted with them.
// That they are in order (`Sane`) is asked by contracts, since an enum has no ghost field, and a struct around it, to have one, would be no plainer.
// An integer of so many bytes, an f32, a vector, a hash, an enum's value or flags by entries in so many bytes, a text in so many bytes.
#[derive(Clone, Copy)]
pub enum Cell<'a> {
    Integer(usize),
    Single,
    Vector(usize),
    Hash,
    Enum(Entries<'a>, usize),
    Flags(Entries<'a>, usize),
    Fixed(usize),
}

// A text in len bytes: all of them but the last at most are written; what is longer is cut.
fn put_text(sheet: &[u8], buf: &mut [u8], off: usize, len: usize, v: Row) -> Result<(), Misfit>
    requires { off + len ≤ length buf.old }
    ensures { Puts (text_fit sheet.now len v) buf.old off result buf.new }
{
    if !has_str(v) {
        return Err(Misfit::Unfit);
    }
    let t = str_of(sheet, v);
    if 0 < len {
        copy(buf, off, part_to(t, len - 1));
    }
    Ok(())
}

// A row as the cell wants it, stored at off.
#[tactic(auto, unfolding(crate::specs::Cells::cell_bytes))]
pub fn put_cell(
    sheet: &[u8],
    buf: &mut [u8],
    off: usize,
    cell: Cell<'_>,
    v: Row,
) -> Result<(), Misfit>
    requires { Sane cell × (off + cell_size cell ≤ length buf.old) }
    ensures { Puts (cell_bytes sheet.now cell.entry v) buf.old off result buf.new }
{
    match cell {
        Cell::Integer(k) => write(buf, off, k, int_of(sheet, v)?),
        Cell::Single => write(buf, off, 4, u64::from(float_of(sheet, v)?)),
        Cell::Vector(n) => write_words(buf, off, &vec_of(sheet, v, n)?[..n]),
        Cell::Hash => {
            let hash = hash_of(sheet, v).ok_or(Misfit::Unfit)?;
            write(buf, off, 4, u64::from(hash));
        }
        Cell::Enum(entries, k) => write(buf, off, k, u64::from(enum_value(sheet, entries, v)?)),
        Cell::Flags(entries, k) => {
            let bits = flags_bits(sheet, entries, 64, v)?;
            write(buf, off, k, u64::from(bits));
        }
        Cell::Fixed(len) => put_text(sheet, buf, off, len, v)?,
    }
    Ok(())
}
