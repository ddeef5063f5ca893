// The blocks of a file, by number.
ghost use Rattle.std.specs.Prelude.{◌≡◌, ◌+◌, ◌*◌, ◌≤◌, length, option_map};
ghost use Rattle.numbers.specs.Words.{read_at};
ghost use Rattle.numbers.specs.Result.{ok, nth};
ghost use Rattle.numbers.specs.Refusal.{answer_of};
ghost use Rattle.schema.specs.Sections.{sections};
ghost use Rattle.pso.specs.Reader.{Pso, is_later, block_at, parse_pso};
ghost use Rattle.pso.specs.Blocks.{numbered, section_blocks, blocks_of};
ghost use Rattle.pso.specs.Answers.{table_of, row_of};
ghost use Rattle.pso.specs.Steps.{Spans};

use numbers::refusal::Refusal;
use numbers::words::read;
use schema::cursor::{Cursor, Section};

// What a PMAP section says: its root number, where its rows start in it, and how many there are.
#[derive(Clone, Copy)]
pub struct Rows {
    pub root: u32,
    pub start: usize,
    pub count: usize,
}

// Whether the count is 0 or has its top bit set: the later layout.
fn is_later(p: &[u8]) -> bool
    ensures { result ≡ is_later p.now }
{
    let n = read::<u16>(p, 12);
    n == 0 || 0x8000 <= n
}

// The rows of a PMAP section.
pub fn read_rows(p: &[u8]) -> Result<Rows, Refusal>
    ensures { answer_of result ≡ table_of p.now }
{
    let (start, count) = if is_later(p) {
        (24, usize::from(read::<u16>(p, 16)))
    } else {
        (16, usize::from(read::<u16>(p, 12)))
    };
    if p.len() < start + 16 * count {
        return Err(Refusal::MapLength);
    }
    Ok(Rows {
        root: read::<u32>(p, 8),
        start,
        count,
    })
}

// A block: its name, its place in the data section and its length.
#[derive(Clone, Copy)]
pub struct Row {
    pub name: u32,
    pub place: u32,
    pub len: u32,
}

// The row at a place of a PMAP section.
fn row_at(p: &[u8], at: usize) -> Row
    requires { at + 16 ≤ length p.now }
    ensures { result ≡ row_of (block_at p.now at) }
{
    Row {
        name: read::<u32>(p, at),
        place: read::<u32>(p, at + 4),
        len: read::<u32>(p, at + 12),
    }
}

// Where the rows of a section start in it, and how many there are.
#[derive(Clone, Copy)]
pub struct Span {
    pub start: usize,
    pub count: usize,
}

// The rows of a section: none, where it is another than PMAP or too short.
fn rows_of(section: Section) -> Option<Span>
    ensures { let P = section.entry.bytes.now in Spans P (section_blocks (read_at 4 P 0) P) result }
{
    if !section.is(b"PMAP") {
        return None;
    }
    let rows = read_rows(section.bytes).ok()?;
    Some(Span {
        start: rows.start,
        count: rows.count,
    })
}

// The row n, from 0, over all PMAP sections.
fn nth_row(file: &[u8], n: usize) -> Option<Row>
    ensures { result ≡ option_map row_of (nth (blocks_of (sections file.now)) n) }
{
    let mut cursor = Cursor::new(file);
    let mut k = n;
    while let Some((section, next)) = cursor.step().unwrap_or(None) {
        if let Some(rows) = rows_of(section) {
            if k < rows.count {
                return Some(row_at(section.bytes, rows.start + 16 * k));
            }
            k -= rows.count;
        }
        cursor = next;
    }
    None
}

// The block of a number, from 1.
pub fn block(file: &[u8], number: usize) -> Option<Row>
    ensures result_value { result ≡ option_map row_of (numbered (blocks_of (sections file.now)) number) }
    ensures number_value { (p : Pso) → parse_pso file.now ≡ ok p → result ≡ option_map row_of (numbered p.blocks number) }
{
    nth_row(file, number.checked_sub(1)?)
}
