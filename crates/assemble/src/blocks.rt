// The blocks' rows: the table of places, PMAP, and PSIN and PMAP together.
// `SomeRows` is asked for by each and is no ghost field of a struct: the rows come from a caller, or are cut out of a work area that is
// whole (`SomeWhole`), and what makes such a struct would ask for the same.
ghost use Rattle.std.specs.Prelude.{◌≡◌, ◌+◌, ◌*◌, ◌/◌, ◌^◌, ◌≤◌, ◌<◌, List, [], ◌∷◌, ◌++◌, length, take};
ghost use Rattle.numbers.specs.Words.{read_at, bytes_of, words, over, Stands};
ghost use Rattle.layout.specs.State.{Block, Core};
ghost use Rattle.layout.specs.Assemble.{data_of, psin_of, block_rows, pmap_of};
ghost use Rattle.layout.specs.Always.{total};
ghost use Rattle.area.specs.Steps.{Same};
ghost use Rattle.assemble.specs.Map.{Rows, SomeRows, places_of, Pieces, SomePieces, Whole, SomeWhole};
ghost use Rattle.assemble.specs.Packed.{table_at};

use crate::data::write_data;
use crate::parts::{items, rows, table};
use area::{Area, PLACES, write_words};
use numbers::words::{read, write_u32};
use psch::section::head;

// A row of PMAP, of the block that has the row; the next block's place.
fn map_row(row: &[u8], place: u32, out: &mut [u8], to: usize) -> u32
    requires fits { place + read_at 4 row.now 4 < 256 ^ 4 }
    requires to_in_bounds { to + 16 ≤ length out.old }
    ensures { (result ≡ place + read_at 4 row.now 4)
        × (out.new ≡ over out.old to (words (read_at 4 row.now 0 ∷ place ∷ 0 ∷ read_at 4 row.now 4 ∷ []))) }
{
    let name = read::<u32>(row, 0);
    let len = read::<u32>(row, 4);
    write_words(out, to, &[name, place, 0, len]);
    place + len
}

// The rows of PMAP, from the rows of the blocks. `put_places` is the same walk, adding up places. What is written in a turn is handed
// in by no closure: it would lend the output to it, and is no plainer.
fn map_rows(rows: &[u8], out: &mut [u8], at: usize)
    requires some_rows { SomeRows rows.now }
    requires room { at + 16 * (length rows.now / 8) ≤ length out.old }
    ensures { (bs : List Block) → Rows rows.now bs → out.new ≡ over out.old at (block_rows 16 bs) }
{
    let mut place = 16;
    for (k, row) in rows.chunks_exact(8).enumerate() {
        place = map_row(row, place, out, at + 16 * k);
    }
}

// The place of the block that has the row, into the table; the next block's place.
fn table_row(row: &[u8], place: u32, table: &mut [u8], to: usize) -> u32
    requires fits { place + read_at 4 row.now 4 < 256 ^ 4 }
    requires to_in_bounds { to + 4 ≤ length table.old }
    ensures { (result ≡ place + read_at 4 row.now 4) × (table.new ≡ over table.old to (bytes_of 4 place)) }
{
    let len = read::<u32>(row, 4);
    write_u32(table, to, place);
    place + len
}

// The blocks' places, from the first byte of `table` on; where the last block ends.
pub fn put_places(rows: &[u8], table: &mut [u8]) -> u32
    requires some_rows { SomeRows rows.now }
    requires room { 4 * (length rows.now / 8) ≤ length table.old }
    ensures { (bs : List Block) → Rows rows.now bs → (table.new ≡ over table.old 0 (words (places_of 16 bs))) × (result ≡ 16 + total bs) }
{
    let mut place = 16;
    for (k, row) in rows.chunks_exact(8).enumerate() {
        place = table_row(row, place, table, 4 * k);
    }
    place
}

// The table of the blocks' places, behind the rows of the blocks; where the last block ends.
#[tactic(auto, using(crate::proofs::Heads::table_put, crate::proofs::Heads::rows_front))]
fn fill_table(work: &mut [u8], blocks: usize) -> u32
    requires some_rows { SomeRows (take (8 * blocks) work.old) }
    requires room { (blocks ≤ 4095) × (65536 ≤ length work.old) }
    ensures { (bs : List Block) → Rows (take (8 * blocks) work.old) bs → (work.new ≡ over work.old table_at (words (places_of 16 bs))) × (result ≡ 16 + total bs) }
{
    let (rows, table) = work.split_at_mut(PLACES);
    put_places(&rows[..8 * blocks], table)
}

// PMAP: its head, and the rows of the blocks.
pub fn write_map(rows: &[u8], root: u32, out: &mut [u8], at: usize)
    requires some_rows { SomeRows rows.now }
    requires room { (at + (16 + 16 * (length rows.now / 8)) ≤ length out.old) × (length rows.now / 8 ≤ 4095) }
    ensures { (bs : List Block) → Rows rows.now bs → out.new ≡ over out.old at (pmap_of root bs) }
{
    let n = (rows.len() / 8) as u32;
    head(out, at, b"PMAP", 16 + 16 * n);
    write_words(out, at + 8, &[root, n * 65536 + 0x7070]);
    map_rows(rows, out, at + 16);
}

// PSIN and PMAP, by a table that has the blocks' places and by where the last block ends; where PMAP ends.
fn write_both(
    rows: &[u8],
    items: &[u8],
    table: &[u8],
    size: u32,
    root: u32,
    out: &mut [u8],
) -> usize
    requires pieces { SomePieces rows.now items.now (length table.now) (length out.old) }
    requires placed { (bs : List Block) → Rows rows.now bs → Stands table.now 0 (words (places_of 16 bs)) × (size ≡ 16 + total bs) }
    ensures { (c : Core) → Pieces rows.now items.now (length table.now) (length out.old) c
        → (out.new ≡ over out.old 0 (psin_of (data_of c) ++ pmap_of root c.blocks))
        × (result ≡ 16 + length (data_of c) + (16 + 16 * length c.blocks)) }
{
    let at = size as usize;
    write_data(items, table, size, out);
    write_map(rows, root, out, at);
    at + (16 + 16 * (rows.len() / 8))
}

// PSIN and PMAP, from the rows of the blocks and the items; where PMAP ends. The blocks' places stand at the table's front then.
pub fn assemble(rows: &[u8], items: &[u8], table: &mut [u8], root: u32, out: &mut [u8]) -> usize
    requires { SomePieces rows.now items.now (length table.old) (length out.old) }
    ensures { (c : Core) → Pieces rows.now items.now (length table.old) (length out.old) c
        → (out.new ≡ over out.old 0 (psin_of (data_of c) ++ pmap_of root c.blocks))
        × (table.new ≡ over table.old 0 (words (places_of 16 c.blocks)))
        × (result ≡ 16 + length (data_of c) + (16 + 16 * length c.blocks)) }
{
    let size = put_places(rows, table);
    write_both(rows, items, table, size, root, out)
}

// The same of a work area, of which only the table of places is changed.
pub fn assemble_area(area: &mut Area<'_>, root: u32, out: &mut [u8]) -> usize
    requires { SomeWhole area.old.round area.old.progress area.old.bytes.now (length out.old) }
    ensures same { Same area.old area.new }
    ensures progress { area.new.progress ≡ area.old.progress }
    ensures whole { (c : Core) → Whole area.old.round area.old.progress area.old.bytes.now (length out.old) c
        → (out.new ≡ over out.old 0 (psin_of (data_of c) ++ pmap_of root c.blocks))
        × (area.new.bytes.now ≡ over area.old.bytes.now table_at (words (places_of 16 c.blocks)))
        × (result ≡ 16 + length (data_of c) + (16 + 16 * area.old.progress.blocks)) }
{
    let size = fill_table(area.bytes, area.progress.blocks);
    write_both(rows(area), items(area), table(area), size, root, out)
}
