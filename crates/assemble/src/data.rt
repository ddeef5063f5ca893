// The data section from the laid items: each is copied to its block's place plus its start.
ghost use Rattle.std.specs.Prelude.{◌≡◌, ◌+◌, length, take, drop};
ghost use Rattle.numbers.specs.Words.{read_at, over};
ghost use Rattle.layout.specs.State.{Core};
ghost use Rattle.layout.specs.Assemble.{data_of};
ghost use Rattle.assemble.specs.Scatter.{Ready, Held, Turn, placed, psin_sized};

use area::write_words;
use numbers::words::{copy, read};
use psch::section::head;

// The item whose head stands at `pos`, to its block's place plus its start; the next one's head.
fn place_item(items: &[u8], pos: usize, table: &[u8], out: &mut [u8]) -> usize
    requires { Turn items.now table.now (length out.old) pos }
    ensures { (result ≡ pos + (16 + read_at 4 items.now (pos + 8)))
        × (out.new ≡ over out.old (placed items.now table.now pos) (take (read_at 4 items.now (pos + 8)) (drop (pos + 16) items.now))) }
{
    let block = read::<u32>(items, pos) as usize;
    let start = read::<u32>(items, pos + 4) as usize;
    let len = read::<u32>(items, pos + 8) as usize;
    let place = read::<u32>(table, 4 * (block - 1)) as usize;
    let next = pos + (16 + len);
    copy(out, place + start, &items[pos + 16..next]);
    next
}

// Each item, in order, to its block's place plus its start.
fn scatter(items: &[u8], table: &[u8], out: &mut [u8])
    requires { Held items.now table.now (length out.old) }
    ensures { (c : Core) → Ready items.now table.now (length out.old) c → out.new ≡ over out.old 16 (data_of c) }
{
    // Items differ in length, and each says where the next one stands, so no range and no iterator of std's is plainer.
    let mut pos = 0;
    while pos < items.len() {
        pos = place_item(items, pos, table, out);
    }
}

// PSIN, `size` bytes long: its head, and the data from the items.
#[tactic(auto, using(crate::proofs::Heads::psin_whole))]
pub fn write_data(items: &[u8], table: &[u8], size: u32, out: &mut [u8])
    requires { Held items.now table.now (length out.old) }
    ensures { (c : Core) → Ready items.now table.now (length out.old) c
        → out.new ≡ over out.old 0 (psin_sized size (data_of c)) }
{
    head(out, 0, b"PSIN", size);
    write_words(out, 8, &[0, 0]);
    scatter(items, table, out);
}
