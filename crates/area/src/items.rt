// Laid items: each goes to the first block of its name with room, else to a new last block; alone, to a new last block always.
ghost use Rattle.std.specs.Prelude.{false, ◌≡◌, ◌+◌, ◌*◌, ◌≤◌, ◌<◌, ◌^◌, length};
ghost use Rattle.area.specs.Area.{items_at, stack_at, with_item, headed};
ghost use Rattle.area.specs.Posts.{Finds, Places, blocks_with};

use crate::stack::shift;
use crate::{Area, Progress, Spot, blocks, write_words};
use numbers::refusal::Refusal;
use numbers::words::{copy, read};

// The first of the n blocks that has the name and room for `need` bytes; else behind the last.
// A loop that returns and no `find`: the block's length is looked at and handed on. `need < 2 ^ 40`: a bound of one call's number.
fn spot(work: &[u8], n: usize, name: u32, need: usize) -> Spot
    requires { (n ≤ 4095) × (need < 2 ^ 40) }
    ensures { Finds false work.now n name need result }
{
    for k in 0..n {
        if read::<u32>(work, 8 * k) == name {
            let len = read::<u32>(work, 8 * k + 4) as usize;
            if len + need <= 0x100000 {
                return Spot {
                    before: k,
                    start: len,
                };
            }
        }
    }
    Spot {
        before: n,
        start: 0,
    }
}

// The row of its block, and its head behind the other items.
fn put_head(work: &mut [u8], end: usize, name: u32, before: usize, start: usize, len: usize)
    requires { (8 * before + 8 ≤ length work.old) × (end + 16 ≤ length work.old) × (before < 4095) × (start ≤ 0x100000) × (len < 2 ^ 31) }
    ensures { work.new ≡ headed work.old end name before start len }
{
    write_words(work, 8 * before, &[name, (start + len) as u32]);
    write_words(
        work,
        end,
        &[(before + 1) as u32, start as u32, len as u32, 0],
    );
}

impl Progress {
    // The numbers with an item more.
    fn filed(self, before: usize, end: usize, top: usize) -> Progress
        requires { before < 4095 }
        ensures { result ≡ with_item self (blocks_with self.blocks before) end top }
    {
        let mut q = self;
        q.end = end;
        q.top = top;
        if before < self.blocks {
            return q;
        }
        q.blocks = before + 1;
        q
    }
}

impl Area<'_> {
    ghost use Rattle.area.specs.Steps.{LaysItem, Lays, LaysText};

    // Where an item of the name with `need` bytes goes, alone behind all blocks; refused where the block's number or the start would be too
    // large. `need < 2 ^ 40` as at `spot`. A call for each item would be seen in a scene's time.
    #[inline(always)]
    #[tactic(auto, using(crate::proofs::Spots::finds_alone))]
    fn place(&self, alone: bool, name: u32, need: usize) -> Result<Spot, Refusal>
        requires { need < 2 ^ 40 }
        ensures { Places alone self.now.bytes.now self.now.progress.blocks name need result }
    {
        let blocks = self.progress.blocks;
        let at = if alone {
            Spot {
                before: blocks,
                start: 0,
            }
        } else {
            spot(self.bytes, blocks, name, need)
        };
        if 4095 <= at.before || 0xFFFFF < at.start {
            return Err(Refusal::BlockLimit);
        }
        Ok(at)
    }

    // Lays the top `len` bytes of the stack as an item of the name; alone, in a new last block.
    pub fn lay_item(&mut self, alone: bool, name: u32, len: usize) -> Result<u32, Refusal>
        requires { (self.old.progress.end + (16 + len) ≤ items_at self.old.round + self.old.progress.charge)
            × (stack_at self.old.round + len ≤ self.old.progress.top) }
        ensures { LaysItem alone self.old name len result self.new }
    {
        let p = self.progress;
        let Spot { before, start } = self.place(alone, name, len)?;
        let from = p.top - len;
        put_head(self.bytes, p.end, name, before, start, len);
        shift(self.bytes, from, p.end + 16, len);
        self.progress = p.filed(before, p.end + (16 + len), from);
        Ok((before + 1 + start * 4096) as u32)
    }

    // Lays the top `len` bytes of the stack as an item of the name, in the first block of it with room, else in a new last one.
    pub fn lay(&mut self, name: u32, len: usize) -> Result<u32, Refusal>
        requires { (self.old.progress.end + (16 + len) ≤ items_at self.old.round + self.old.progress.charge)
            × (stack_at self.old.round + len ≤ self.old.progress.top) }
        ensures { Lays self.old name len result self.new }
    {
        self.lay_item(false, name, len)
    }

    // Lays a text with its closing zero byte.
    pub fn lay_text(&mut self, text: &[u8]) -> Result<u32, Refusal>
        requires { self.old.progress.end + (16 + (length text.now + 1)) ≤ items_at self.old.round + self.old.progress.charge }
        ensures { LaysText self.old text.now result self.new }
    {
        let p = self.progress;
        let n = text.len();
        let Spot { before, start } = self.place(false, blocks::STRING, n + 1)?;
        put_head(self.bytes, p.end, blocks::STRING, before, start, n + 1);
        copy(self.bytes, p.end + 16, text);
        self.progress = p.filed(before, p.end + (16 + (n + 1)), p.top);
        Ok((before + 1 + start * 4096) as u32)
    }
}
