// The work area of the packer: block rows, remark rows, used names, laid items and the stack, each a segment with zeros behind it.
// It is one lent slice with fixed places, and no Vec or map: document 01 has no heap and a fixed amount of memory.
#![tactic(auto)]

ghost use Rattle.std.specs.Prelude.{◌≡◌, ◌+◌, ◌*◌, ◌≤◌, length};
ghost use Rattle.numbers.specs.Words.{words, over};
ghost use Rattle.area.specs.Area.{stack_at};
ghost use Rattle.area.specs.Posts.{Safe, paid_in};

use numbers::refusal::Refusal;
use numbers::words::write_u32;
use stack::drop_run;

pub mod blocks;
pub mod fault;
pub mod items;
pub mod notes;
pub mod stack;
pub mod used;

// Where the remark rows start; the block rows start at 0.
pub const REMARKS: usize = 32768;

// Where the table of the blocks' places starts.
pub const PLACES: usize = 49152;

// Where the names of used structures start; those of used enums start at `NAMES + 4 * entries`, the items at `NAMES + 8 * entries`, and the
// stack stands behind them. The two sums are written out: as methods of Round they would ask for a bound of their own.
pub const NAMES: usize = 65536;

// What a round is given: the schema's index entries, the charge's cap, and how many remarks were taken by earlier rounds.
#[derive(Clone, Copy)]
pub struct Round {
    pub entries: usize,
    pub cap: usize,
    pub skip: usize,
}

// How many blocks, remark rows, used structures and enums there are; where items and stack end; the charge;
// how many remarks were met, and how many of them the rows account for.
#[derive(Clone, Copy)]
pub struct Progress {
    pub blocks: usize,
    pub rows: usize,
    pub structs: usize,
    pub enums: usize,
    pub end: usize,
    pub top: usize,
    pub charge: usize,
    pub seen: usize,
    pub next: usize,
}

// The work area of a round: its bytes, and how far the round has come. The numbers are in order, so that every segment has room.
#[derive(Drop)]
pub struct Area<'a> {
    pub bytes: &'a mut [u8],
    pub round: Round,
    pub progress: Progress,
    pub ghost safe: { Safe round (length bytes.now) progress },
}

impl Progress {
    // With a cost charged; refused where the charge would pass the cap. This is for numbers of no area; `Area::pay` is the area's.
    pub fn paid(self, cap: usize, cost: usize) -> Result<Progress, Refusal>
        requires { self.charge ≤ cap }
        ensures { result ≡ paid_in cap self cost }
    {
        if cap - self.charge < cost {
            return Err(Refusal::Charge);
        }
        Ok(Progress {
            charge: self.charge + cost,
            ..self
        })
    }
}

impl Area<'_> {
    ghost use Rattle.area.specs.Steps.{Pays, Falls};

    // Charges a cost; refused where the charge would pass its cap.
    pub fn pay(&mut self, cost: usize) -> Result<(), Refusal>
        ensures { Pays self.old cost result self.new }
    {
        self.progress = self.progress.paid(self.round.cap, cost)?;
        Ok(())
    }

    // A run that is not wanted: what stands from `base` on is taken off the stack.
    pub fn drop_to(&mut self, base: usize)
        requires { (stack_at self.old.round ≤ base) × (base ≤ self.old.progress.top) }
        ensures { Falls self.old base self.new }
    {
        self.progress = drop_run(self.bytes, self.progress, base);
    }
}

// Where an item goes: how many blocks stand before its block, and its start there.
#[derive(Clone, Copy)]
pub struct Spot {
    pub before: usize,
    pub start: usize,
}

// Numbers, one behind the other.
#[tactic(auto, using(crate::proofs::Over::words_next, numbers::proofs::Laws::over_nil), unfolding(numbers::specs::Words::words))]
pub fn write_words(s: &mut [u8], at: usize, numbers: &[u32])
    requires { at + 4 * length numbers.now ≤ length s.old }
    ensures { s.new ≡ over s.old at (words numbers.now) }
{
    for (k, x) in numbers.iter().enumerate() {
        write_u32(s, at + 4 * k, *x);
    }
}
