// Texts by pointer in their slots.
ghost use Rattle.std.specs.Prelude.{◌≡◌, ◌+◌, ◌≤◌, ◌<◌, ◌^◌, length};
ghost use Rattle.layout.specs.Members;
ghost use Rattle.area.specs.Area.{stack_at};
ghost use Rattle.members.specs.Steps.{Slots};

use area::Area;
use numbers::refusal::Refusal;
use numbers::words::write;

// A pointer at `at`.
pub fn put_pointer(work: &mut [u8], at: usize, x: u32)
    requires { at + 4 ≤ length work.old }
    ensures { work.new ≡ Members.put_pointer work.old at x }
{
    write(work, at, 4, x as u64);
}

// A pointer with a count.
pub fn put_counted(work: &mut [u8], at: usize, x: u32, n: usize)
    requires { at + 12 ≤ length work.old }
    ensures { work.new ≡ Members.put_counted work.old at x n }
{
    put_pointer(work, at, x);
    write(work, at + 8, 2, n as u64);
    write(work, at + 10, 2, n as u64);
}

// How many bytes a text by pointer has in its structure. By the byte itself, as document 01 has it (docs/DECISIONS.md, 18).
pub fn slot_size(sub: u8) -> usize
    ensures { (result ≡ Members.slot_size sub) × (8 ≤ result) × (result ≤ 16) }
{
    if sub == 3 { 16 } else { 8 }
}

// A text is laid, and its pointer stands at `at`, with its length where the subtype is 3; an empty text is not laid.
pub fn text_slot(area: &mut Area<'_>, sub: u8, text: &[u8], at: usize) -> Result<(), Refusal>
    requires { (stack_at area.old.round ≤ at) × (at + Members.slot_size sub ≤ area.old.progress.top) × (length text.now < 2 ^ 40) }
    ensures { Slots area.old sub text.now at result area.new }
{
    let n = text.len();
    if n == 0 {
        return Ok(());
    }
    area.pay(16 + (n + 1))?;
    let x = area.lay_text(text)?;
    if sub == 3 {
        put_counted(area.bytes, at, x, n);
    } else {
        put_pointer(area.bytes, at, x);
    }
    Ok(())
}
