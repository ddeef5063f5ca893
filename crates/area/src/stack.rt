// The stack: bytes under construction.
ghost use Rattle.std.specs.Prelude.{◌≡◌, ◌+◌, ◌≤◌, length, take, drop};
ghost use Rattle.numbers.specs.Words.{over, zeros};
ghost use Rattle.area.specs.Posts.{Fell};

use crate::Progress;
use numbers::words::{clear, move_within};

// Moves n bytes from `from` down to `to`, and clears where they stood.
pub fn shift(work: &mut [u8], from: usize, to: usize, n: usize)
    requires { (to + n ≤ from) × (from + n ≤ length work.old) }
    ensures { work.new ≡ over (over work.old to (take n (drop from work.old))) from (zeros n) }
{
    move_within(work, from, to, n);
    clear(work, from, n);
}

// What stands from `base` on is taken off, whatever the other numbers are: `Area::drop_to` keeps them in order.
pub fn drop_run(work: &mut [u8], p: Progress, base: usize) -> Progress
    requires { (base ≤ p.top) × (p.top ≤ length work.old) }
    ensures { Fell p base work.old result work.new }
{
    clear(work, base, p.top - base);
    Progress { top: base, ..p }
}
