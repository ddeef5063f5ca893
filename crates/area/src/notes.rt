// Remark rows: a remark is kept where none equal to it stands, and there is room.
ghost use Rattle.std.specs.Prelude.{◌≡◌, ◌+◌, ◌*◌, ◌≤◌, ◌<◌, ◌^◌, length};
ghost use Rattle.layout.specs.State;
ghost use Rattle.area.specs.Rows.{row_in, rows_in};
ghost use Rattle.area.specs.Posts.{Safe, Notes};

use crate::{Area, Progress, REMARKS, Round, write_words};
use layout::Remark;
use numbers::words::read;

// The remark row at a place.
pub fn row_at(work: &[u8], at: usize) -> Remark
    requires { at < 2 ^ 62 }
    ensures { result ≡ row_in work.now at }
{
    Remark {
        kind: read::<u32>(work, at),
        structure: read::<u32>(work, at + 4),
        member: read::<u32>(work, at + 8),
        detail: read::<u32>(work, at + 12),
    }
}

// Equal in all four numbers: by value, as document 01 has it.
pub fn same(q: Remark, r: Remark) -> bool
    ensures { result ≡ State.same_remark q r }
{
    q == r
}

// Whether one of the first n rows holds the remark.
fn remarked(work: &[u8], n: usize, r: Remark) -> bool
    requires { n ≤ 1024 }
    ensures { result ≡ State.remarked r (rows_in work.now 32768 n) }
{
    (0..n).any(|k| same(row_at(work, REMARKS + 16 * k), r))
}

// A remark is met: kept as a row, unless it stands there, belongs to an earlier round, or the rows are full.
// This is for a work area whose numbers need not be in order afterwards; `Area::note` keeps them so.
pub fn note(work: &mut [u8], round: Round, p: Progress, r: Remark) -> Progress
    requires { Safe round (length work.old) p }
    ensures { Notes round (length work.old) p work.old r result work.new }
{
    let mut q = p;
    q.seen = p.seen + 1;
    if p.next < p.seen {
        return q;
    }
    let n = p.rows;
    if p.seen >= round.skip && !remarked(work, n, r) {
        if 1024 <= n {
            return q;
        }
        write_words(
            work,
            REMARKS + 16 * n,
            &[r.kind, r.structure, r.member, r.detail],
        );
        q.rows = n + 1;
    }
    q.next = p.next + 1;
    q
}

impl Area<'_> {
    ghost use Rattle.area.specs.Steps;

    // A remark is met, where the charge pays for it. No ghost field: it holds where a cost has been paid, and each remark uses it up.
    pub fn note(&mut self, r: Remark)
        requires { self.old.progress.seen < 65536 * self.old.progress.charge }
        ensures { Steps.Notes self.old r self.new }
    {
        self.progress = note(self.bytes, self.round, self.progress, r);
    }
}
