// The driver's steps: the first round; a turn, which makes a record of the record that it is given; the end.
// `task, work` travel through them: `Task` is another crate's, so these are no methods of it; the work area is lent.
#![tactic(auto)]

ghost use Rattle.std.specs.Prelude.{length};
ghost use Rattle.rounds.specs.Merge.{Fit};
ghost use Rattle.turns.specs.Turns.{Passes, Ready, Steps, Begins, Reached, Ends};

use area::REMARKS;
use area::notes::{row_at, same};
use assemble::file::{put_file, wipe};
use layout::Remark;
use numbers::refusal::Refusal;
use numbers::words::clear;
use rounds::{Stage, Task};

// The length of the file and the number of remarks.
#[derive(Clone, Copy)]
pub struct Built {
    pub length: usize,
    pub remarks: usize,
}

// What a turn makes of a record, and where the merge stands then.
#[derive(Clone, Copy)]
pub struct Turn {
    pub stage: Stage,
    pub new: Remark,
}

// The work area is cleared, all is checked, and the first round runs.
pub fn first(task: &Task<'_>, work: &mut [u8]) -> Result<Stage, Refusal>
    ensures { Begins task.now.alone task.now.sheet.now task.now.schema.now task.now.size task.now.room result work.new }
{
    let n = work.len();
    clear(work, 0, n);
    let opening = task.opened(n)?;
    Ok(task.take_round(work, opening, 0))
}

// A row is done with: the next one; or the next round; or the end.
fn passed(task: &Task<'_>, work: &mut [u8], stage: Stage) -> Stage
    requires { Fit task.now.alone task.now.sheet.now task.now.schema.now work.old task.now.size task.now.room stage }
    ensures { Passes task.now.alone task.now.sheet.now task.now.schema.now task.now.size task.now.room stage work.old result work.new }
{
    let job = stage.job;
    if stage.row + 1 < job.progress.rows {
        let next = Stage {
            row: stage.row + 1,
            ..stage
        };
        return next.seek(task.room, 0);
    }
    let mut area = job.area(work);
    if job.progress.seen <= job.progress.next {
        return task.judged(&area, stage);
    }
    wipe(&mut area);
    let mut opening = job.opening;
    opening.round.skip = job.progress.next;
    task.take_round(work, opening, stage.count)
}

// One turn: record `at` is `old`.
pub fn step(task: &Task<'_>, work: &mut [u8], stage: Stage, old: Remark) -> Turn
    requires { Ready task.now.alone task.now.sheet.now task.now.schema.now task.now.size task.now.room stage work.old }
    ensures { Steps task.now.alone task.now.sheet.now task.now.schema.now task.now.size task.now.room stage old work.old result work.new }
{
    let room = task.room;
    let row = row_at(work, REMARKS + 16 * stage.row);
    if stage.base <= stage.at {
        let put = Stage {
            count: stage.count + 1,
            ..stage
        };
        return Turn {
            stage: passed(task, work, put),
            new: row,
        };
    }
    if same(old, row) {
        return Turn {
            stage: passed(task, work, stage),
            new: old,
        };
    }
    Turn {
        stage: stage.seek(room, stage.at + 1),
        new: old,
    }
}

// The answer, the file on success alone, and the work area zero: what the last round has in use is wiped.
pub fn last(
    task: &Task<'_>,
    work: &mut [u8],
    out: &mut [u8],
    stage: Result<Stage, Refusal>,
) -> Result<Built, Refusal>
    requires { Reached task.now.alone task.now.sheet.now task.now.schema.now (length out.old) task.now.room stage work.old }
    ensures { Ends task.now.alone task.now.sheet.now task.now.schema.now task.now.room (length work.old) out.old result out.new work.new }
{
    let stage = stage?;
    let job = stage.job;
    let mut area = job.area(work);
    let built = match job.outcome {
        Ok(pointer) => {
            put_file(task.schema, &mut area, pointer, out);
            Ok(Built {
                length: stage.length,
                remarks: stage.count,
            })
        }
        Err(refusal) => Err(refusal),
    };
    wipe(&mut area);
    built
}
