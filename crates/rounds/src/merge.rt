// A round, and where the merge of its rows stands. All but the running is decided by value.
ghost use Rattle.std.specs.Prelude.{◌≡◌, length};
ghost use Rattle.numbers.specs.Words.{zeros};
ghost use Rattle.assemble.specs.Packed.{length_of};
ghost use Rattle.rounds.specs.Run.{Roomy, Rooted};
ghost use Rattle.rounds.specs.Merge.{refusal_of, judged_at, sought_at, Judges, Takes};

use crate::opening::Opening;
use crate::{Job, Stage, Task};
use area::Area;
use assemble::file::file_length;
use numbers::refusal::Refusal;

impl Job {
    // A refusal after the round: its numbers stay, to say what of the work area is in use.
    fn refused(self, refusal: Refusal) -> Stage
        ensures { result ≡ refusal_of self refusal }
    {
        Stage {
            at: 0,
            last: true,
            length: 0,
            base: 0,
            count: 0,
            row: 0,
            job: Job {
                outcome: Err(refusal),
                ..self
            },
        }
    }
}

impl Stage {
    // The row is looked for from record k on, in a list of `room` records.
    #[tactic(auto, using(crate::proofs::Merges::sought_before, crate::proofs::Merges::sought_full, crate::proofs::Merges::sought_behind))]
    pub fn seek(self, room: usize, k: usize) -> Stage
        ensures { result ≡ sought_at room self k }
    {
        if k < self.base {
            return Stage { at: k, ..self };
        }
        if self.count == room {
            return self.job.refused(Refusal::RemarkCount);
        }
        Stage {
            at: self.count,
            ..self
        }
    }
}

impl Task<'_> {
    // All rows are merged: the layout's own answer; refused where the file is too long.
    pub fn judged(&self, area: &Area<'_>, stage: Stage) -> Stage
        requires round { area.now.round ≡ stage.job.opening.round }
        requires progress { area.now.progress ≡ stage.job.progress }
        ensures value { result ≡ judged_at self.now.size stage (length_of self.now.schema.now stage.job.opening.round stage.job.progress area.now.bytes.now) }
        ensures judges { Judges self.now.alone self.now.schema.now self.now.size stage area.now.bytes.now result }
    {
        if let Err(refusal) = stage.job.outcome {
            return stage.job.refused(refusal);
        }
        let n = file_length(self.schema, area);
        if 16777216 < n || self.size < n {
            return stage.job.refused(Refusal::OutputLength);
        }
        Stage {
            at: stage.count,
            last: true,
            length: n,
            ..stage
        }
    }

    // Runs a round, whose rows are to be merged behind `count` records.
    pub fn take_round(&self, work: &mut [u8], opening: Opening, count: usize) -> Stage
        requires { Roomy opening.round (length work.old) × (work.old ≡ zeros (length work.old))
            × Rooted self.now.schema.now opening.round opening.place opening.name }
        ensures { Takes self.now.alone self.now.sheet.now self.now.schema.now self.now.size self.now.room opening count result work.new }
    {
        let mut area = opening.begin(work);
        let outcome = self.run(&mut area, &opening);
        let job = Job {
            opening,
            outcome,
            progress: area.progress,
        };
        let stage = Stage {
            at: 0,
            last: false,
            length: 0,
            base: count,
            count,
            row: 0,
            job,
        };
        if job.progress.rows == 0 {
            return self.judged(&area, stage);
        }
        stage.seek(self.room, 0)
    }
}
