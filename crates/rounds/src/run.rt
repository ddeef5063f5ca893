// One run of the layout.
ghost use Rattle.std.specs.Prelude.{◌≡◌, length};
ghost use Rattle.numbers.specs.Words.{zeros};
ghost use Rattle.area.specs.Posts.{Safe};
ghost use Rattle.area.specs.Steps.{size, Step};
ghost use Rattle.rounds.specs.Run.{beginning_of, Rooted, Roomy, Runs};

use crate::opening::Opening;
use crate::{Job, Task};
use area::{Area, NAMES, Progress};
use choices::source::Source;
use members::def_at;
use numbers::refusal::Refusal;
use writers::write::{DEPTHS, NESTED, Writer};

impl Opening {
    // The work area before the first byte.
    pub fn begin<'a>(&self, bytes: &'a mut [u8]) -> Area<'a>
        requires { Roomy self.now.round (length bytes.old) }
        ensures lent { result.bytes.ghost_name ≡ bytes.entry.ghost_name }
        ensures bytes { result.bytes.now ≡ bytes.old }
        ensures round { result.round ≡ self.now.round }
        ensures progress { result.progress ≡ beginning_of self.now.round }
    {
        let round = self.round;
        let end = NAMES + 8 * round.entries;
        let progress = Progress {
            blocks: 0,
            rows: 0,
            structs: 0,
            enums: 0,
            end,
            top: end + round.cap,
            charge: 0,
            seen: 0,
            next: 0,
        };
        Area {
            bytes,
            round,
            progress,
        }
    }
}

impl Job {
    // The work area as the round left it.
    pub fn area<'a>(&self, bytes: &'a mut [u8]) -> Area<'a>
        requires { Safe self.now.opening.round (length bytes.old) self.now.progress }
        ensures lent { result.bytes.ghost_name ≡ bytes.entry.ghost_name }
        ensures bytes { result.bytes.now ≡ bytes.old }
        ensures round { result.round ≡ self.now.opening.round }
        ensures progress { result.progress ≡ self.now.progress }
    {
        Area {
            bytes,
            round: self.opening.round,
            progress: self.progress,
        }
    }
}

impl Task<'_> {
    // Runs the layout from its beginning to its end: the root's pointer; or refusal 8, 9, 10 or 11.
    pub fn run(&self, area: &mut Area<'_>, opening: &Opening) -> Result<u32, Refusal>
        requires begun { area.old.progress ≡ beginning_of area.old.round }
        requires clear { area.old.bytes.now ≡ zeros (size area.old) }
        requires rooted { Rooted self.now.schema.now area.old.round opening.now.place opening.now.name }
        ensures { Step (λ R n p w. Runs self.now.alone self.now.sheet.now self.now.schema.now R n opening.now.name) area.old result area.new }
    {
        let root = def_at(self.schema, opening.name, opening.place);
        let writer = Writer {
            sheet: self.sheet,
            schema: self.schema,
            left: NESTED,
        };
        writer.write_struct(area, root, Source::Row(0), DEPTHS)?;
        area.lay_item(self.alone, opening.name, root.size as usize)
    }
}
