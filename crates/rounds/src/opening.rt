// What is judged before the first round.
ghost use Rattle.std.specs.Prelude.{◌≡◌};
ghost use Rattle.numbers.specs.Refusal.{answer_of};
ghost use Rattle.rounds.specs.Merge.{Opens, roomed_at, rooted_at, schemed_at, opening_of};

use crate::Task;
use area::{NAMES, Round};
use definitions::lookup::find;
use numbers::refusal::Refusal;
use schema::check::check_schema;
use schema::kind::Kind;
use sheet::check_sheet;
use value::read_row;

// What the layout runs with: the round, the root's place and name.
#[derive(Clone, Copy)]
pub struct Opening {
    pub round: Round,
    pub place: usize,
    pub name: u32,
}

// The rooms of the work area, for a root at a place.
fn roomed(work: usize, entries: usize, place: usize, name: u32) -> Result<Opening, Refusal>
    ensures { answer_of result ≡ roomed_at work entries place name }
{
    if work < NAMES || (work - NAMES) / 8 < entries {
        return Err(Refusal::WorkLength);
    }
    let cap = ((work - NAMES - 8 * entries) / 4).min(4194304);
    let round = Round {
        entries,
        cap,
        skip: 0,
    };
    Ok(Opening { round, place, name })
}

impl Task<'_> {
    // The root's definition, then the rooms.
    fn rooted(&self, work: usize, entries: usize) -> Result<Opening, Refusal>
        ensures { answer_of result ≡ rooted_at self.now.sheet.now self.now.schema.now work entries }
    {
        let name = read_row(self.sheet, 0).a;
        let place = find(self.schema, Kind::Structure, name).ok_or(Refusal::NoRootDefinition)?;
        roomed(work, entries, place, name)
    }

    // The schema, then the root.
    fn schemed(&self, work: usize) -> Result<Opening, Refusal>
        ensures { answer_of result ≡ schemed_at self.now.sheet.now self.now.schema.now work }
    {
        let entries = check_schema(self.schema)?;
        self.rooted(work, entries)
    }

    // What is judged before the layout, for a work area of `work` bytes: the sheet, the schema, the root's definition, the work area.
    pub fn opened(&self, work: usize) -> Result<Opening, Refusal>
        ensures value { answer_of result ≡ opening_of self.now.sheet.now self.now.schema.now work }
        ensures opens { Opens self.now.alone self.now.sheet.now self.now.schema.now work (answer_of result) }
    {
        check_sheet(self.sheet)?;
        self.schemed(work)
    }
}
