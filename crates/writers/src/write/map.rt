// Maps: their mark, and the run of their pairs. The subtype is a byte, as in `write_member`.
ghost use Rattle.std.specs.Prelude.{◌+◌, ◌*◌, ◌≤◌, ◌<◌};
ghost use Rattle.value.specs.Rows.{rows_from};
ghost use Rattle.layout.specs.Members;
ghost use Rattle.layout.specs.Write;
ghost use Rattle.area.specs.Area.{env_of};
ghost use Rattle.area.specs.Posts.{Open};
ghost use Rattle.cells.specs.Names.{def_of, member_of};
ghost use Rattle.members.specs.Posts.{Buffer};
ghost use Rattle.members.specs.Steps.{Fills};
ghost use Rattle.writers.specs.Posts.{Of, deeper};

use crate::write::Writer;
use area::Area;
use area::fault::Fault;
use choices::choose::{count_of, lay_run};
use choices::elements::Items;
use members::rows::Rows;
use members::slots::put_pointer;
use members::{Target, look_up};
use numbers::refusal::Refusal;
use value::kind::Kind;
use value::value_row;

impl Writer<'_> {
    // A map: an empty one still holds 0x01000000.
    #[cycle(write)]
    pub(crate) fn write_map(&self, area: &mut Area<'_>, at: &Target) -> Result<(), Refusal>
        requires open { Open area.old.progress }
        requires buffer { Buffer area.old.round area.old.progress at.now.structure.size }
        ensures { Fills (Of self.now.schema.now) area.old at.now.structure.size
            (λ R S buf. Write.map_member (env_of self.now.sheet.now S R) (deeper self.now.sheet.now R self.now.left S)
            (def_of self.now.schema.now at.now.structure) (member_of at.now.member) at.now.value buf) result area.new }
    {
        let sub = at.member.subtype;
        if sub != 1 {
            at.say(area, Fault::MapSubtype, u32::from(sub));
            return Ok(());
        }
        if !at.fits(24) {
            at.too_small(area);
            return Ok(());
        }
        let row = value_row(self.sheet, at.value);
        if !row.is(Kind::Map) && !row.is(Kind::Null) {
            at.wrong(area);
            return Ok(());
        }
        put_pointer(area.bytes, at.place(area.progress.top), 0x01000000);
        let first = row.a;
        let count = count_of(row, Kind::Map);
        if count == 0 {
            return Ok(());
        }
        self.pairs(area, at, Rows { first, count })
    }

    // A map's pairs, at least one.
    #[cycle(write)]
    fn pairs(&self, area: &mut Area<'_>, at: &Target, rows: Rows) -> Result<(), Refusal>
        requires open { Open area.old.progress }
        requires buffer { Buffer area.old.round area.old.progress at.now.structure.size × (at.now.member.offset + 24 ≤ at.now.structure.size) × (0 < rows.count) }
        ensures { Fills (Of self.now.schema.now) area.old at.now.structure.size
            (λ R S buf. Write.map_of (env_of self.now.sheet.now S R) (deeper self.now.sheet.now R self.now.left S)
            (def_of self.now.schema.now at.now.structure) (member_of at.now.member)
            (Members.reference_at (def_of self.now.schema.now at.now.structure) (Members.low16 at.now.member.reference))
            (Write.pairs_of (rows_from rows.first (2 * rows.count))) buf) result area.new }
    {
        let h = at
            .structure
            .reference_at(self.schema, at.member.reference % 65536);
        let Some(inner) = look_up(self.schema, h) else {
            at.say(area, Fault::NoPair, h);
            return Ok(());
        };
        let base = area.progress.top;
        let Some(block) = self.struct_run(area, at, inner, rows, Items::Pairs)? else {
            return Ok(());
        };
        let place = at.place(base) + 8;
        let len = area.progress.top - base;
        lay_run(area, block, len, place, rows.count)
    }
}
