// Runs of an array's elements and of a map's pairs: they grow on top of the stack.
ghost use Rattle.value.specs.Rows.{rows_from};
ghost use Rattle.layout.specs.Kinds;
ghost use Rattle.layout.specs.Runs;
ghost use Rattle.area.specs.Area.{env_of};
ghost use Rattle.area.specs.Posts.{Open};
ghost use Rattle.cells.specs.Names.{def_of, member_of};
ghost use Rattle.choices.specs.Items.{is_pairs};
ghost use Rattle.runs.specs.Steps.{Yields};
ghost use Rattle.writers.specs.Posts.{Of, Named, deeper, struct_run};

use crate::write::{DEPTHS, Writer};
use area::fault::Fault;
use area::{Area, blocks};
use cells::defs::Def;
use choices::elements::Items;
use definitions::members::Member;
use members::rows::Rows;
use members::slots::put_pointer;
use members::{Target, look_up};
use numbers::refusal::Refusal;
use runs::{plain_element_run, stop_run};
use value::kind::Kind;
use value::read_row;

impl Writer<'_> {
    // The rows as elements that x describes, by its type byte and subtype, as in `write_member`. x goes beside the rows in five functions
    // of runs and writers, and is no part of them, since `pointer_run` and `struct_run` go on without it.
    #[cycle(write)]
    pub(crate) fn element_run(
        &self,
        area: &mut Area<'_>,
        at: &Target,
        x: Member,
        rows: Rows,
    ) -> Result<Option<u32>, Refusal>
        requires { Open area.old.progress }
        ensures { Yields (Of self.now.schema.now) area.old 1
            (λ R S. Runs.element_run (env_of self.now.sheet.now S R) (deeper self.now.sheet.now R self.now.left S)
            (def_of self.now.schema.now at.now.structure) (member_of at.now.member) (member_of x) (Kinds.kind_of x.kind)
            (rows_from rows.first rows.count)) result area.new }
    {
        if x.kind != 0x0C {
            return plain_element_run(self.sheet, self.schema, area, at, x, rows);
        }
        if x.subtype == 3 {
            return self.pointer_run(area, at, x.reference, rows);
        }
        let Some(inner) = look_up(self.schema, x.reference) else {
            stop_run(area, at, Fault::NoElement.into(), x.reference);
            return Ok(None);
        };
        self.struct_run(area, at, inner, rows, Items::Elements)
    }

    // Structures by pointer: 8 bytes for each row; what is no Struct leaves them zero.
    #[cycle(write)]
    fn pointer_run(
        &self,
        area: &mut Area<'_>,
        at: &Target,
        reference: u32,
        rows: Rows,
    ) -> Result<Option<u32>, Refusal>
        requires { Open area.old.progress }
        ensures { Yields (Of self.now.schema.now) area.old 0
            (λ R S. Runs.run (env_of self.now.sheet.now S R) 8 12
            (Runs.pointer_element (env_of self.now.sheet.now S R) (deeper self.now.sheet.now R self.now.left S)
            (def_of self.now.schema.now at.now.structure) (member_of at.now.member) reference) (rows_from rows.first rows.count)) result area.new }
    {
        area.pay(rows.cost(8))?;
        for k in 0..rows.count {
            let place = area.progress.top;
            area.progress.top = place + 8;
            let r = rows.row(k);
            if !read_row(self.sheet, r).is(Kind::Struct) {
                continue;
            }
            if let Some(x) = self.point_to(area, at, reference, r)? {
                put_pointer(area.bytes, place, x);
            }
        }
        Ok(Some(blocks::POINTER))
    }

    // A run of structures of the definition `inner`, or of a map's pairs.
    #[cycle(write)]
    pub(crate) fn struct_run(
        &self,
        area: &mut Area<'_>,
        at: &Target,
        inner: Def,
        rows: Rows,
        items: Items,
    ) -> Result<Option<u32>, Refusal>
        requires { Open area.old.progress }
        ensures { Yields (Named self.now.schema.now inner) area.old 0
            (λ R S. struct_run (env_of self.now.sheet.now S R) (deeper self.now.sheet.now R self.now.left S)
            (def_of self.now.schema.now at.now.structure) (member_of at.now.member) (def_of self.now.schema.now inner) inner.name
            rows.first rows.count (is_pairs items)) result area.new }
    {
        area.pay(rows.cost(inner.size))?;
        for k in 0..rows.count {
            let r = items.row(rows, k);
            items.note(self.sheet, area, at, r);
            self.write_struct(area, inner, items.source(self.schema, inner, r), DEPTHS)?;
        }
        Ok(Some(inner.name))
    }
}
