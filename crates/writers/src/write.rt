// The writers: a structure leads to its members and a member to further structures, inline, by pointer, in runs and in map pairs.
ghost use Rattle.std.specs.Prelude.{◌+◌};
ghost use Rattle.value.specs.Rows.{row, rows_from};
ghost use Rattle.layout.specs.Kinds;
ghost use Rattle.layout.specs.Members;
ghost use Rattle.layout.specs.Runs;
ghost use Rattle.layout.specs.Write;
ghost use Rattle.area.specs.Area.{env_of};
ghost use Rattle.area.specs.Posts.{Open};
ghost use Rattle.cells.specs.Names.{def_of, member_of};
ghost use Rattle.members.specs.Posts.{Buffer};
ghost use Rattle.members.specs.Steps.{Fills};
ghost use Rattle.choices.specs.Sources.{fields_is};
ghost use Rattle.writers.specs.Posts.{Of, Named, deeper, inner, below};
ghost use Rattle.writers.specs.Steps.{Pushes, Points};

use area::Area;
use area::fault::Fault;
use area::stack::shift;
use cells::defs::{Def, high_half};
use choices::choose::{
    array_info, by_pointer, count_of, embed, is_array_value, is_struct_value, lay_run, own_type,
};
use choices::source::Source;
use definitions::members::{ARRAYINFO, Member};
use members::member::write_plain;
use members::rows::Rows;
use members::slots::put_pointer;
use members::{Target, look_up};
use numbers::refusal::Refusal;
use value::kind::Kind;
use value::{read_row, value_row};

mod map;
mod run;

// "The 33rd inline level": a structure inline is one deeper, any other starts again with all depths.
pub const DEPTHS: usize = 32;

// The sheet's 64 levels and the depths: more than can start inside one another (docs/DECISIONS.md, 32).
pub const NESTED: usize = 96;

// What is packed, the rows and their definitions; and how many structures can start inside one another. The area is lent to the methods
// and not held here: the borrow checker covers no loan of a part of what a struct in a struct refers to. The four methods on the way to a
// structure inline are given how many depths are left; any other structure starts with all of them.
#[derive(Clone, Copy)]
pub struct Writer<'a> {
    pub sheet: &'a [u8],
    pub schema: &'a [u8],
    pub left: usize,
}

impl Writer<'_> {
    // A structure: its bytes grow on top of the stack.
    #[cycle(write)]
    pub fn write_struct(
        &self,
        area: &mut Area<'_>,
        d: Def,
        from: Source,
        depths: usize,
    ) -> Result<(), Refusal>
        ensures { Pushes (Named self.now.schema.now d) area.old d.size
            (λ R S. inner self.now.sheet.now R self.now.left depths S (def_of self.now.schema.now d) (fields_is self.now.sheet.now from)) result area.new }
    {
        if self.left == 0 || depths == 0 {
            return Err(Refusal::Depth);
        }
        let size = d.size as usize;
        area.pay(16 + size)?;
        area.use_struct(d.name);
        area.progress.top += size;
        let below = Writer {
            left: self.left - 1,
            ..*self
        };
        for k in 0..u32::from(d.count) {
            let member = d.member(self.schema, k);
            if member.name == ARRAYINFO {
                continue;
            }
            let at = Target {
                structure: d,
                member,
                value: from.value_of(self.sheet, member.name),
            };
            below.write_member(area, &at, depths - 1)?;
        }
        Ok(())
    }

    // A member, by its type byte: a match on the byte, and tests of subtypes as bytes below, as document 01 has it (docs/DECISIONS.md, 18).
    #[cycle(write)]
    fn write_member(&self, area: &mut Area<'_>, at: &Target, depths: usize) -> Result<(), Refusal>
        requires open { Open area.old.progress }
        requires buffer { Buffer area.old.round area.old.progress at.now.structure.size }
        ensures { Fills (Of self.now.schema.now) area.old at.now.structure.size
            (λ R S buf. Write.member (env_of self.now.sheet.now S R) (below self.now.sheet.now R self.now.left depths S)
            (def_of self.now.schema.now at.now.structure) (member_of at.now.member) (Kinds.kind_of at.now.member.kind) at.now.value buf) result area.new }
    {
        let ty = at.member.kind;
        match ty {
            0x0C => self.write_structure(area, at, depths),
            0x0D => self.write_array(area, at),
            0x10 => self.write_map(area, at),
            _ => write_plain(self.sheet, self.schema, area, at),
        }
    }

    // A structure: subtype 0 is inline, any other by pointer.
    #[cycle(write)]
    fn write_structure(
        &self,
        area: &mut Area<'_>,
        at: &Target,
        depths: usize,
    ) -> Result<(), Refusal>
        requires open { Open area.old.progress }
        requires buffer { Buffer area.old.round area.old.progress at.now.structure.size }
        ensures { Fills (Of self.now.schema.now) area.old at.now.structure.size
            (λ R S buf. Write.struct_member (env_of self.now.sheet.now S R) (below self.now.sheet.now R self.now.left depths S)
            (def_of self.now.schema.now at.now.structure) (member_of at.now.member) at.now.value buf) result area.new }
    {
        if !is_struct_value(value_row(self.sheet, at.value)) {
            at.wrong(area);
            return Ok(());
        }
        if at.member.subtype == 0 {
            return self.write_inline(area, at, depths);
        }
        self.write_pointed(area, at)
    }

    // A structure inline: it is written on top of the stack and moved into its parent.
    #[cycle(write)]
    fn write_inline(&self, area: &mut Area<'_>, at: &Target, depths: usize) -> Result<(), Refusal>
        requires open { Open area.old.progress }
        requires buffer { Buffer area.old.round area.old.progress at.now.structure.size }
        ensures { Fills (Of self.now.schema.now) area.old at.now.structure.size
            (λ R S buf. Write.inline_member (env_of self.now.sheet.now S R) (inner self.now.sheet.now R self.now.left depths S)
            (def_of self.now.schema.now at.now.structure) (member_of at.now.member)
            (Members.row_of (env_of self.now.sheet.now S R) at.now.value) buf) result area.new }
    {
        let reference = at.member.reference;
        let Some(inner) = look_up(self.schema, reference) else {
            at.say(area, Fault::NoStructure, reference);
            return Ok(());
        };
        let size = inner.size as usize;
        if !at.fits(size) {
            at.too_small(area);
            return Ok(());
        }
        let base = area.progress.top;
        self.write_struct(area, inner, Source::from(at.value), depths)?;
        shift(area.bytes, base, at.place(base), size);
        area.progress.top = base;
        Ok(())
    }

    // A structure by pointer; without a Struct nothing is written.
    #[cycle(write)]
    fn write_pointed(&self, area: &mut Area<'_>, at: &Target) -> Result<(), Refusal>
        requires open { Open area.old.progress }
        requires buffer { Buffer area.old.round area.old.progress at.now.structure.size }
        ensures { Fills (Of self.now.schema.now) area.old at.now.structure.size
            (λ R S buf. Write.pointed_member (env_of self.now.sheet.now S R) (deeper self.now.sheet.now R self.now.left S)
            (def_of self.now.schema.now at.now.structure) (member_of at.now.member)
            (Members.row_of (env_of self.now.sheet.now S R) at.now.value) buf) result area.new }
    {
        if !at.fits(8) {
            at.too_small(area);
            return Ok(());
        }
        let Some(r) = at.value else {
            return Ok(());
        };
        if !read_row(self.sheet, r).is(Kind::Struct) {
            return Ok(());
        }
        let place = at.place(area.progress.top);
        if let Some(x) = self.point_to(area, at, at.member.reference, r)? {
            put_pointer(area.bytes, place, x);
        }
        Ok(())
    }

    // The structure of row r, filed; its pointer.
    #[cycle(write)]
    fn point_to(
        &self,
        area: &mut Area<'_>,
        at: &Target,
        reference: u32,
        r: usize,
    ) -> Result<Option<u32>, Refusal>
        requires { Open area.old.progress }
        ensures { Points (Of self.now.schema.now) area.old
            (λ R S. Runs.pointed (env_of self.now.sheet.now S R) (deeper self.now.sheet.now R self.now.left S)
            (def_of self.now.schema.now at.now.structure) (member_of at.now.member) reference (row self.now.sheet.now r)) result area.new }
    {
        let Some(inner) = own_type(self.schema, read_row(self.sheet, r), reference) else {
            at.say(area, Fault::NoStructure, reference);
            return Ok(None);
        };
        self.write_struct(area, inner, Source::Row(r), DEPTHS)?;
        let x = area.lay(inner.name, inner.size as usize)?;
        Ok(Some(x))
    }

    // An array, by pointer or embedded.
    #[cycle(write)]
    fn write_array(&self, area: &mut Area<'_>, at: &Target) -> Result<(), Refusal>
        requires open { Open area.old.progress }
        requires buffer { Buffer area.old.round area.old.progress at.now.structure.size }
        ensures { Fills (Of self.now.schema.now) area.old at.now.structure.size
            (λ R S buf. Write.array_member (env_of self.now.sheet.now S R) (deeper self.now.sheet.now R self.now.left S)
            (def_of self.now.schema.now at.now.structure) (member_of at.now.member) at.now.value buf) result area.new }
    {
        let Some(x) = array_info(self.schema, at.structure, at.member) else {
            at.say(area, Fault::NoArrayInfo, 0);
            return Ok(());
        };
        let row = value_row(self.sheet, at.value);
        if !is_array_value(self.sheet, row) {
            at.wrong(area);
            return Ok(());
        }
        let first = row.a;
        let count = count_of(row, Kind::Array);
        if by_pointer(at.member.subtype, x.subtype) {
            return self.write_laid(area, at, x, Rows { first, count });
        }
        let count = count.min(high_half(at.member.reference));
        self.write_embedded(area, at, x, Rows { first, count })
    }

    // An array by pointer; without items it ends here.
    #[cycle(write)]
    fn write_laid(
        &self,
        area: &mut Area<'_>,
        at: &Target,
        x: Member,
        rows: Rows,
    ) -> Result<(), Refusal>
        requires open { Open area.old.progress }
        requires buffer { Buffer area.old.round area.old.progress at.now.structure.size }
        ensures { Fills (Of self.now.schema.now) area.old at.now.structure.size
            (λ R S buf. Write.pointed_array (env_of self.now.sheet.now S R) (deeper self.now.sheet.now R self.now.left S)
            (def_of self.now.schema.now at.now.structure) (member_of at.now.member) (member_of x) (rows_from rows.first rows.count) buf) result area.new }
    {
        if !at.fits(16) {
            at.too_small(area);
            return Ok(());
        }
        if rows.count == 0 {
            return Ok(());
        }
        let base = area.progress.top;
        let Some(block) = self.element_run(area, at, x, rows)? else {
            return Ok(());
        };
        let place = at.place(base);
        let len = area.progress.top - base;
        lay_run(area, block, len, place, rows.count)
    }

    // An embedded array: first the run with all that it lays, remarks and uses, and then whether it fits.
    #[cycle(write)]
    fn write_embedded(
        &self,
        area: &mut Area<'_>,
        at: &Target,
        x: Member,
        rows: Rows,
    ) -> Result<(), Refusal>
        requires open { Open area.old.progress }
        requires buffer { Buffer area.old.round area.old.progress at.now.structure.size }
        ensures { Fills (Of self.now.schema.now) area.old at.now.structure.size
            (λ R S buf. Write.embedded_array (env_of self.now.sheet.now S R) (deeper self.now.sheet.now R self.now.left S)
            (def_of self.now.schema.now at.now.structure) (member_of at.now.member) (member_of x) (rows_from rows.first rows.count) buf) result area.new }
    {
        let base = area.progress.top;
        if self.element_run(area, at, x, rows)?.is_some() {
            embed(area, base, at);
        }
        Ok(())
    }
}
