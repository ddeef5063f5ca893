// Members that lead to no structure. The structure's bytes so far are the top of the stack.
// Sheet and schema come side by side in one function here and in two of runs: in writers and rounds one struct has both.
ghost use Rattle.std.specs.Prelude.{◌≡◌, ◌+◌, ◌<◌, ◌^◌};
ghost use Rattle.numbers.specs.Words.{Bytes};
ghost use Rattle.numbers.specs.Result.{ok};
ghost use Rattle.schema.specs.Psch.{schema_of};
ghost use Rattle.layout.specs.Kinds;
ghost use Rattle.layout.specs.Members;
ghost use Rattle.area.specs.Area.{env_of};
ghost use Rattle.area.specs.Posts.{Open};
ghost use Rattle.cells.specs.Names.{def_of, member_of};
ghost use Rattle.cells.specs.Cells.{Sane, cell_size, cell_bytes};
ghost use Rattle.cells.specs.Plans.{Known, cell_member, plain_member};
ghost use Rattle.members.specs.Posts.{Buffer, any_schema};
ghost use Rattle.members.specs.Steps.{Fills, Uses};

use crate::Target;
use crate::slots::{slot_size, text_slot};
use area::Area;
use cells::plan::{Plan, plan_of};
use cells::{Cell, put_cell};
use coerce::misfit::Misfit;
use coerce::whole::{has_str, str_of};
use numbers::refusal::Refusal;
use value::value_row;

// The enum of the name is used, where there is one.
pub fn used(area: &mut Area<'_>, name: Option<u32>)
    ensures { Uses area.old name area.new }
{
    if let Some(name) = name {
        area.use_enum(name);
    }
}

// A member that is a cell of `need` bytes; where it is stored, the enum of the name is used, if there is one.
fn write_cell(
    sheet: &[u8],
    area: &mut Area<'_>,
    at: &Target,
    cell: Cell<'_>,
    need: usize,
    name: Option<u32>,
) -> Result<(), Refusal>
    requires open { Open area.old.progress }
    requires buffer { Buffer area.old.round area.old.progress at.now.structure.size × Sane cell × (cell_size cell ≡ need) × (need < 2 ^ 40) }
    ensures { (F : Bytes) → Fills (Known name) area.old at.now.structure.size
        (λ R S buf. cell_member (env_of sheet.now S R) need (cell_bytes sheet.now cell.entry) name
        (def_of F at.now.structure) (member_of at.now.member) at.now.value buf) result area.new }
{
    if !at.fits(need) {
        at.too_small(area);
        return Ok(());
    }
    let row = value_row(sheet, at.value);
    let off = at.member.offset as usize;
    let stop = area.progress.top;
    let from = stop - at.structure.size as usize;
    match put_cell(sheet, &mut area.bytes[from..stop], off, cell, row) {
        Ok(()) => {
            used(area, name);
            Ok(())
        }
        Err(Misfit::Unfit) => {
            at.wrong(area);
            Ok(())
        }
        Err(Misfit::FloatText) => Err(Refusal::FloatText),
    }
}

// A text by pointer.
fn write_pointer(sheet: &[u8], area: &mut Area<'_>, at: &Target) -> Result<(), Refusal>
    requires open { Open area.old.progress }
    requires buffer { Buffer area.old.round area.old.progress at.now.structure.size }
    ensures { (F : Bytes) → Fills any_schema area.old at.now.structure.size
        (λ R S buf. Members.pointer_member (env_of sheet.now S R) (def_of F at.now.structure) (member_of at.now.member) at.now.value buf) result area.new }
{
    let sub = at.member.subtype;
    if !at.fits(slot_size(sub)) {
        at.too_small(area);
        return Ok(());
    }
    let row = value_row(sheet, at.value);
    if !has_str(row) {
        at.wrong(area);
        return Ok(());
    }
    let place = at.place(area.progress.top);
    text_slot(area, sub, str_of(sheet, row), place)
}

// A member that leads to no structure, as planned; any other kind is left to the writers of structures. One place writes the cells of members.
pub fn write_plain(
    sheet: &[u8],
    schema: &[u8],
    area: &mut Area<'_>,
    at: &Target,
) -> Result<(), Refusal>
    requires open { Open area.old.progress }
    requires buffer { Buffer area.old.round area.old.progress at.now.structure.size }
    ensures { Fills (λ S. schema_of schema.now ≡ ok S) area.old at.now.structure.size
        (λ R S buf. plain_member (env_of sheet.now S R) (def_of schema.now at.now.structure) (member_of at.now.member)
        (Kinds.kind_of at.now.member.kind) at.now.value buf) result area.new }
{
    match plan_of(schema, at.structure, at.member) {
        Plan::Store(cell, need, name) => write_cell(sheet, area, at, cell, need, name.ok()),
        Plan::Pointer => write_pointer(sheet, area, at),
        Plan::Nothing => Ok(()),
        Plan::Remark(fault, detail) => {
            at.say(area, fault, detail);
            Ok(())
        }
    }
}
