// Runs whose elements lead to no structure: they grow on top of the stack.
#![tactic(auto)]

ghost use Rattle.std.specs.Prelude.{◌≡◌, ◌+◌, ◌*◌, ◌≤◌, Ok, None};
ghost use Rattle.numbers.specs.Words.{Bytes};
ghost use Rattle.numbers.specs.Result.{ok};
ghost use Rattle.value.specs.Rows.{rows_from};
ghost use Rattle.schema.specs.Psch.{schema_of};
ghost use Rattle.layout.specs.Kinds;
ghost use Rattle.layout.specs.Members;
ghost use Rattle.layout.specs.Runs;
ghost use Rattle.area.specs.Area.{env_of};
ghost use Rattle.area.specs.Posts.{Open};
ghost use Rattle.cells.specs.Names.{def_of, member_of};
ghost use Rattle.cells.specs.Cells.{Sane, cell_size, cell_element};
ghost use Rattle.members.specs.Posts.{any_schema};
ghost use Rattle.runs.specs.Posts.{stop_in, plain_run};
ghost use Rattle.runs.specs.Steps.{Yields};

use area::fault::Fault;
use area::{Area, blocks};
use cells::defs::{high_half, named};
use cells::kinds::{Kind, kind_of};
use cells::{Cell, put_cell};
use coerce::misfit::Misfit;
use coerce::whole::str_of;
use definitions::members::Member;
use members::member::used;
use members::rows::Rows;
use members::slots::{slot_size, text_slot};
use members::{Target, say};
use numbers::refusal::Refusal;
use value::read_row;

// A run of cells of `stride` bytes each; the first that does not fit drops it.
fn cell_run(
    sheet: &[u8],
    area: &mut Area<'_>,
    cell: Cell<'_>,
    stride: u32,
    block: u32,
    rows: Rows,
) -> Result<Option<u32>, Refusal>
    requires { Sane cell × (cell_size cell ≤ stride) }
    ensures { Yields any_schema area.old 0
        (λ R S. Runs.run (env_of sheet.now S R) stride block (cell_element sheet.now cell.entry stride) (rows_from rows.first rows.count)) result area.new }
{
    let base = area.progress.top;
    area.pay(rows.cost(stride))?;
    for i in 0..rows.count {
        let at = area.progress.top;
        let stop = at + (stride as usize);
        let v = read_row(sheet, rows.row(i));
        match put_cell(sheet, &mut area.bytes[at..stop], 0, cell, v) {
            Ok(()) => {
                area.progress.top = stop;
            }
            Err(Misfit::Unfit) => {
                area.drop_to(base);
                return Ok(None);
            }
            Err(Misfit::FloatText) => {
                return Err(Refusal::FloatText);
            }
        }
    }
    Ok(Some(block))
}

// A run of texts by pointer.
fn pointer_text_run(
    sheet: &[u8],
    area: &mut Area<'_>,
    sub: u8,
    rows: Rows,
) -> Result<Option<u32>, Refusal>
    ensures { Yields any_schema area.old 0
        (λ R S. Runs.run (env_of sheet.now S R) (Members.slot_size sub) (Runs.slot_block sub)
        (Runs.text_element (env_of sheet.now S R) sub) (rows_from rows.first rows.count)) result area.new }
{
    let stride = slot_size(sub);
    area.pay(rows.cost(stride as u32))?;
    for i in 0..rows.count {
        let at = area.progress.top;
        area.progress.top = at + stride;
        let v = read_row(sheet, rows.row(i));
        text_slot(area, sub, str_of(sheet, v), at)?;
    }
    Ok(Some(slot_block(sub)))
}

// The name of the block of texts by pointer: by the byte itself, as document 01 has it (docs/DECISIONS.md, 18).
fn slot_block(sub: u8) -> u32
    ensures { result ≡ Runs.slot_block sub }
{
    if sub == 3 {
        blocks::CHAR_POINTER
    } else {
        blocks::POINTER
    }
}

// A run that a remark stops.
pub fn stop_run(area: &mut Area<'_>, at: &Target, kind: u32, detail: u32)
    requires { Open area.old.progress }
    ensures yields { (F : Bytes) → Yields any_schema area.old 1
        (λ R S. Runs.stops (def_of F at.now.structure) (member_of at.now.member) kind detail) (Ok None) area.new }
    ensures work_after { (area.new.progress, area.new.bytes.now)
        ≡ stop_in area.old.round area.old.progress area.old.bytes.now at.now.structure at.now.member kind detail }
{
    area.progress = say(
        area.bytes,
        area.round,
        area.progress,
        at.structure,
        at.member,
        kind,
        detail,
    );
}

// A run of texts, by the elements' subtype: by the byte itself, as document 01 has it (docs/DECISIONS.md, 18).
fn text_run(
    sheet: &[u8],
    area: &mut Area<'_>,
    at: &Target,
    x: Member,
    rows: Rows,
) -> Result<Option<u32>, Refusal>
    requires { Open area.old.progress }
    ensures { (F : Bytes) → Yields any_schema area.old 1
        (λ R S. Runs.text_run (env_of sheet.now S R) (def_of F at.now.structure) (member_of at.now.member) (member_of x)
        (rows_from rows.first rows.count)) result area.new }
{
    let sub = x.subtype;
    match sub {
        0 => {
            let len = high_half(x.reference);
            if len == 0 {
                stop_run(area, at, Fault::ZeroLengthStrings.into(), 0);
                return Ok(None);
            }
            cell_run(
                sheet,
                area,
                Cell::Fixed(len as usize),
                len,
                blocks::STRING,
                rows,
            )
        }
        1..=3 => pointer_text_run(sheet, area, sub, rows),
        7 | 8 => cell_run(sheet, area, Cell::Hash, 4, blocks::UINT, rows),
        _ => {
            stop_run(area, at, Fault::StringArraySubtype.into(), u32::from(sub));
            Ok(None)
        }
    }
}

// A run of enum values, which are used even where the run is dropped.
fn enum_run(
    sheet: &[u8],
    schema: &[u8],
    area: &mut Area<'_>,
    h: u32,
    rows: Rows,
) -> Result<Option<u32>, Refusal>
    ensures { Yields (λ S. schema_of schema.now ≡ ok S) area.old 0
        (λ R S. Runs.enum_run (env_of sheet.now S R) h (rows_from rows.first rows.count)) result area.new }
{
    let (entries, name) = named(schema, h);
    used(area, name);
    cell_run(sheet, area, Cell::Enum(entries, 4), 4, blocks::INT, rows)
}

// The name of the block of a run of integers, by width and type byte, as document 01 has it (docs/DECISIONS.md, 18).
fn integer_block(k: usize, ty: u8) -> u32
    ensures { result ≡ Runs.scalar_block (Kinds.integer k) ty }
{
    if k <= 1 {
        return blocks::BYTE;
    }
    if k <= 2 {
        return blocks::SHORT;
    }
    if ty == 5 { blocks::INT } else { blocks::UINT }
}

// How many bytes a vector element has.
fn vector_stride(n: usize) -> u32
    ensures { result ≡ Runs.scalar_stride (Kinds.vector n) }
{
    if n == 2 { 8 } else { 16 }
}

// The rows as elements that lead to no structure, as x describes them; structures are left to writers.
// Inlined in writers, its variables would stand on the machine's stack for each structure inside another.
#[inline(never)]
pub fn plain_element_run(
    sheet: &[u8],
    schema: &[u8],
    area: &mut Area<'_>,
    at: &Target,
    x: Member,
    rows: Rows,
) -> Result<Option<u32>, Refusal>
    requires { Open area.old.progress }
    ensures { Yields (λ S. schema_of schema.now ≡ ok S) area.old 1
        (λ R S. plain_run (env_of sheet.now S R) (def_of schema.now at.now.structure) (member_of at.now.member) (member_of x)
        (Kinds.kind_of x.kind) (rows_from rows.first rows.count)) result area.new }
{
    match kind_of(x.kind) {
        Kind::Integer(k) => {
            let block = integer_block(k, x.kind);
            cell_run(sheet, area, Cell::Integer(k), k as u32, block, rows)
        }
        Kind::Single => cell_run(sheet, area, Cell::Single, 4, blocks::FLOAT, rows),
        Kind::Vector(k) => cell_run(
            sheet,
            area,
            Cell::Vector(k),
            vector_stride(k),
            blocks::STRING,
            rows,
        ),
        Kind::Text => text_run(sheet, area, at, x, rows),
        Kind::Enumeration => enum_run(sheet, schema, area, x.reference, rows),
        Kind::Structure => Ok(None),
        Kind::Array | Kind::Flags | Kind::Map | Kind::Other => {
            stop_run(area, at, Fault::ElementType.into(), u32::from(x.kind));
            Ok(None)
        }
    }
}
