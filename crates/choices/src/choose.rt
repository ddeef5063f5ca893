// What is chosen before a structure is written: definitions, element descriptors, counts; and what is done with a finished run.
ghost use Rattle.std.specs.Prelude.{◌≡◌, ◌+◌, ◌≤◌, option_map};
ghost use Rattle.value.specs.Kind.{number_of};
ghost use Rattle.schema.specs.Defs.{Schema};
ghost use Rattle.layout.specs.Write;
ghost use Rattle.area.specs.Area.{items_at, stack_at, env_of};
ghost use Rattle.area.specs.Posts.{Open};
ghost use Rattle.cells.specs.Names.{def_of, member_of};
ghost use Rattle.choices.specs.Sources.{own_up, Owned, count_of};
ghost use Rattle.choices.specs.Steps.{Embeds, Lodges};

use area::Area;
use area::stack::shift;
use cells::defs::Def;
use definitions::members::Member;
use members::slots::put_counted;
use members::{Target, look_up};
use numbers::refusal::Refusal;
use texts::text::trim;
use value::kind::Kind;
use value::{Row, text_of};

// The structure that a row by pointer is: its own type's, where there is one, else the reference's.
#[tactic(auto, using(crate::proofs::Choosing::own_here, crate::proofs::Choosing::own_reference))]
pub fn own_type(schema: &[u8], v: Row, reference: u32) -> Option<Def>
    ensures value { result ≡ own_up schema.now v reference }
    ensures owned { Owned schema.now v reference result }
{
    look_up(schema, v.a).or_else(|| look_up(schema, reference))
}

// Struct, Null or empty text.
pub fn is_struct_value(v: Row) -> bool
    ensures { (E : _) → result ≡ Write.is_struct_value E v }
{
    v.is(Kind::Struct) || v.is(Kind::Null) || (v.is(Kind::Str) && v.b == 0)
}

// Array, Null or blank text.
pub fn is_array_value(sheet: &[u8], v: Row) -> bool
    ensures { (S : Schema) (round : _) → result ≡ Write.is_array_value (env_of sheet.now S round) v }
{
    v.is(Kind::Array) || v.is(Kind::Null) || (v.is(Kind::Str) && trim(text_of(sheet, v)).is_empty())
}

// What an array's elements are: the member that the reference's low 16 bits say, or, where there are too few, its low 12 bits.
#[tactic(auto, using(crate::proofs::Choosing::info_low, crate::proofs::Choosing::info_less, crate::proofs::Choosing::info_none))]
pub fn array_info(schema: &[u8], d: Def, m: Member) -> Option<Member>
    ensures { option_map member_of result ≡ Write.array_info (def_of schema.now d) (member_of m) }
{
    let n = u32::from(d.count);
    let low = m.reference % 65536;
    if low < n {
        return Some(d.member(schema, low));
    }
    let less = m.reference % 4096;
    if less < n {
        return Some(d.member(schema, less));
    }
    None
}

// How many elements an array has, or pairs a map; none, where v is of another kind.
pub fn count_of(v: Row, kind: Kind) -> u32
    ensures { result ≡ count_of v (number_of kind) }
{
    if v.is(kind) { v.b } else { 0 }
}

// Whether an array is by pointer: by the bytes of the subtypes, as document 01 has it (docs/DECISIONS.md, 18).
pub fn by_pointer(sub: u8, elements: u8) -> bool
    ensures { result ≡ Write.by_pointer sub elements }
{
    sub == 0 || (sub == 4 && elements == 3)
}

// The run on top of the stack is filed; its pointer stands at `at` with its count n.
pub fn lay_run(
    area: &mut Area<'_>,
    block: u32,
    len: usize,
    at: usize,
    n: u32,
) -> Result<(), Refusal>
    requires { (area.old.progress.end + (16 + len) ≤ items_at area.old.round + area.old.progress.charge)
        × (stack_at area.old.round ≤ at) × (at + 12 + len ≤ area.old.progress.top) }
    ensures { Lodges area.old block len at n result area.new }
{
    let x = area.lay(block, len)?;
    put_counted(area.bytes, at, x, n as usize);
    Ok(())
}

// The run above `base` is moved into the structure below it, where it fits (remark 1).
pub fn embed(area: &mut Area<'_>, base: usize, at: &Target)
    requires open { Open area.old.progress }
    requires size_bound { (stack_at area.old.round + at.now.structure.size ≤ base) × (base ≤ area.old.progress.top) }
    ensures { Embeds area.old base at.now.structure at.now.member area.new }
{
    let len = area.progress.top - base;
    if !at.fits(len) {
        area.drop_to(base);
        at.too_small(area);
        return;
    }
    shift(area.bytes, base, at.place(base), len);
    area.progress.top = base;
}
