// What a member that leads to no structure is, decided before anything is written.
ghost use Rattle.std.specs.Prelude.{◌≡◌, ◌≤◌, ◌<◌};
ghost use Rattle.layout.specs.Kinds;
ghost use Rattle.layout.specs.Members;
ghost use Rattle.cells.specs.Plans.{scalar_plan, fixed_plan, PlansText, PlansKind};

use crate::Cell;
use crate::defs::{Def, high_half, named};
use area::fault::Fault;
use definitions::members::Member;

// A cell of so many bytes, with the name of its enum: Ok where there is an enum of the name, Err where there is none, and Err(0) where the
// cell has no enum; a text by pointer; nothing; a kind of remark, with its detail.
#[derive(Clone, Copy)]
pub enum Plan<'a> {
    Store(Cell<'a>, usize, Result<u32, u32>),
    Pointer,
    Nothing,
    Remark(Fault, u32),
}

// How many bytes an enum or flags member has: by the byte itself, as document 01 has it (docs/DECISIONS.md, 18).
fn enum_size(sub: u8) -> usize
    ensures { (result ≡ Members.enum_size sub) × (result ≤ 4) }
{
    match sub {
        0 => 4,
        1 => 2,
        _ => 1,
    }
}

// A text in as many bytes as the reference's high half says.
fn fixed<'a>(reference: u32) -> Plan<'a>
    ensures { (result ≡ fixed_plan reference) × (Members.high16 reference < 65536) }
{
    let len = high_half(reference) as usize;
    Plan::Store(Cell::Fixed(len), len, Err(0))
}

// A whole number of k bytes.
fn whole<'a>(k: usize) -> Plan<'a>
    ensures { result ≡ scalar_plan (Kinds.integer k) }
{
    Plan::Store(Cell::Integer(k), k, Err(0))
}

// A vector of n numbers.
fn vector<'a>(n: usize) -> Plan<'a>
    requires { n ≤ 4 }
    ensures { result ≡ scalar_plan (Kinds.vector n) }
{
    Plan::Store(Cell::Vector(n), 4 * n, Err(0))
}

// A text, by its subtype: by the byte itself, as document 01 has it (docs/DECISIONS.md, 18).
fn text<'a>(m: Member) -> Plan<'a>
    ensures { PlansText m result }
{
    match m.subtype {
        0 => fixed(m.reference),
        1..=3 => Plan::Pointer,
        7 | 8 => Plan::Store(Cell::Hash, 4, Err(0)),
        sub => Plan::Remark(Fault::StringSubtype, u32::from(sub)),
    }
}

// A member, by its type byte and subtype.
pub fn plan_of(schema: &[u8], d: Def, m: Member) -> Plan<'_>
    ensures { PlansKind schema.now d m (Kinds.kind_of m.kind) result }
{
    let ty = m.kind;
    // Over the type byte and not over `kind_of`: document 01 names this match (docs/DECISIONS.md, 18).
    match ty {
        0x00..=0x02 => whole(1),
        0x03 | 0x04 | 0x1E => whole(2),
        0x05 | 0x06 => whole(4),
        0x07 => Plan::Store(Cell::Single, 4, Err(0)),
        0x08 => vector(2),
        0x09 | 0x14 => vector(3),
        0x0A | 0x15 => vector(4),
        0x0B => text(m),
        0x0C | 0x0D | 0x10 => Plan::Nothing,
        0x0E => {
            let (entries, name) = named(schema, m.reference);
            let size = enum_size(m.subtype);
            Plan::Store(Cell::Enum(entries, size), size, name.ok_or(m.reference))
        }
        0x0F => {
            let reference = d.reference_at(schema, m.reference % 4096);
            let (entries, name) = named(schema, reference);
            let size = enum_size(m.subtype);
            Plan::Store(Cell::Flags(entries, size), size, name.ok_or(reference))
        }
        0x20 => whole(8),
        _ => Plan::Remark(Fault::MemberType, u32::from(ty)),
    }
}
