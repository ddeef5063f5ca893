// Members that lead to no structure: scalars, texts, hashes, enums and flags; and look-up and remarks, which all writers share.
#![tactic(auto)]

ghost use Rattle.std.specs.Prelude.{◌≡◌, ◌+◌, ◌-◌, ◌*◌, ◌≤◌, ◌<◌, ◌^◌, leb, length, Ok};
ghost use Rattle.numbers.specs.Words.{Bytes};
ghost use Rattle.numbers.specs.Result.{ok};
ghost use Rattle.schema.specs.Defs.{Schema, winning};
ghost use Rattle.schema.specs.Psch.{schema_of};
ghost use Rattle.layout.specs.Members;
ghost use Rattle.area.specs.Fault.{fault_number};
ghost use Rattle.area.specs.Posts;
ghost use Rattle.area.specs.Posts.{Safe, Open};
ghost use Rattle.area.specs.Steps.{Notes};
ghost use Rattle.cells.specs.Names.{def_of, member_of};
ghost use Rattle.members.specs.Names.{defined_at, looked_is, looked_up};
ghost use Rattle.members.specs.Posts.{remark_on, wrong_in, any_schema};
ghost use Rattle.members.specs.Steps.{Fills};

use area::fault::Fault;
use area::notes::note;
use area::{Area, Progress, Round};
use cells::defs::Def;
use cells::kinds::type_number;
use definitions::lookup::find;
use definitions::members::{Member, read_head};
use layout::Remark;
use schema::kind::Kind;

pub mod member;
pub mod rows;
pub mod slots;

// A member of a structure with the row of its value, where there is one: where a writer writes, and what its remarks speak of.
// The area is lent beside it, as beside `Writer`.
#[derive(Clone, Copy)]
pub struct Target {
    pub structure: Def,
    pub member: Member,
    pub value: Option<usize>,
}

impl Target {
    // Whether n bytes at the member's offset lie in the structure.
    pub fn fits(&self, n: usize) -> bool
        requires { n < 2 ^ 40 }
        ensures { result ≡ leb (self.now.member.offset + n) self.now.structure.size }
    {
        self.member.offset as usize + n <= self.structure.size as usize
    }

    // Where the member stands, its structure being the last bytes of a stack that ends at `top`.
    pub fn place(&self, top: usize) -> usize
        requires { (self.now.structure.size ≤ top) × (top < 2 ^ 63) }
        ensures { result ≡ top - self.now.structure.size + self.now.member.offset }
    {
        top - self.structure.size as usize + self.member.offset as usize
    }

    // A remark on the member.
    pub fn say(&self, area: &mut Area<'_>, fault: Fault, detail: u32)
        requires { area.old.progress.seen < 65536 * area.old.progress.charge }
        ensures { Notes area.old (remark_on self.now.structure self.now.member (fault_number fault) detail) area.new }
    {
        area.note(Remark {
            kind: fault.into(),
            structure: self.structure.name,
            member: self.member.name,
            detail,
        });
    }

    // Remark 1: the member does not fit. Said by the places themselves: a test that also writes a remark would hide it.
    pub fn too_small(&self, area: &mut Area<'_>)
        requires { area.old.progress.seen < 65536 * area.old.progress.charge }
        ensures { Notes area.old (remark_on self.now.structure self.now.member 1 self.now.structure.size) area.new }
    {
        self.say(area, Fault::MemberSize, self.structure.size);
    }

    // Remark 2, unless the member is missing.
    pub fn wrong(&self, area: &mut Area<'_>)
        requires { Open area.old.progress }
        ensures fills { (F : Bytes) → Fills any_schema area.old self.now.structure.size
            (λ R S buf. Members.wrong (def_of F self.now.structure) (member_of self.now.member) self.now.value buf) (Ok tt) area.new }
        ensures work_after { (area.new.progress, area.new.bytes.now)
            ≡ wrong_in area.old.round area.old.progress area.old.bytes.now self.now.structure self.now.member self.now.value }
    {
        if self.value.is_some() {
            self.say(area, Fault::WrongValue, type_number(self.member.kind));
        }
    }
}

// A remark of any kind on member m of structure d. It asks for a safe work area alone, as area's `note` does; `Target::say` asks that the
// remark is paid for, and keeps the area's numbers in order.
pub fn say(
    work: &mut [u8],
    round: Round,
    p: Progress,
    d: Def,
    m: Member,
    kind: u32,
    detail: u32,
) -> Progress
    requires { Safe round (length work.old) p }
    ensures { Posts.Notes round (length work.old) p work.old (remark_on d m kind detail) result work.new }
{
    let r = Remark {
        kind,
        structure: d.name,
        member: m.name,
        detail,
    };
    note(work, round, p, r)
}

// The structure at a place, under a name.
pub fn def_at(schema: &[u8], name: u32, place: usize) -> Def
    ensures { result ≡ defined_at schema.now name place }
{
    let head = read_head(schema, place);
    Def {
        name,
        place,
        size: head.size,
        count: head.count,
    }
}

// The structure that a name stands for.
pub fn look_up(schema: &[u8], name: u32) -> Option<Def>
    ensures value { result ≡ looked_up schema.now name }
    ensures name_value { (S : Schema) → schema_of schema.now ≡ ok S → (winning S).struct name ≡ looked_is schema.now result }
{
    let place = find(schema, Kind::Structure, name)?;
    Some(def_at(schema, name, place))
}
