// A structure's definition, and what a reference and an enum's place stand for.
ghost use Rattle.std.specs.Prelude.{◌≡◌, ◌+◌, ◌*◌, ◌<◌, length};
ghost use Rattle.schema.specs.Psch.{member_at};
ghost use Rattle.definitions.specs.Answers.{member_is};
ghost use Rattle.layout.specs.Members;
ghost use Rattle.cells.specs.Names.{def_of, EntriesOf, Named};

use definitions::lookup::find;
use definitions::members::{Member, entry_count, read_member};
use names::entries::Entries;
use schema::kind::Kind;

// A structure's definition: its name, its place in the schema file, its size and how many members it has. Functions take the schema file
// beside it: it is one for all definitions, and held here, contracts would have to say that it is the one of `Writer`.
#[derive(Clone, Copy)]
pub struct Def {
    pub name: u32,
    pub place: usize,
    pub size: u32,
    pub count: u16,
}

impl Def {
    // Its member k.
    pub fn member(self, schema: &[u8], k: u32) -> Member
        ensures { result ≡ member_is (member_at schema.now (self.place + 12 + 12 * k)) }
    {
        read_member(schema, self.place, k)
    }

    // The reference of its member i; 0 where there is none.
    pub fn reference_at(self, schema: &[u8], i: u32) -> u32
        ensures { result ≡ Members.reference_at (def_of schema.now self) i }
    {
        if u32::from(self.count) <= i {
            return 0;
        }
        self.member(schema, i).reference
    }
}

// The high half of a reference.
pub fn high_half(x: u32) -> u32
    ensures { (result ≡ Members.high16 x) × (result < 65536) }
{
    x / 65536
}

// The entries of the enum at a place; none at the file's end.
pub fn entries_of(schema: &[u8], place: usize) -> Entries<'_>
    requires { place < length schema.now }
    ensures { EntriesOf schema.now place result }
{
    Entries {
        schema,
        at: (place + 4).min(schema.len()),
        count: entry_count(schema, place) as usize,
    }
}

// The entries of the enum h, and its name where it is there: no entries where it is not.
pub fn named(schema: &[u8], h: u32) -> (Entries<'_>, Option<u32>)
    ensures { Named schema.now h result.0 result.1 }
{
    match find(schema, Kind::Enum, h) {
        Some(place) => (entries_of(schema, place), Some(h)),
        None => (Entries::empty(schema), None),
    }
}
