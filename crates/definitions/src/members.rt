// What stands at a definition's place: its numbers, its members or entries. Where the file ends before, they are 0.
ghost use Rattle.std.specs.Prelude.{◌≡◌, ◌+◌, ◌*◌, ◌^◌, ◌<◌, take};
ghost use Rattle.std.specs.Fn.{FnReturnsAt};
ghost use Rattle.numbers.specs.Words.{read_at};
ghost use Rattle.schema.specs.Psch.{member_at};
ghost use Rattle.definitions.specs.Answers.{head_here, member_is, entry_here};

use numbers::words::{part_from, read, read_number};

// `parse` of the first `len` bytes that stand here, or of all, where there are fewer. A slice that has `len` bytes is tested
// once, and `parse` then reads each of its fields without a test.
#[inline]
fn parsed<T, F: Fn(&[u8]) -> T>(here: &[u8], len: usize, parse: F) -> T
    requires { F.IsAlwaysCallable parse }
    ensures { FnReturnsAt F.Fn parse (take len here.now) result }
{
    if here.len() < len {
        return parse(here);
    }
    parse(&here[..len])
}

// A structure's numbers besides its members.
#[derive(Clone, Copy)]
pub struct Head {
    pub unknown: u8,
    pub count: u16,
    pub size: u32,
}

// The numbers of the structure that starts these bytes.
#[inline]
fn head_of(bytes: &[u8]) -> Head
    ensures { result ≡ head_here bytes.now 0 }
{
    Head {
        unknown: read::<u8>(bytes, 1),
        count: read::<u16>(bytes, 2),
        size: read::<u32>(bytes, 4),
    }
}

// The numbers of the structure at a place.
#[tactic(auto, using(crate::proofs::Fields::head_is))]
pub fn read_head(file: &[u8], place: usize) -> Head
    ensures { result ≡ head_here file.now place }
{
    parsed(part_from(file, place), 8, head_of)
}

// The name of a member that describes an array's elements and is never written.
pub const ARRAYINFO: u32 = 0x100;

#[derive(Clone, Copy)]
pub struct Member {
    pub name: u32,
    pub kind: u8,
    pub subtype: u8,
    pub offset: u16,
    pub reference: u32,
}

// The member that starts these bytes.
#[inline]
#[tactic(auto, unfolding(schema::specs::Psch::member_at))]
fn member_of(bytes: &[u8]) -> Member
    ensures { result ≡ member_is (member_at bytes.now 0) }
{
    Member {
        name: read::<u32>(bytes, 0),
        kind: read::<u8>(bytes, 4),
        subtype: read::<u8>(bytes, 5),
        offset: read::<u16>(bytes, 6),
        reference: read::<u32>(bytes, 8),
    }
}

// The member k of the structure at a place.
pub fn read_member(file: &[u8], place: usize, k: u32) -> Member
    ensures { result ≡ member_is (member_at file.now (place + 12 + 12 * k)) }
{
    let at = place.saturating_add(12 + 12 * (k as usize));
    parsed(part_from(file, at), 12, member_of)
}

// How many entries the enum at a place has.
pub fn entry_count(file: &[u8], place: usize) -> u32
    ensures { (result ≡ read_at 3 file.now (place + 1)) × (result < 2 ^ 24) }
{
    read_number(part_from(file, place), 1, 3) as u32
}

#[derive(Clone, Copy)]
pub struct Entry {
    pub name: u32,
    pub value: u32,
}

// The entry k of the enum at a place.
pub fn read_entry(file: &[u8], place: usize, k: u32) -> Entry
    ensures { result ≡ entry_here file.now (place + 4 + 8 * k) }
{
    let here = part_from(file, place.saturating_add(4 + 8 * (k as usize)));
    Entry {
        name: read::<u32>(here, 0),
        value: read::<u32>(here, 4),
    }
}
