// Look-up by name: of the definitions of a kind and a name, the one that counts when building is the last.
ghost use Rattle.std.specs.Prelude.{◌≡◌, ◌+◌, ◌≤◌, length, option_map};
ghost use Rattle.numbers.specs.Words.{read_at};
ghost use Rattle.numbers.specs.Result.{ok, given};
ghost use Rattle.schema.specs.Defs.{Schema, winning};
ghost use Rattle.schema.specs.Psch.{schema_of};
ghost use Rattle.schema.specs.Index.{index_count, leads_to, section_places, last_of, last_place};
ghost use Rattle.schema.specs.Steps.{kind_number};
ghost use Rattle.definitions.specs.Answers.{struct_found, enum_found};

use numbers::words::{left, read};
use schema::cursor::{Cursor, Section};
use schema::kind::Kind;

// How many entries of the index of a PSCH section lie in it.
pub fn index_count(p: &[u8]) -> usize
    ensures { result ≡ index_count p.now }
{
    (read::<u32>(p, 8) as usize).min(left(p, 12) / 8)
}

// The place in a PSCH section that the index entry at `at` leads to, if it has the name and a definition of the kind stands there.
#[tactic(auto, using(crate::proofs::Fields::entry_name, crate::proofs::Fields::entry_place))]
pub fn place_at(p: &[u8], at: usize, kind: Kind, name: u32) -> Option<usize>
    requires { at + 8 ≤ length p.now }
    ensures { result ≡ given (leads_to p.now (kind_number kind) name at) (read_at 4 p.now (at + 4)) }
{
    // Read in the entry's own eight bytes: of a slice of this length no field's end is tested.
    let entry = &p[at..at + 8];
    if read::<u32>(entry, 0) != name {
        return None;
    }
    let place = read::<u32>(entry, 4) as usize;
    if place < p.len() && read::<u8>(p, place) == kind as u8 {
        Some(place)
    } else {
        None
    }
}

// The last definition of a kind and a name in a section, by its place in the file; another section than PSCH has none.
// pso's `first_in` walks from the front: one function with a direction would be no plainer.
fn last_in(section: Section, kind: Kind, name: u32) -> Option<usize>
    ensures { let P = section.entry.bytes.now in result ≡ option_map (section.entry.place +◌) (last_of (section_places (read_at 4 P 0) P (kind_number kind) name)) }
{
    if !section.is(b"PSCH") {
        return None;
    }
    (0..index_count(section.bytes))
        .rev()
        .find_map(|i| place_at(section.bytes, 12 + 8 * i, kind, name))
        .map(|place| section.place + place)
}

// The place in the file of the definition of a kind that a name stands for when building. File, kind and name stand side by side, here and in
// pso: a struct of what is looked for would be made for one call.
pub fn find(file: &[u8], kind: Kind, name: u32) -> Option<usize>
    ensures result_value { result ≡ last_place file.now (kind_number kind) name }
    ensures structure_value { kind ≡ Kind.Structure → (S : Schema) → schema_of file.now ≡ ok S → (winning S).struct name ≡ struct_found file.now name result }
    ensures enum_value { kind ≡ Kind.Enum → (S : Schema) → schema_of file.now ≡ ok S → (winning S).enum name ≡ enum_found file.now name result }
{
    let mut cursor = Cursor::new(file);
    let mut found = None;
    while let Some((section, next)) = cursor.step().unwrap_or(None) {
        found = last_in(section, kind, name).or(found);
        cursor = next;
    }
    found
}
