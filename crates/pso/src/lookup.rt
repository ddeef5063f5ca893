// The definitions of a file, by name: the first of a name counts.
ghost use Rattle.std.specs.Prelude.{◌≡◌, ◌+◌, option_map};
ghost use Rattle.numbers.specs.Words.{read_at};
ghost use Rattle.numbers.specs.Result.{ok};
ghost use Rattle.schema.specs.Defs.{leading};
ghost use Rattle.schema.specs.Index.{section_places, first_of, first_place};
ghost use Rattle.schema.specs.Steps.{kind_number};
ghost use Rattle.pso.specs.Reader.{Pso, parse_pso};
ghost use Rattle.pso.specs.Answers.{definition_at, struct_defined, enum_defined};

use definitions::lookup::{index_count, place_at};
use definitions::members::{entry_count, read_head};
use schema::cursor::{Cursor, Section};
use schema::kind::Kind;

// The first definition of a kind and a name in a section, by its place in the file; another section than PSCH has none.
// The `last_in` of definitions walks from the end: one function with a direction would be no plainer.
fn first_in(section: Section, kind: Kind, name: u32) -> Option<usize>
    ensures { let P = section.entry.bytes.now in result ≡ option_map (section.entry.place +◌) (first_of (section_places (read_at 4 P 0) P (kind_number kind) name)) }
{
    if !section.is(b"PSCH") {
        return None;
    }
    (0..index_count(section.bytes))
        .find_map(|i| place_at(section.bytes, 12 + 8 * i, kind, name))
        .map(|place| section.place + place)
}

// The first definition of a kind and a name in a file.
fn first(file: &[u8], kind: Kind, name: u32) -> Option<usize>
    ensures { result ≡ first_place file.now (kind_number kind) name }
{
    let mut cursor = Cursor::new(file);
    while let Some((section, next)) = cursor.step().unwrap_or(None) {
        if let Some(place) = first_in(section, kind, name) {
            return Some(place);
        }
        cursor = next;
    }
    None
}

// A definition's numbers and its place in the file. An enum has neither unknown byte nor size: they are 0.
#[derive(Clone, Copy)]
pub struct Definition {
    pub unknown: u8,
    pub size: u32,
    pub count: u32,
    pub at: usize,
}

// The definition of a kind that a name stands for in a file.
pub fn find_definition(file: &[u8], kind: Kind, name: u32) -> Option<Definition>
    ensures value { result ≡ definition_at file.now kind (first_place file.now (kind_number kind) name) }
    ensures structure_value { kind ≡ Kind.Structure → (p : Pso) → parse_pso file.now ≡ ok p → (leading p.schema).struct name ≡ struct_defined file.now name result }
    ensures enum_value { kind ≡ Kind.Enum → (p : Pso) → parse_pso file.now ≡ ok p → (leading p.schema).enum name ≡ enum_defined file.now name result }
{
    let at = first(file, kind, name)?;
    Some(match kind {
        Kind::Structure => {
            let head = read_head(file, at);
            Definition {
                unknown: head.unknown,
                size: head.size,
                count: u32::from(head.count),
                at,
            }
        }
        Kind::Enum => Definition {
            unknown: 0,
            size: 0,
            count: entry_count(file, at),
            at,
        },
    })
}
