// PSCH: the used definitions, copied from the schema file.
#![tactic(auto)]

ghost use Rattle.std.specs.Prelude.{◌≡◌, [], ◌∷◌, ◌+◌, ◌*◌, ◌/◌, ◌^◌, ◌≤◌, ◌<◌, length};
ghost use Rattle.numbers.specs.Words.{words, over};
ghost use Rattle.numbers.specs.Result.{Every};
ghost use Rattle.layout.specs.Assemble.{index_of, psch_bytes, bodies};
ghost use Rattle.psch.specs.Used.{definition_at, body_of, definitions_of, size_of, counted_from, used_records, names_of, Names, Lies, Stored, AllStored, Counts};

use area::{Area, NAMES, write_words};
use definitions::lookup::find;
use definitions::members::{entry_count, read_head};
use numbers::words::{read, write, write_u32};
use schema::kind::Kind;
use section::{copy_part, head};

pub mod section;

// How many bytes the definition at a place has.
#[tactic(auto, using(crate::proofs::Bodies::enum_size_law, crate::proofs::Bodies::struct_size))]
fn definition_length(schema: &[u8], kind: Kind, place: usize) -> usize
    ensures { (result ≡ length (definition_at schema.now kind place)) × (result < 2 ^ 28) }
{
    match kind {
        Kind::Structure => {
            let head = read_head(schema, place);
            12 + 12 * (head.count as usize)
        }
        Kind::Enum => 4 + 8 * (entry_count(schema, place) as usize),
    }
}

// How many bytes a name's definition has.
fn body_length(schema: &[u8], kind: Kind, name: u32) -> usize
    ensures { (result ≡ length (body_of schema.now kind name)) × (result < 2 ^ 28) }
{
    match find(schema, kind, name) {
        Some(place) => definition_length(schema, kind, place),
        None => 0,
    }
}

// The used definitions of a kind: their names, 4 bytes each, as they stand in the work area.
#[derive(Clone, Copy)]
pub struct Used<'a> {
    pub kind: Kind,
    pub names: &'a [u8],
}

// The definition at a place, of `len` bytes: its members begin 12 bytes behind its start, where 4 are zero.
#[tactic(auto, using(crate::proofs::Bodies::struct_size))]
fn put_definition(schema: &[u8], kind: Kind, place: usize, len: usize, out: &mut [u8], to: usize)
    requires lies { Lies schema.now kind place }
    requires len_value { (len ≡ length (definition_at schema.now kind place)) × (to + len ≤ length out.old) }
    ensures { out.new ≡ over out.old to (definition_at schema.now kind place) }
{
    match kind {
        Kind::Structure => {
            copy_part(schema, place, 8, out, to);
            write(out, to + 8, 4, 0);
            copy_part(schema, place + 12, len - 12, out, to + 12);
        }
        Kind::Enum => copy_part(schema, place, len, out, to),
    }
}

// A name's index entry at `index` and its definition at `to`; where the definition ends.
#[tactic(auto, using(crate::proofs::Bodies::body_at, crate::proofs::Bodies::stored_lies, crate::proofs::Bodies::stored_found))]
fn put_record(
    schema: &[u8],
    kind: Kind,
    name: u32,
    out: &mut [u8],
    index: usize,
    to: usize,
) -> usize
    requires stored { Stored schema.now kind name }
    requires index_bound { (index + 8 ≤ to) × (to + length (body_of schema.now kind name) ≤ length out.old) × (to < 2 ^ 32) }
    ensures { (result ≡ to + length (body_of schema.now kind name))
        × (out.new ≡ over (over out.old index (words (name ∷ to ∷ []))) to (body_of schema.now kind name)) }
{
    match find(schema, kind, name) {
        Some(place) => {
            let len = definition_length(schema, kind, place);
            write_words(out, index, &[name, to as u32]);
            put_definition(schema, kind, place, len, out, to);
            to + len
        }
        None => to,
    }
}

impl<'a> Used<'a> {
    // The used definitions of a kind.
    #[tactic(auto, using(crate::proofs::Listing::part_named))]
    pub fn of(area: &'a Area<'_>, kind: Kind) -> Used<'a>
        ensures kind { result.kind ≡ kind }
        ensures names { Names kind area.now.round area.now.progress area.now.bytes.now result.names.now }
    {
        let (at, count) = match kind {
            Kind::Structure => (NAMES, area.progress.structs),
            Kind::Enum => (NAMES + 4 * area.round.entries, area.progress.enums),
        };
        Used {
            kind,
            names: &area.bytes[at..at + 4 * count],
        }
    }

    // What the definitions take in PSCH, added to `from`; no further than to 16,777,216.
    #[tactic(auto, using(crate::proofs::Listing::long_counts, crate::proofs::Listing::long_same))]
    pub fn length(&self, schema: &[u8], from: usize) -> usize
        requires { from < 2 ^ 48 }
        ensures { Counts result (from + size_of (definitions_of schema.now self.now)) × (result < 2 ^ 48)
            × (result ≡ counted_from schema.now self.now.kind from (names_of self.now.names.now)) }
    {
        let mut sum = from;
        for name in self.names.chunks_exact(4) {
            if 16777216 < sum {
                return sum;
            }
            sum += 8 + body_length(schema, self.kind, read::<u32>(name, 0));
        }
        sum
    }

    // The index entries from `index` on and the definitions from `to` on; where the last definition ends.
    #[tactic(auto, using(crate::proofs::Listing::put_begin))]
    fn put(&self, schema: &[u8], out: &mut [u8], index: usize, to: usize) -> usize
        requires room { index + 8 * (length self.now.names.now / 4) ≤ to }
        requires every { Every (Stored schema.now self.now.kind) (names_of self.now.names.now) }
        requires ends { (to + length (bodies (definitions_of schema.now self.now)) ≤ length out.old)
            × (to + length (bodies (definitions_of schema.now self.now)) < 2 ^ 32) }
        ensures { (result ≡ to + length (bodies (definitions_of schema.now self.now)))
            × (out.new ≡ over (over out.old index (index_of to (definitions_of schema.now self.now)))
            to (bodies (definitions_of schema.now self.now))) }
    {
        let mut at = to;
        for (k, name) in self.names.chunks_exact(4).enumerate() {
            let name = read::<u32>(name, 0);
            at = put_record(schema, self.kind, name, out, index + 8 * k, at);
        }
        at
    }
}

// PSCH, from the first byte of `out` on: the head is written last, when the size is known.
#[tactic(auto, using(crate::proofs::Schemas::used_size))]
pub fn put_schema(schema: &[u8], area: &Area<'_>, out: &mut [u8])
    requires all_stored { AllStored schema.now area.now.round area.now.progress area.now.bytes.now }
    requires size { (length (psch_bytes (used_records schema.now area.now.round area.now.progress area.now.bytes.now)) ≤ length out.old)
        × (length (psch_bytes (used_records schema.now area.now.round area.now.progress area.now.bytes.now)) < 256 ^ 4) }
    ensures { out.new ≡ over out.old 0 (psch_bytes (used_records schema.now area.now.round area.now.progress area.now.bytes.now)) }
{
    let structs = area.progress.structs;
    let n = structs + area.progress.enums;
    let to = 12 + 8 * n;
    let mid = Used::of(area, Kind::Structure).put(schema, out, 12, to);
    let end = Used::of(area, Kind::Enum).put(schema, out, 12 + 8 * structs, mid);
    head(out, 0, b"PSCH", end as u32);
    write_u32(out, 8, n as u32);
}
