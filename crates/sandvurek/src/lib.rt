// The library's functions for C and Rust. A slice passes as pointer, then length; every call takes any bytes.
#![tactic(auto)]

ghost use Rattle.std.specs.Prelude.{◌≡◌, false, length};
ghost use Rattle.numbers.specs.Refusal as refusals;
ghost use Rattle.numbers.specs.Result.{ok};
ghost use Rattle.schema.specs.Defs.{leading};
ghost use Rattle.pso.specs.Reader.{Pso, parse_pso};
ghost use Rattle.pso.specs.Blocks.{numbered};
ghost use Rattle.layout.specs.Build.{build_pso};
ghost use Rattle.turns.specs.Answers.{answer_of};
ghost use Rattle.sandvurek.specs.Exports.{is_set, outcome_is, BuildIs, reading_shows, reading_of, block_shows, block_is, block_of, definition_is, structure_of, enum_of, member_shows, member_of, entry_is, entry_of, StructIs, EnumIs};

use definitions::members::{self, read_entry, read_member};
use layout::Remark;
use numbers::refusal::Refusal;
use pso::blocks::{Row, block};
use pso::lookup::{Definition as Found, find_definition};
use pso::parse::{Pso as Parsed, parse_pso};
use pso_write::build_pso;
use schema::kind::Kind;
use turns::Built;

// A caller in C has neither Result nor Option: in all records here a number says which case it is, and what is not there is 0.

// What building gives: code 0, the file's length and the number of remarks; or the refusal's number, and zeros.
#[repr(C)]
#[derive(Clone, Copy, Default)]
pub struct Outcome {
    pub code: u32,
    pub length: usize,
    pub remarks: usize,
}

impl From<Result<Built, Refusal>> for Outcome {
    ghost from_gives = { λ answer r. r ≡ outcome_is (answer_of answer) };

    fn from(answer: Result<Built, Refusal>) -> Self {
        match answer {
            Ok(Built { length, remarks }) => Self {
                code: 0,
                length,
                remarks,
            },
            Err(reason) => Self {
                code: reason.into(),
                ..Self::default()
            },
        }
    }
}

// Builds a pack from a sheet and a schema file. The file goes to the front of the output, the remarks to the front of their list.
// Five slices, as a caller in C lends them.
#[unsafe(no_mangle)]
pub extern "C" fn sandvurek_build(
    sheet: &[u8],
    schema: &[u8],
    work: &mut [u8],
    out: &mut [u8],
    remarks: &mut [Remark],
) -> Outcome
    ensures { BuildIs (build_pso false sheet.now schema.now (length work.old) out.old (length remarks.old))
        result out.new remarks.new work.new }
{
    build_pso(false, sheet, schema, work, out, remarks).into()
}

// The same in one of two ways: with `root_alone` other than 0 the root gets a new last block, whatever room others have.
#[unsafe(no_mangle)]
pub extern "C" fn sandvurek_build_with(
    root_alone: u32,
    sheet: &[u8],
    schema: &[u8],
    work: &mut [u8],
    out: &mut [u8],
    remarks: &mut [Remark],
) -> Outcome
    ensures { BuildIs (build_pso (is_set root_alone) sheet.now schema.now (length work.old) out.old (length remarks.old))
        result out.new remarks.new work.new }
{
    build_pso(root_alone != 0, sheet, schema, work, out, remarks).into()
}

// What the reader gives: code 0, the root's block number, where the data section stands in the file and its length, the
// number of blocks; or the refusal's number, and zeros.
#[repr(C)]
#[derive(Clone, Copy, Default)]
pub struct Reading {
    pub code: u32,
    pub root: u32,
    pub data_at: usize,
    pub data_length: usize,
    pub blocks: usize,
}

impl From<Result<Parsed, Refusal>> for Reading {
    ghost from_gives = { λ answer r. r ≡ reading_shows (refusals.answer_of answer) };

    fn from(answer: Result<Parsed, Refusal>) -> Self {
        match answer {
            Ok(pso) => Self {
                code: 0,
                root: pso.root,
                data_at: pso.place,
                data_length: pso.len,
                blocks: pso.blocks,
            },
            Err(refusal) => Self {
                code: refusal.into(),
                ..Self::default()
            },
        }
    }
}

// Reads a file.
#[unsafe(no_mangle)]
pub extern "C" fn sandvurek_read(file: &[u8]) -> Reading
    ensures { result ≡ reading_of file.now }
{
    parse_pso(file).into()
}

// A block: found 1, its name, its place in the data section and its length; or zeros.
#[repr(C)]
#[derive(Clone, Copy, Default)]
pub struct Block {
    pub found: u32,
    pub name: u32,
    pub place: u32,
    pub length: u32,
}

impl From<Option<Row>> for Block {
    ghost from_gives = { λ row r. r ≡ block_shows row };

    fn from(row: Option<Row>) -> Self {
        match row {
            Some(row) => Self {
                found: 1,
                name: row.name,
                place: row.place,
                length: row.len,
            },
            None => Self::default(),
        }
    }
}

// The block of a number, from 1.
#[unsafe(no_mangle)]
pub extern "C" fn sandvurek_block(file: &[u8], number: usize) -> Block
    ensures value { result ≡ block_of file.now number }
    ensures value_2 { (p : Pso) → parse_pso file.now ≡ ok p → result ≡ block_is (numbered p.blocks number) }
{
    block(file, number).into()
}

// A definition: found 1, its unknown byte and size (0 for an enum), how many members or entries it has, its place in the
// file; or zeros.
#[repr(C)]
#[derive(Clone, Copy, Default)]
pub struct Definition {
    pub found: u32,
    pub unknown: u32,
    pub size: u32,
    pub count: u32,
    pub at: usize,
}

impl From<Option<Found>> for Definition {
    ghost from_gives = { λ found r. r ≡ definition_is found };

    fn from(found: Option<Found>) -> Self {
        match found {
            Some(d) => Self {
                found: 1,
                unknown: d.unknown.into(),
                size: d.size,
                count: d.count,
                at: d.at,
            },
            None => Self::default(),
        }
    }
}

// The structure of a name; the first counts.
#[unsafe(no_mangle)]
pub extern "C" fn sandvurek_structure(file: &[u8], name: u32) -> Definition
    ensures value { result ≡ structure_of file.now name }
    ensures struct_is { (p : Pso) → parse_pso file.now ≡ ok p → StructIs file.now result ((leading p.schema).struct name) }
{
    find_definition(file, Kind::Structure, name).into()
}

// The enum of a name; the first counts. Two functions of one shape, as each is an exported name of C.
#[unsafe(no_mangle)]
pub extern "C" fn sandvurek_enum(file: &[u8], name: u32) -> Definition
    ensures value { result ≡ enum_of file.now name }
    ensures enum_is { (p : Pso) → parse_pso file.now ≡ ok p → EnumIs file.now result ((leading p.schema).enum name) }
{
    find_definition(file, Kind::Enum, name).into()
}

// A member of a structure.
#[repr(C)]
#[derive(Clone, Copy)]
pub struct Member {
    pub name: u32,
    pub kind: u32,
    pub subtype: u32,
    pub offset: u32,
    pub reference: u32,
}

impl From<members::Member> for Member {
    ghost from_gives = { λ m r. r ≡ member_shows m };

    fn from(m: members::Member) -> Self {
        Self {
            name: m.name,
            kind: m.kind.into(),
            subtype: m.subtype.into(),
            offset: m.offset.into(),
            reference: m.reference,
        }
    }
}

// The member of a number, from 0, of the structure at a place of the file.
#[unsafe(no_mangle)]
pub extern "C" fn sandvurek_member(file: &[u8], at: usize, index: u32) -> Member
    ensures { result ≡ member_of file.now at index }
{
    read_member(file, at, index).into()
}

// An entry of an enum.
#[repr(C)]
#[derive(Clone, Copy)]
pub struct Entry {
    pub name: u32,
    pub value: u32,
}

impl From<members::Entry> for Entry {
    ghost from_gives = { λ e r. r ≡ entry_is e };

    fn from(e: members::Entry) -> Self {
        Self {
            name: e.name,
            value: e.value,
        }
    }
}

// The entry of a number, from 0, of the enum at a place of the file.
#[unsafe(no_mangle)]
pub extern "C" fn sandvurek_entry(file: &[u8], at: usize, index: u32) -> Entry
    ensures { result ≡ entry_of file.now at index }
{
    read_entry(file, at, index).into()
}
