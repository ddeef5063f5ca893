// The functions of `sandvurek` for C and Rust: each calls the library's, and states its clauses again. The eight are of one
// shape, since each is an exported name of C. A slice passes as pointer, then length; every call takes any bytes.
#![tactic(auto)]

ghost use Rattle.std.specs.Prelude.{◌≡◌, false, length};
ghost use Rattle.numbers.specs.Result.{ok};
ghost use Rattle.schema.specs.Defs.{leading};
ghost use Rattle.pso.specs.Reader.{Pso, parse_pso};
ghost use Rattle.pso.specs.Blocks.{numbered};
ghost use Rattle.layout.specs.Build.{build_pso};
ghost use Rattle.sandvurek.specs.Exports.{is_set, BuildIs, reading_of, block_is, block_of, structure_of, enum_of, member_of, entry_of, StructIs, EnumIs};

use layout::Remark;
use sandvurek::{Block, Definition, Entry, Member, Outcome, Reading};

// Builds a pack from a sheet and a schema file. The file goes to the front of the output, the remarks to the front of their list.
#[unsafe(no_mangle)]
pub extern "C" fn sandvurek_build(
    sheet: &[u8],
    schema: &[u8],
    work: &mut [u8],
    out: &mut [u8],
    remarks: &mut [Remark],
) -> Outcome
    ensures { BuildIs (build_pso false sheet.now schema.now (length work.old) out.old (length remarks.old))
        result out.new remarks.new work.new }
{
    sandvurek::sandvurek_build(sheet, schema, work, out, remarks)
}

// The same in one of two ways: with `root_alone` other than 0 the root gets a new last block, whatever room others have.
#[unsafe(no_mangle)]
pub extern "C" fn sandvurek_build_with(
    root_alone: u32,
    sheet: &[u8],
    schema: &[u8],
    work: &mut [u8],
    out: &mut [u8],
    remarks: &mut [Remark],
) -> Outcome
    ensures { BuildIs (build_pso (is_set root_alone) sheet.now schema.now (length work.old) out.old (length remarks.old))
        result out.new remarks.new work.new }
{
    sandvurek::sandvurek_build_with(root_alone, sheet, schema, work, out, remarks)
}

// Reads a file.
#[unsafe(no_mangle)]
pub extern "C" fn sandvurek_read(file: &[u8]) -> Reading
    ensures { result ≡ reading_of file.now }
{
    sandvurek::sandvurek_read(file)
}

// The block of a number, from 1.
#[unsafe(no_mangle)]
pub extern "C" fn sandvurek_block(file: &[u8], number: usize) -> Block
    ensures value { result ≡ block_of file.now number }
    ensures value_2 { (p : Pso) → parse_pso file.now ≡ ok p → result ≡ block_is (numbered p.blocks number) }
{
    sandvurek::sandvurek_block(file, number)
}

// The structure of a name; the first counts.
#[unsafe(no_mangle)]
pub extern "C" fn sandvurek_structure(file: &[u8], name: u32) -> Definition
    ensures value { result ≡ structure_of file.now name }
    ensures struct_is { (p : Pso) → parse_pso file.now ≡ ok p → StructIs file.now result ((leading p.schema).struct name) }
{
    sandvurek::sandvurek_structure(file, name)
}

// The enum of a name; the first counts.
#[unsafe(no_mangle)]
pub extern "C" fn sandvurek_enum(file: &[u8], name: u32) -> Definition
    ensures value { result ≡ enum_of file.now name }
    ensures enum_is { (p : Pso) → parse_pso file.now ≡ ok p → EnumIs file.now result ((leading p.schema).enum name) }
{
    sandvurek::sandvurek_enum(file, name)
}

// The member of a number, from 0, of the structure at a place of the file.
#[unsafe(no_mangle)]
pub extern "C" fn sandvurek_member(file: &[u8], at: usize, index: u32) -> Member
    ensures { result ≡ member_of file.now at index }
{
    sandvurek::sandvurek_member(file, at, index)
}

// The entry of a number, from 0, of the enum at a place of the file.
#[unsafe(no_mangle)]
pub extern "C" fn sandvurek_entry(file: &[u8], at: usize, index: u32) -> Entry
    ensures { result ≡ entry_of file.now at index }
{
    sandvurek::sandvurek_entry(file, at, index)
}
