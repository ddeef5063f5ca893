// The leaves for a caller in Rust or C, for comparisons by running: each has its leaf's contract, and takes any input.
#![tactic(auto)]

ghost use Rattle.std.specs.Prelude.{◌≡◌, ◌^◌, pos, ◌-ℤ◌, ◌*ℤ◌, length};
ghost use Rattle.conversions.specs.Single.{value};
ghost use Rattle.conversions.specs.Round.{Rounded, f32_of};
ghost use Rattle.conversions.specs.Trunc.{i64_of};
ghost use Rattle.conversions.specs.Radix.{unsigned};
ghost use Rattle.hash.specs.Joaat.{joaat};
ghost use Rattle.value.specs.Rows.{row};
ghost use Rattle.texts.specs.Text.{trimmed};
ghost use Rattle.texts.specs.Float.{parses_float};
ghost use Rattle.coerce.specs.Numbers.{int_of, float_of, vec_of};
ghost use Rattle.names.specs.Names.{hash_of};
ghost use Rattle.leaves.specs.Codes;

use coerce::misfit::Misfit;
use coerce::vector::vec_of;
use coerce::whole::{float_of, has_str, int_of, str_of};
use conversions::parse::{hex_u32_of, i64_of, u64_of};
use conversions::single::{f32_of_i64, f32_rest, i64_of_f32};
use hash::rage_joaat;
use names::entries::Entries;
use names::enums::enum_value;
use names::flags::flags_bits;
use names::hashes::hash_of;
use numbers::words::copy;
use texts::float::parses_float;
use texts::text::trim;
use value::read_row;

// An answer's record has a code and a value. An exported function cannot have a generic record, so each value's type has its own.
#[repr(C)]
#[derive(Clone, Copy)]
pub struct Unsigned {
    pub code: u32,
    pub value: u64,
}

#[repr(C)]
#[derive(Clone, Copy)]
pub struct Signed {
    pub code: u32,
    pub value: i64,
}

#[repr(C)]
#[derive(Clone, Copy)]
pub struct Small {
    pub code: u32,
    pub value: u32,
}

#[repr(C)]
#[derive(Clone, Copy)]
pub struct Four {
    pub code: u32,
    pub a: u32,
    pub b: u32,
    pub c: u32,
    pub d: u32,
}

// 0 where there is a value, 1 where there is none, and 11 at a float's text that is no decimal.
fn code_of<T>(answer: &Result<T, Misfit>) -> u32
    ensures { result ≡ Codes.code_of answer.now }
{
    match answer {
        Ok(_) => 0,
        Err(Misfit::Unfit) => 1,
        Err(Misfit::FloatText) => 11,
    }
}

impl From<Result<u64, Misfit>> for Unsigned {
    ghost from_gives = { λ answer r. r ≡ Codes.unsigned_of answer };

    fn from(answer: Result<u64, Misfit>) -> Self {
        Self {
            code: code_of(&answer),
            value: answer.unwrap_or(0),
        }
    }
}

impl From<Result<i64, Misfit>> for Signed {
    ghost from_gives = { λ answer r. r ≡ Codes.signed_of answer };

    fn from(answer: Result<i64, Misfit>) -> Self {
        Self {
            code: code_of(&answer),
            value: answer.unwrap_or(0),
        }
    }
}

impl From<Result<u32, Misfit>> for Small {
    ghost from_gives = { λ answer r. r ≡ Codes.small_of answer };

    fn from(answer: Result<u32, Misfit>) -> Self {
        Self {
            code: code_of(&answer),
            value: answer.unwrap_or(0),
        }
    }
}

impl From<Result<[u32; 4], Misfit>> for Four {
    ghost from_gives = { λ answer r. r ≡ Codes.four_of answer };

    fn from(answer: Result<[u32; 4], Misfit>) -> Self {
        let [a, b, c, d] = answer.unwrap_or([0; 4]);
        Self {
            code: code_of(&answer),
            a,
            b,
            c,
            d,
        }
    }
}

// Puts t at the front of `out` where it fits, and gives its length.
fn put_front(out: &mut [u8], t: &[u8]) -> usize
    ensures { (result ≡ length t.now) × (out.new ≡ Codes.fronted out.old t.now) }
{
    let n = t.len();
    if n <= out.len() {
        copy(out, 0, t);
    }
    n
}

#[unsafe(no_mangle)]
pub extern "C" fn leaf_joaat(s: &[u8]) -> u32
    ensures { result ≡ joaat s.now }
{
    rage_joaat(s)
}

#[unsafe(no_mangle)]
pub extern "C" fn leaf_f32_of_i64(x: i64) -> u32
    ensures { Rounded x result }
{
    f32_of_i64(x)
}

#[unsafe(no_mangle)]
pub extern "C" fn leaf_f32_rest(x: i64) -> i64
    ensures { x *ℤ pos (2 ^ 149) -ℤ value (f32_of x) ≡ result *ℤ pos (2 ^ 149) }
{
    f32_rest(x)
}

#[unsafe(no_mangle)]
pub extern "C" fn leaf_i64_of_f32(b: u32) -> i64
    ensures { result ≡ i64_of b }
{
    i64_of_f32(b)
}

// A radix below 2 or above 36 gives code 1.
#[unsafe(no_mangle)]
pub extern "C" fn leaf_i64_of(s: &[u8], radix: u64) -> Signed
    ensures { result ≡ Codes.signed_of (Codes.there (Codes.signed_in radix s.now)) }
{
    let read = if (2..=36).contains(&radix) {
        i64_of(s, radix)
    } else {
        None
    };
    read.ok_or(Misfit::Unfit).into()
}

// A radix below 2 or above 36 gives code 1. Two functions, as C has no generic ones.
#[unsafe(no_mangle)]
pub extern "C" fn leaf_u64_of(s: &[u8], radix: u64) -> Unsigned
    ensures { result ≡ Codes.unsigned_of (Codes.there (Codes.unsigned_in radix s.now)) }
{
    let read = if (2..=36).contains(&radix) {
        u64_of(s, radix)
    } else {
        None
    };
    read.ok_or(Misfit::Unfit).into()
}

#[unsafe(no_mangle)]
pub extern "C" fn leaf_hex_u32_of(s: &[u8]) -> Small
    ensures { result ≡ Codes.small_of (Codes.there (unsigned 32 16 s.now)) }
{
    hex_u32_of(s).ok_or(Misfit::Unfit).into()
}

#[unsafe(no_mangle)]
pub extern "C" fn leaf_parses_float(s: &[u8]) -> bool
    ensures { result ≡ parses_float s.now }
{
    parses_float(s)
}

// The trimmed text at the front of `out` where it fits, and its length.
#[unsafe(no_mangle)]
pub extern "C" fn leaf_trim(s: &[u8], out: &mut [u8]) -> usize
    ensures { (result ≡ length (trimmed s.now)) × (out.new ≡ Codes.fronted out.old (trimmed s.now)) }
{
    put_front(out, trim(s))
}

#[unsafe(no_mangle)]
pub extern "C" fn leaf_int_of(sheet: &[u8], r: usize) -> Unsigned
    ensures { result ≡ Codes.unsigned_of (int_of sheet.now (row sheet.now r)) }
{
    int_of(sheet, read_row(sheet, r)).into()
}

#[unsafe(no_mangle)]
pub extern "C" fn leaf_float_of(sheet: &[u8], r: usize) -> Small
    ensures { result ≡ Codes.small_of (float_of sheet.now (row sheet.now r)) }
{
    float_of(sheet, read_row(sheet, r)).into()
}

#[unsafe(no_mangle)]
pub extern "C" fn leaf_vec_of(sheet: &[u8], r: usize, n: usize) -> Four
    ensures { result ≡ Codes.four_of (vec_of sheet.now n (row sheet.now r)) }
{
    vec_of(sheet, read_row(sheet, r), n).into()
}

#[unsafe(no_mangle)]
pub extern "C" fn leaf_has_str(sheet: &[u8], r: usize) -> bool
    ensures { result ≡ Codes.has_str sheet.now (row sheet.now r) }
{
    has_str(read_row(sheet, r))
}

// A row's text at the front of `out` where it fits, and its length.
#[unsafe(no_mangle)]
pub extern "C" fn leaf_str_of(sheet: &[u8], r: usize, out: &mut [u8]) -> usize
    ensures { (result ≡ length (Codes.str_here sheet.now r)) × (out.new ≡ Codes.fronted out.old (Codes.str_here sheet.now r)) }
{
    put_front(out, str_of(sheet, read_row(sheet, r)))
}

#[unsafe(no_mangle)]
pub extern "C" fn leaf_hash_of(sheet: &[u8], r: usize) -> Small
    ensures { result ≡ Codes.small_of (Codes.there (hash_of sheet.now (row sheet.now r))) }
{
    hash_of(sheet, read_row(sheet, r))
        .ok_or(Misfit::Unfit)
        .into()
}

// The `count` entries at `at` of the schema. A place of 2^63 or more, or a count of 2^24 or more, does not fit.
fn entries_in(schema: &[u8], at: usize, count: usize) -> Result<Entries<'_>, Misfit>
    ensures { Codes.AreEntries schema.now at count result }
{
    if at < 0x8000_0000_0000_0000 && count < 0x100_0000 {
        return Ok(Entries { schema, at, count });
    }
    Err(Misfit::Unfit)
}

// The n entries stand at `at` of the schema. A place of 2^63 or more, or a count of 2^24 or more, gives code 1.
#[unsafe(no_mangle)]
pub extern "C" fn leaf_enum_value(
    sheet: &[u8],
    schema: &[u8],
    at: usize,
    n: usize,
    r: usize,
) -> Small
    ensures { result ≡ Codes.small_of (Codes.enum_in sheet.now schema.now n at r) }
{
    entries_in(schema, at, n)
        .and_then(|entries| enum_value(sheet, entries, read_row(sheet, r)))
        .into()
}

// The n entries stand at `at` of the schema. A place of 2^63 or more, or a count of 2^24 or more, gives code 1. Two functions of
// one shape, as each is an exported name of C, which has no generic functions.
#[unsafe(no_mangle)]
pub extern "C" fn leaf_flags_bits(
    sheet: &[u8],
    schema: &[u8],
    at: usize,
    n: usize,
    r: usize,
) -> Small
    ensures { result ≡ Codes.small_of (Codes.flags_in sheet.now schema.now n at r) }
{
    entries_in(schema, at, n)
        .and_then(|entries| flags_bits(sheet, entries, 64, read_row(sheet, r)))
        .into()
}
