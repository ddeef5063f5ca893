// Replays recorded answers: standard input has cases one after another (differential/src/record.rs says how they were made and
// how they lie), sheets and schemas with what `build_pso` gives and files with what `parse_pso` gives, as the reference has it, and
// for refusals outside its domain, and with the root alone, the model of differential/. A line for each says what came out, and
// whether it is the recorded one to the last byte: file, remarks, the rest of the lent areas.
#![tactic(auto)]

ghost use Rattle.std.specs.Prelude.{◌≡◌, ◌≤◌, ◌<◌, length, take, IfSome};
ghost use Rattle.layout.specs.Build.{build_pso};
ghost use Rattle.sandvurek.specs.Exports.{BuildIs};

use judge::{NOISE, agrees, is_reading};
use layout::Remark;
use numbers::words::{part_from, part_to, read};
use sandvurek::{Outcome, Reading, sandvurek_build, sandvurek_build_with, sandvurek_read};
use std::io;
use std::io::Read;

mod judge;

// The answer, and all records behind it.
#[derive(Clone, Copy)]
pub struct Kept {
    pub outcome: Outcome,
    pub list: [Remark; 64],
}

fn keep(outcome: Outcome, list: [Remark; 64]) -> Kept
    ensures { (result.outcome ≡ outcome) × (result.list ≡ list) }
{
    Kept { outcome, list }
}

// Builds with n of the records lent, with the root alone or not.
fn pack(
    alone: bool,
    sheet: &[u8],
    schema: &[u8],
    work: &mut [u8],
    out: &mut [u8],
    n: usize,
    mut list: [Remark; 64],
) -> Kept
    requires { n ≤ 64 }
    ensures { BuildIs (build_pso alone sheet.now schema.now (length work.old) out.old n)
        result.outcome out.new (take n result.list) work.new }
{
    let outcome = if alone {
        sandvurek_build_with(1, sheet, schema, work, out, &mut list[..n])
    } else {
        sandvurek_build(sheet, schema, work, out, &mut list[..n])
    };
    keep(outcome, list)
}

// Whether a case is the recorded one, as a word.
fn word(same: bool) -> &'static str {
    if same { "same" } else { "different" }
}

// A case for the packer. All areas are full of noise before.
fn build_case(
    rt: &impl Print,
    number: usize,
    row: &[u8],
    work: &mut [u8],
    out: &mut [u8],
) -> io::Result<()> {
    let a = read::<u32>(row, 8) as usize;
    let b = read::<u32>(row, 12) as usize;
    let n = read::<u32>(row, 24) as usize;
    if 64 < n {
        return print!(rt; "case {number}");
    }
    // A building is of kind 0, or of kind 2 with the root alone.
    let alone = read::<u32>(row, 4) == 2;
    let sheet = part_to(part_from(row, 40), a);
    let schema = part_to(part_from(row, 40 + a), b);
    work.fill(NOISE);
    out.fill(NOISE);
    let Kept { outcome, list } = pack(alone, sheet, schema, work, out, n, judge::noises());
    let word = word(agrees(row, work, out, n, outcome, list));
    let Outcome {
        code,
        length,
        remarks,
    } = outcome;
    let way = if alone { ", root alone" } else { "" };
    println!(rt; "case {number}{way}: code {code}, {length} bytes, {remarks} remarks, {word}")
}

// A case for the reader.
fn read_case(rt: &impl Print, number: usize, row: &[u8]) -> io::Result<()> {
    let file = part_to(part_from(row, 40), read::<u32>(row, 8) as usize);
    let reading = sandvurek_read(file);
    let word = word(is_reading(row, reading));
    let Reading {
        code,
        root,
        data_at,
        data_length,
        blocks,
    } = reading;
    println!(rt;
        "case {number}: code {code}, root {root}, {data_length} bytes at {data_at}, {blocks} blocks, {word}"
    )
}

// One case; no answer where it has no room here. It goes to one of the two above with what is printed to and its number.
fn one(
    rt: &impl Print,
    number: usize,
    row: &[u8],
    work: &mut [u8],
    out: &mut [u8],
) -> io::Result<()> {
    // The kind of a case is a number in the recorded form: 1 is a file for the reader.
    if read::<u32>(row, 4) == 1 {
        return read_case(rt, number, row);
    }
    let w = read::<u32>(row, 16) as usize;
    let o = read::<u32>(row, 20) as usize;
    if work.len() < w || out.len() < o {
        return print!(rt; "case {number}");
    }
    build_case(rt, number, row, &mut work[..w], &mut out[..o])
}

// The row of the first case, and what lies behind it; None at the end, and at a row that is too short.
fn next_row(rest: &[u8]) -> Option<(&[u8], &[u8])>
    ensures { IfSome result (λ both. length both.1.now < length rest.now) }
{
    let len = read::<u32>(rest, 0) as usize;
    if rest.is_empty() || len < 40 {
        return None;
    }
    Some((part_to(rest, len), part_from(rest, len)))
}

// The cases, each behind the other. The areas come as arrays: `main` knows what they hold, and a proof of cutting slices there would go through
// all of it.
fn cases(
    rt: &impl Print,
    all: &[u8],
    work: &mut [u8; 4325376],
    out: &mut [u8; 2048],
) -> io::Result<()> {
    let mut rest = all;
    let mut number = 0;
    // No `for`: each row says where the next one stands.
    while let Some((row, behind)) = next_row(rest) {
        one(rt, number, row, work, out)?;
        number += 1;
        rest = behind;
    }
    Ok(())
}

// Reads until the slice is full or the input ends; how many bytes there were.
// Not a `for`: only a read says how much it gave. coerce_rows has this and `next_row` too: a crate for both would be no plainer.
fn read_all(rt: &impl Input, space: &mut [u8]) -> io::Result<usize> {
    let mut reader = rt.reader();
    let mut n = 0;
    while n < space.len() {
        let more = reader.read(&mut space[n..])?;
        if more == 0 {
            break;
        }
        n += more;
    }
    Ok(n)
}

// Reads the cases, and replays them. `space` comes as an array and is cut here: `cases` says why.
fn run(
    rt: &(impl Input + Print),
    space: &mut [u8; 1376256],
    work: &mut [u8; 4325376],
    out: &mut [u8; 2048],
) -> io::Result<()> {
    let n = read_all(rt, space)?;
    cases(rt, part_to(space, n), work, out)
}

// The input has two sheets of 16,384 rows and two schemas of 4,095 definitions, the work area 4 MB, for refusal 10. Arrays and no Vec, here and in
// coerce_rows: a Vec rests on the heap's functions, and nothing more is assumed for a program that checks the library.
fn main(rt: HostRuntime) -> io::Result<()> {
    let mut space = [0u8; 1376256];
    let mut work = [0u8; 4325376];
    let mut out = [0u8; 2048];
    run(&rt, &mut space, &mut work, &mut out)
}
