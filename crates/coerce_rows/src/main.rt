// Replays recorded answers of the reference: standard input has the entries of an enum, then rows, each its length, its answers,
// and the sheet that they were given for (differential/leaves/run record). A line for each coercion says how many answers agree; the last
// line says it of published hash values.
#![tactic(auto)]

ghost use Rattle.std.specs.Prelude.{◌<◌, ◌^◌, ◌≤◌, length, IfSome};

use coerce::misfit::Misfit;
use coerce::vector::vec_of;
use coerce::whole::{float_of, has_str, int_of, str_of};
use hash::rage_joaat;
use names::entries::Entries;
use names::enums::enum_value;
use names::flags::flags_bits;
use names::hashes::hash_of;
use numbers::words::{part_from, part_to, read};
use std::io;
use std::io::Read;
use value::{Row, read_row};

// A row, the sheet that it stands in, and its recorded bytes.
#[derive(Clone, Copy)]
struct Recorded<'a> {
    bytes: &'a [u8],
    sheet: &'a [u8],
    row: Row,
}

impl<'a> Recorded<'a> {
    fn new(bytes: &'a [u8]) -> Self {
        let sheet = part_from(bytes, 120);
        Recorded {
            bytes,
            sheet,
            row: read_row(sheet, 0),
        }
    }

    // The answer that is recorded at a place: a code, and what it goes with.
    fn answer(&self, at: usize) -> &'a [u8] {
        part_from(self.bytes, at)
    }
}

// What an answer may hold.
trait Value: PartialEq + Drop {
    fn read(bytes: &[u8]) -> Self;
}

impl Value for u32 {
    fn read(bytes: &[u8]) -> Self {
        read::<u32>(bytes, 0)
    }
}

impl Value for u64 {
    fn read(bytes: &[u8]) -> Self {
        read::<u64>(bytes, 0)
    }
}

impl Value for [u32; 4] {
    fn read(bytes: &[u8]) -> Self {
        [
            read::<u32>(bytes, 0),
            read::<u32>(bytes, 4),
            read::<u32>(bytes, 8),
            read::<u32>(bytes, 12),
        ]
    }
}

// Whether a recorded answer is ours. The codes are 0, 1 and 11, as recorded.
fn is<T: Value>(answer: &[u8], ours: Result<T, Misfit>) -> bool {
    let code = read::<u32>(answer, 0);
    match ours {
        Ok(value) => code == 0 && T::read(part_from(answer, 4)) == value,
        Err(Misfit::Unfit) => code == 1,
        Err(Misfit::FloatText) => code == 11,
    }
}

// The same of a text: whether there is one, its length and its hash.
fn is_text(answer: &[u8], there: bool, text: &[u8]) -> bool {
    (read::<u32>(answer, 0) == 0) == there
        && read::<u32>(answer, 4) as usize == text.len()
        && read::<u32>(answer, 8) == rage_joaat(text)
}

// The first row, and what lies behind it; None at the end, and at a row that is shorter than its answers. vectors has this and `read_all` too.
fn next_row(rest: &[u8]) -> Option<(&[u8], &[u8])>
    ensures { IfSome result (λ both. length both.1.now < length rest.now) }
{
    let len = read::<u32>(rest, 0) as usize;
    if rest.is_empty() || len < 120 {
        return None;
    }
    Some((part_to(rest, len), part_from(rest, len)))
}

// The line of one coercion: how many of the rows have its answer; none, where a row is shorter than its answers.
fn line<F: Fn(&Recorded<'_>) -> bool>(
    rt: &impl Print,
    name: &str,
    rows: &[u8],
    agrees: F,
) -> io::Result<()>
    requires { F.IsAlwaysCallable agrees }
{
    let mut rest = rows;
    let mut count: usize = 0;
    let mut good: usize = 0;
    // No `for`: each row says where the next one stands.
    while let Some((row, behind)) = next_row(rest) {
        count += 1;
        if agrees(&Recorded::new(row)) {
            good += 1;
        }
        rest = behind;
    }
    let good = if rest.is_empty() { good } else { 0 };
    println!(rt; "{name}: {good} of {count} rows agree")
}

// The lines of the numbers.
fn number_lines(rt: &impl Print, rows: &[u8]) -> io::Result<()> {
    line(
        rt,
        "int_of",
        rows,
        |r| is(r.answer(4), int_of(r.sheet, r.row)),
    )?;
    line(
        rt,
        "float_of",
        rows,
        |r| is(r.answer(16), float_of(r.sheet, r.row)),
    )?;
    line(
        rt,
        "vec_of 2",
        rows,
        |r| is(r.answer(24), vec_of(r.sheet, r.row, 2)),
    )?;
    line(
        rt,
        "vec_of 3",
        rows,
        |r| is(r.answer(44), vec_of(r.sheet, r.row, 3)),
    )?;
    line(
        rt,
        "vec_of 4",
        rows,
        |r| is(r.answer(64), vec_of(r.sheet, r.row, 4)),
    )
}

// The lines of the texts, hashes and enums.
fn word_lines(rt: &impl Print, entries: Entries<'_>, rows: &[u8]) -> io::Result<()> {
    line(rt, "str_of", rows, |r| {
        is_text(r.answer(84), has_str(r.row), str_of(r.sheet, r.row))
    })?;
    line(rt, "hash_of", rows, |r| {
        is(r.answer(96), hash_of(r.sheet, r.row).ok_or(Misfit::Unfit))
    })?;
    line(rt, "enum_value", rows, |r| {
        is(r.answer(104), enum_value(r.sheet, entries, r.row))
    })?;
    line(rt, "flags_bits", rows, |r| {
        is(r.answer(112), flags_bits(r.sheet, entries, 64, r.row))
    })
}

// Published values of the one-at-a-time hash, of bytes as they are: two of Wikipedia's "Jenkins hash function"; Adder of ScriptHookVDotNet's
// `VehicleHash`.
fn published_line(rt: &impl Print) -> io::Result<()> {
    let published = [
        ("a", 0xCA2E9442),
        ("The quick brown fox jumps over the lazy dog", 0x519E91F5),
        ("adder", 0xB779A091),
    ];
    let good = published
        .iter()
        .filter(|(text, hash)| rage_joaat(text.as_bytes()) == *hash)
        .count();
    println!(rt;
        "rage_joaat: {good} of {} published values agree",
        published.len()
    )
}

// Reads until the slice is full or the input ends; how many bytes there were.
// Not a `for`: only a read says how much it gave.
fn read_all(rt: &impl Input, space: &mut [u8]) -> io::Result<usize> {
    let mut reader = rt.reader();
    let mut n = 0;
    while n < space.len() {
        let more = reader.read(&mut space[n..])?;
        if more == 0 {
            break;
        }
        n += more;
    }
    Ok(n)
}

// An array and no Vec, as in vectors.
fn main(rt: HostRuntime) -> io::Result<()> {
    let mut space = [0u8; 65536];
    let n = read_all(&rt, &mut space)?;
    let input = part_to(&space, n);
    let count = read::<u32>(input, 0) as usize;
    // With more entries there are no lines.
    if count < 1000 {
        let entries = Entries {
            schema: input,
            at: 4,
            count,
        };
        let rows = part_from(input, 4 + 8 * count);
        number_lines(&rt, rows)?;
        word_lines(&rt, entries, rows)?;
    }
    published_line(&rt)
}
