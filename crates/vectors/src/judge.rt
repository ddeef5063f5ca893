// What is compared with the recorded answer: numbers, bytes, records, and what was lent and must be as it was, or zero.
ghost use Rattle.std.specs.Prelude.{◌≡◌, ◌<◌, replicate};
ghost use Rattle.vectors.specs.Judge.{record_of, noise, all_are, wanted_at, records_are, agrees_with, reads_as};

use area::notes::row_at;
use layout::Remark;
use numbers::words::{part_from, part_to, read, same};
use sandvurek::{Outcome, Reading};

// The byte that fills every area before a case.
pub const NOISE: u8 = 0xA5;

// Four of them, as every field of a record is then.
const NOISES: u32 = 0xA5A5_A5A5;

fn record(n: u32) -> Remark
    ensures { result ≡ record_of n }
{
    Remark {
        kind: n,
        structure: n,
        member: n,
        detail: n,
    }
}

pub fn noises() -> [Remark; 64]
    ensures { result ≡ replicate 64 noise }
{
    let r = record(NOISES);
    [r; 64]
}

// Whether all bytes are b.
fn all_are(s: &[u8], b: u8) -> bool
    ensures { result ≡ all_are b s.now }
{
    s.iter().all(|x| *x == b)
}

// Record i as it must be: a remark, then zeros, then noise behind the records that were lent.
fn wanted(s: &[u8], count: usize, n: usize, i: usize) -> Remark
    requires { i < 64 }
    ensures { result ≡ wanted_at s.now count n i }
{
    if i < count {
        row_at(s, 16 * i)
    } else if i < n {
        record(0)
    } else {
        record(NOISES)
    }
}

// Whether all 64 records are as they must be; s has the recorded remarks.
fn records(s: &[u8], count: usize, n: usize, list: [Remark; 64]) -> bool
    ensures { result ≡ records_are s.now count n list 64 }
{
    list.iter()
        .enumerate()
        .all(|(i, r)| *r == wanted(s, count, n, i))
}

// Whether a case has the recorded answer, and left its areas as it must.
#[tactic(auto, unfolding(crate::specs::Judge::agrees_with))]
pub fn agrees(
    row: &[u8],
    work: &[u8],
    out: &[u8],
    n: usize,
    outcome: Outcome,
    list: [Remark; 64],
) -> bool
    ensures { result ≡ agrees_with row.now work.now out.now n outcome.code outcome.length outcome.remarks list }
{
    let len = outcome.length;
    let at = 40 + (read::<u32>(row, 8) as usize) + (read::<u32>(row, 12) as usize);
    let size = read::<u32>(row, 32) as usize;
    outcome.code == read::<u32>(row, 28)
        && len == size
        && outcome.remarks == read::<u32>(row, 36) as usize
        && same(part_to(out, len), part_to(part_from(row, at), size))
        && all_are(part_from(out, len), NOISE)
        && all_are(work, 0)
        && records(part_from(row, at + size), outcome.remarks, n, list)
}

// Whether a file has the recorded reading.
pub fn is_reading(row: &[u8], reading: Reading) -> bool
    ensures { result ≡ reads_as row.now reading.code reading.root reading.data_at reading.data_length reading.blocks }
{
    reading.code == read::<u32>(row, 12)
        && reading.root == read::<u32>(row, 16)
        && reading.data_at == read::<u32>(row, 20) as usize
        && reading.data_length == read::<u32>(row, 24) as usize
        && reading.blocks == read::<u32>(row, 28) as usize
}
