// One round of the layout: what is judged before the first, a run, and where the merge of its rows into the list of remarks stands.
#![tactic(auto)]

use crate::opening::Opening;
use area::Progress;
use numbers::refusal::Refusal;

pub mod merge;
pub mod opening;
pub mod run;

// What is built: whether the root gets a block of its own, the sheet, the schema, the output's length, and how many records are lent for remarks.
#[derive(Clone, Copy)]
pub struct Task<'a> {
    pub alone: bool,
    pub sheet: &'a [u8],
    pub schema: &'a [u8],
    pub size: usize,
    pub room: usize,
}

// A round that has run: what it ran with, the root's pointer or the refusal, and its numbers.
#[derive(Clone, Copy)]
pub struct Job {
    pub opening: Opening,
    pub outcome: Result<u32, Refusal>,
    pub progress: Progress,
}

// Where the merge of a round's rows into the list stands. Until `last`: row `row` is compared with record `at` of the `base` that
// earlier rounds left, or is to be put at `at`, behind the `count` that there are. At `last` only zeros are left to write, from `at` on.
// No enum of two cases: `at`, `count` and `job` are read in both, and each step changes a few of the fields.
#[derive(Clone, Copy)]
pub struct Stage {
    pub at: usize,
    pub last: bool,
    pub length: usize,
    pub base: usize,
    pub count: usize,
    pub row: usize,
    pub job: Job,
}
