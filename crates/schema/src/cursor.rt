// A cursor over the sections of a file.
ghost use Rattle.std.specs.Prelude.{◌≡◌, ◌<◌, ◌^◌};
ghost use Rattle.numbers.specs.Words.{Named};

use numbers::refusal::Refusal;
use numbers::words::{is_name, left, read};

// A section of a file.
#[derive(Clone, Copy)]
pub struct Section<'a> {
    // Where it starts in the file.
    pub place: usize,
    // Its own bytes, with its name and its length.
    pub bytes: &'a [u8],
    pub ghost low: { place < 2 ^ 63 },
}

impl<'a> Section<'a> {
    // Whether the section has the name.
    pub fn is(self, name: &[u8; 4]) -> bool
        ensures { Named name.now self.entry.bytes.now 0 result }
    {
        is_name(self.bytes, 0, name)
    }
}

// A place in a file where a section starts, or the file's end. It steps by value, as document 01 has it, and is no iterator:
// a walk is a `while let`.
#[derive(Clone, Copy)]
pub struct Cursor<'a> {
    pub file: &'a [u8],
    pub at: usize,
}

impl<'a> Cursor<'a> {
    ghost use Rattle.schema.specs.Steps.{left_of, followed, Reach};

    // Before the first section.
    pub fn new(file: &'a [u8]) -> Cursor<'a>
        ensures { (result.file.now ≡ file.now) × (result.at ≡ 0) }
    {
        Cursor { file, at: 0 }
    }

    // The section at the cursor with the cursor behind it; none, where fewer than eight bytes are left.
    pub fn step(self) -> Result<Option<(Section<'a>, Cursor<'a>)>, Refusal>
        ensures { (left_of self.entry ≡ followed result) × Reach self.entry result }
    {
        let Cursor { file, at } = self;
        let n = left(file, at);
        if n < 8 {
            return Ok(None);
        }
        let len = read::<u32>(file, at + 4) as usize;
        if len < 8 || n < len {
            return Err(Refusal::SectionLength);
        }
        let next = at + len;
        let section = Section {
            place: at,
            bytes: &file[at..next],
        };
        Ok(Some((section, Cursor { file, at: next })))
    }
}
