// `parse_pso`: the sections in file order, and what they leave.
ghost use Rattle.std.specs.Prelude.{◌≡◌, ◌+◌, ◌≤◌, length};
ghost use Rattle.numbers.specs.Result.{map_result};
ghost use Rattle.numbers.specs.Refusal.{answer_of};
ghost use Rattle.pso.specs.Reader.{parse_pso};
ghost use Rattle.pso.specs.Answers.{shown, shown_at, answered, finish_is};
ghost use Rattle.pso.specs.Steps.{Sees};

use crate::blocks::read_rows;
use numbers::refusal::Refusal;
use numbers::words::is_name;
use schema::check::check_psch;
use schema::cursor::{Cursor, Section};

// What is known after some sections: the last PSIN section, the last PMAP section's root number, and how many blocks there are.
#[derive(Clone, Copy)]
pub struct State<'a> {
    pub body: Option<Section<'a>>,
    pub root: Option<u32>,
    pub blocks: usize,
}

// What the reader gives: the root number, where the data section stands in the file and its length, and the number of blocks.
#[derive(Clone, Copy)]
pub struct Pso {
    pub root: u32,
    pub place: usize,
    pub len: usize,
    pub blocks: usize,
}

impl<'a> State<'a> {
    // After one more section; other names are passed over.
    fn see(self, section: Section<'a>) -> Result<Self, Refusal>
        requires { self.blocks ≤ section.place }
        ensures { Sees section.entry self.entry result }
    {
        if section.is(b"PSIN") {
            return Ok(State {
                body: Some(section),
                ..self
            });
        }
        if section.is(b"PMAP") {
            let rows = read_rows(section.bytes)?;
            return Ok(State {
                root: Some(rows.root),
                blocks: self.blocks + rows.count,
                ..self
            });
        }
        if section.is(b"PSCH") {
            check_psch(section.bytes)?;
        }
        Ok(self)
    }

    // What the sections left, or what is missing.
    fn finish(self) -> Result<Pso, Refusal>
        ensures { answer_of result ≡ finish_is self.entry }
    {
        let body = self.body.ok_or(Refusal::NoData)?;
        let root = self.root.ok_or(Refusal::NoMap)?;
        Ok(Pso {
            root,
            place: body.place,
            len: body.bytes.len(),
            blocks: self.blocks,
        })
    }
}

// Reads a file, section by section: what they leave, or the first refusal.
pub fn parse_pso(file: &[u8]) -> Result<Pso, Refusal>
    ensures file_value { map_result shown (parse_pso file.now) ≡ map_result (shown_at file.now) (answer_of result) }
    ensures value { answer_of result ≡ map_result (answered file.now) (parse_pso file.now) }
{
    if !is_name(file, 0, b"PSIN") {
        return Err(Refusal::Magic);
    }
    let mut cursor = Cursor::new(file);
    let mut state = State {
        body: None,
        root: None,
        blocks: 0,
    };
    while let Some((section, next)) = cursor.step()? {
        state = state.see(section)?;
        cursor = next;
    }
    state.finish()
}
