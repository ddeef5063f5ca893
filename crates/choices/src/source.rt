// Where a structure's values come from.
ghost use Rattle.std.specs.Prelude.{◌≡◌};
ghost use Rattle.numbers.specs.Words.{Bytes};
ghost use Rattle.value.specs.Rows.{field_named, fields_of, value_row};
ghost use Rattle.layout.specs.Write.{pair_fields};
ghost use Rattle.cells.specs.Names.{def_of};
ghost use Rattle.choices.specs.Sources.{fields_is, NextNamed};

use cells::defs::Def;
use definitions::members::ARRAYINFO;
use value::{field_named, read_row};

// The members of a row; none; a pair's key, or key and value, each with its row and name.
#[derive(Clone, Copy)]
pub enum Source {
    Row(usize),
    Nothing,
    One(usize, u32),
    Two(usize, u32, usize, u32),
}

impl Source {
    // The first value of a name.
    #[tactic(auto, unfolding(value::specs::Rows::field_named))]
    pub fn value_of(self, sheet: &[u8], name: u32) -> Option<usize>
        ensures { result ≡ field_named name (fields_is sheet.now self) }
    {
        match self {
            Source::Row(r) => field_named(sheet, read_row(sheet, r), name),
            Source::Nothing => None,
            Source::One(r, a) => (a == name).then_some(r),
            Source::Two(r, a, s, b) => {
                if a == name {
                    Some(r)
                } else {
                    (b == name).then_some(s)
                }
            }
        }
    }
}

// The members of a value; none, where it is missing.
impl From<Option<usize>> for Source {
    ghost from_gives = { λ v source. (T : Bytes) → fields_is T source ≡ fields_of T (value_row T v) };

    #[tactic(auto, unfolding(value::specs::Rows::fields_of))]
    fn from(v: Option<usize>) -> Source {
        match v {
            Some(r) => Source::Row(r),
            None => Source::Nothing,
        }
    }
}

// The first member from k on that is not ARRAYINFO.
fn next_named(schema: &[u8], d: Def, k: u32) -> Option<u32>
    ensures { NextNamed (def_of schema.now d) d.count k result }
{
    (k..u32::from(d.count)).find(|&i| d.member(schema, i).name != ARRAYINFO)
}

// Key and value, rows r and s, under the names of the pair's first two members.
pub fn pair_source(schema: &[u8], d: Def, r: usize, s: usize) -> Source
    ensures { (T : Bytes) → fields_is T result ≡ pair_fields (def_of schema.now d) (r, s) }
{
    let Some(i) = next_named(schema, d, 0) else {
        return Source::Nothing;
    };
    let a = d.member(schema, i);
    let Some(j) = next_named(schema, d, i + 1) else {
        return Source::One(r, a.name);
    };
    let b = d.member(schema, j);
    Source::Two(r, a.name, s, b.name)
}
