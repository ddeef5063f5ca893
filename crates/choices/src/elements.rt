// The elements of a run of structures, and a map's pairs.
ghost use Rattle.std.specs.Prelude.{◌≡◌, ◌<◌, ◌^◌};
ghost use Rattle.numbers.specs.Words.{Bytes};
ghost use Rattle.value.specs.Rows.{row};
ghost use Rattle.area.specs.Posts.{Open};
ghost use Rattle.cells.specs.Names.{def_of};
ghost use Rattle.choices.specs.Sources.{fields_is};
ghost use Rattle.choices.specs.Posts.{element_row, element_fields};
ghost use Rattle.choices.specs.Items.{is_pairs};
ghost use Rattle.choices.specs.Steps.{Noted};

use crate::source::{Source, pair_source};
use area::Area;
use area::fault::Fault;
use cells::defs::Def;
use members::Target;
use members::rows::Rows;
use value::kind::Kind;
use value::read_row;

// What a run of structures is made of: an array's elements, a row each, or a map's pairs, two rows each.
#[derive(Clone, Copy)]
pub enum Items {
    Elements,
    Pairs,
}

impl Items {
    // Remark 9, where the row is neither Struct nor Null; of a map's pairs there is none.
    pub fn note(self, sheet: &[u8], area: &mut Area<'_>, at: &Target, r: usize)
        requires { Open area.old.progress }
        ensures { Noted area.old at.now.structure at.now.member (row sheet.now r).kind (is_pairs self) area.new }
    {
        match self {
            Items::Pairs => {}
            Items::Elements => {
                let v = read_row(sheet, r);
                if !v.is(Kind::Struct) && !v.is(Kind::Null) {
                    at.say(area, Fault::ElementValue, 0);
                }
            }
        }
    }

    // The row of element k, or of pair k's key.
    pub fn row(self, rows: Rows, k: u32) -> usize
        ensures { (result ≡ element_row rows.first k (is_pairs self)) × (result < 2 ^ 34) }
    {
        match self {
            Items::Pairs => (rows.first as usize) + 2 * (k as usize),
            Items::Elements => rows.row(k),
        }
    }

    // The values of an element, or of a pair.
    pub fn source(self, schema: &[u8], i: Def, r: usize) -> Source
        requires { r < 2 ^ 40 }
        ensures { (T : Bytes) → fields_is T result ≡ element_fields T (def_of schema.now i) r (is_pairs self) }
    {
        match self {
            Items::Pairs => pair_source(schema, i, r, r + 1),
            Items::Elements => Source::Row(r),
        }
    }
}
