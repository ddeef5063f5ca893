// Rows as vectors of four f32s, by their bits.
ghost use Rattle.std.specs.Prelude.{◌≡◌, ◌<◌, ◌^◌};
ghost use Rattle.value.specs.Rows.{rows_from};
ghost use Rattle.texts.specs.Text.{parts};
ghost use Rattle.coerce.specs.Numbers;
ghost use Rattle.coerce.specs.Answer;

use crate::misfit::Misfit;
use crate::whole::{float_of, float_text};
use texts::text::is_parting;
use value::kind::Kind;
use value::{Row, read_row, text_of};

// The four numbers v with x as number i, from 0; behind the fourth, v as it is.
fn placed(v: [u32; 4], i: usize, x: u32) -> [u32; 4]
    ensures { result ≡ Answer.placed v i x }
{
    let mut v = v;
    if i < 4 {
        v[i] = x;
    }
    v
}

// A text's parts as f32s, all of them in order; n are wanted, and one at least, the first four are given.
fn vec_text(s: &[u8], n: usize) -> Result<[u32; 4], Misfit>
    ensures { result ≡ Numbers.vec_text n (parts s.now) }
{
    let mut v = [0; 4];
    let mut m = 0;
    for part in s.split(|&b| is_parting(b)) {
        if part.is_empty() {
            continue;
        }
        v = placed(v, m, float_text(part)?);
        m += 1;
    }
    if n.max(1) <= m {
        return Ok(v);
    }
    Err(Misfit::Unfit)
}

// Item i of the `count` rows from `first` on as an f32; 0 behind the last. The rows are two numbers, as the definition
// `rows_from first count` has them.
fn item(sheet: &[u8], first: usize, count: usize, i: usize) -> Result<u32, Misfit>
    requires { (first < 2 ^ 40) × (i < 2 ^ 40) }
    ensures { result ≡ Answer.item_at sheet.now first count i }
{
    if i < count {
        return float_of(sheet, read_row(sheet, first + i));
    }
    Ok(0)
}

// Up to four items of an Array's rows; n are wanted.
#[tactic(auto, using(crate::proofs::Vectors::vec_array_items))]
fn vec_array(sheet: &[u8], n: usize, first: usize, count: usize) -> Result<[u32; 4], Misfit>
    requires { first < 2 ^ 40 }
    ensures { result ≡ Numbers.vec_array sheet.now n (rows_from first count) }
{
    let a = item(sheet, first, count, 0)?;
    let b = item(sheet, first, count, 1)?;
    let c = item(sheet, first, count, 2)?;
    let d = item(sheet, first, count, 3)?;
    if n <= count {
        return Ok([a, b, c, d]);
    }
    Err(Misfit::Unfit)
}

// A row as four f32s; n are wanted.
#[tactic(auto, unfolding(crate::specs::Numbers::vec_of, value::specs::Rows::children_of))]
pub fn vec_of(sheet: &[u8], v: Row, n: usize) -> Result<[u32; 4], Misfit>
    ensures { result ≡ Numbers.vec_of sheet.now n v }
{
    match Kind::try_from(v.kind) {
        Ok(Kind::Null | Kind::Vec2 | Kind::Vec3 | Kind::Vec4) => Ok([v.a, v.b, v.c, v.d]),
        Ok(Kind::Array) => vec_array(sheet, n, v.first_child(), v.child_count()),
        Ok(Kind::Str) => vec_text(text_of(sheet, v), n),
        _ => Err(Misfit::Unfit),
    }
}
