// The sheet's layout: refusals 1, 2 and 3.
#![tactic(auto)]

ghost use Rattle.std.specs.Prelude.{◌≡◌, cond, ◌+◌, ◌-◌, ◌≤◌, ◌<◌, ◌^◌, eqb, max, fold};
ghost use Rattle.value.specs.Kind.{number_of as number_of_kind};
ghost use Rattle.value.specs.Rows;
ghost use Rattle.sheet.specs.Layout;
ghost use Rattle.sheet.specs.Answer;

use numbers::refusal::Refusal;
use value::kind::Kind;
use value::{Row, name_of, read_row, row_count, text_area};

// A row's number as the walk holds it, the one behind the last row included: "hold them in 16 bits inside it; a sheet has at
// most 16,384 rows" (document 02, 2.3). Counts, and what a row's fields say, stay wide.
pub type RowNumber = u16;

// A row's number from a count, once it is known not to be too large: "No field or sum is cut to fit".
fn number_of(n: usize) -> RowNumber
    requires { n ≤ 16384 }
    ensures { result ≡ n }
{
    n as RowNumber
}

// How many of a, b, c, d a kind uses.
#[tactic(auto, unfolding(crate::specs::Layout::fields_used))]
fn fields_used(kind: Kind) -> u8
    ensures { result ≡ Layout.fields_used (number_of_kind kind) }
{
    match kind {
        Kind::Null | Kind::Bytes => 0,
        Kind::I64 | Kind::U64 | Kind::Vec2 | Kind::Str | Kind::Array | Kind::Map => 2,
        Kind::Vec3 | Kind::Struct => 3,
        Kind::Vec4 => 4,
        _ => 1,
    }
}

// Whether the fields that the row's kind does not use are 0.
#[tactic(auto, unfolding(crate::specs::Layout::rest_zero))]
fn rest_zero(kind: Kind, v: Row) -> bool
    requires { number_of_kind kind ≡ v.kind }
    ensures { result ≡ Layout.rest_zero v }
{
    let n = fields_used(kind);
    (1 <= n || v.a == 0) && (2 <= n || v.b == 0) && (3 <= n || v.c == 0) && (4 <= n || v.d == 0)
}

// Whether a number is within its kind's width.
#[tactic(auto, unfolding(crate::specs::Layout::within_width))]
fn within_width(kind: Kind, v: Row) -> bool
    requires { number_of_kind kind ≡ v.kind }
    ensures { result ≡ Layout.within_width v }
{
    match kind {
        Kind::Bool => v.a < 2,
        Kind::I8 => v.a < 128 || 0xFFFF_FF80 <= v.a,
        Kind::U8 => v.a < 256,
        Kind::I16 => v.a < 0x8000 || 0xFFFF_8000 <= v.a,
        Kind::U16 => v.a < 0x1_0000,
        _ => true,
    }
}

// Whether a row is sound by itself.
#[tactic(auto, using(crate::proofs::Laws::known), unfolding(crate::specs::Layout::row_sound))]
fn row_sound(v: Row) -> bool
    ensures { result ≡ Layout.row_sound v }
{
    Kind::try_from(v.kind).is_ok_and(|kind| {
        v.zero3 == 0 && rest_zero(kind, v) && within_width(kind, v)
    })
}

// Whether the rows from first on and before end have no name.
fn nameless(sheet: &[u8], first: RowNumber, end: RowNumber) -> bool
    ensures { result ≡ Layout.nameless sheet.now first (end - first) }
{
    (first..end).all(|child| name_of(sheet, child as usize) == 0)
}

// Whether the children of v, from row first on and before end, have names only where v is a Struct.
#[tactic(auto, unfolding(crate::specs::Layout::names_fit))]
fn names_fit(sheet: &[u8], first: RowNumber, end: RowNumber, v: Row) -> bool
    requires { end ≡ first + Rows.child_count v }
    ensures { result ≡ Layout.names_fit sheet.now first v }
{
    v.is(Kind::Struct) || nameless(sheet, first, end)
}

// Whether a row has children.
fn is_container(v: Row) -> bool
    ensures { result ≡ Layout.is_container v.kind }
{
    v.is(Kind::Array) || v.is(Kind::Map) || v.is(Kind::Struct)
}

// The text bytes that a row claims.
fn text_bytes(v: Row) -> usize
    ensures { (result ≡ Layout.text_bytes v) × (result < 2 ^ 32) }
{
    if v.is(Kind::Str) { v.b as usize } else { 0 }
}

// What the rows so far claim: rows and text bytes; the last row's level, and the next level's first row.
// Bounds stand with the methods that need them, and in no ghost field: the definitions build this record from any numbers.
#[derive(Clone, Copy, Debug, PartialEq, Eq)]
pub struct Walk {
    pub claimed: RowNumber,
    pub texts: usize,
    pub level: usize,
    pub next: RowNumber,
}

impl Walk {
    // Before row 0, which is claimed.
    fn new() -> Self
        ensures { result ≡ Layout.begin }
    {
        Walk {
            claimed: 1,
            texts: 0,
            level: 0,
            next: 0,
        }
    }

    // The level of row r.
    fn level_at(self, r: RowNumber) -> usize
        requires { self.level < 2 ^ 33 }
        ensures { result ≡ Layout.level_at self r }
    {
        if r == self.next {
            self.level + 1
        } else {
            self.level
        }
    }

    // The first row of the level below that of row r.
    fn next_at(self, r: RowNumber) -> RowNumber
        ensures { result ≡ cond (eqb r self.next) self.claimed self.next }
    {
        if r == self.next {
            self.claimed
        } else {
            self.next
        }
    }

    // Whether v, row r of n, stands where the rows before it say.
    #[tactic(auto, unfolding(crate::specs::Layout::sits))]
    fn sits(self, n: usize, r: RowNumber, v: Row) -> bool
        requires { self.level < 2 ^ 33 }
        ensures { result ≡ Layout.sits n self r v }
    {
        r < self.claimed
            && self.level_at(r) <= 64
            && row_sound(v)
            && (!v.is(Kind::Str) || v.a as usize == self.texts)
            && (!is_container(v) || v.first_child() == self.claimed as usize)
            && self.claimed as usize + v.child_count() <= n
    }

    // What the rows up to v, row r, claim.
    fn after(self, r: RowNumber, v: Row) -> Self
        requires { (self.level < 2 ^ 33) × (self.claimed + Rows.child_count v ≤ 16384) × (self.texts < 2 ^ 50) }
        ensures { (result ≡ Layout.after self r v) × (result.texts < self.texts + 2 ^ 32) }
    {
        Walk {
            claimed: number_of(self.claimed as usize + v.child_count()),
            texts: self.texts + text_bytes(v),
            level: self.level_at(r),
            next: self.next_at(r),
        }
    }
}

// The walk over the n rows.
#[tactic(auto, using(crate::proofs::Laws::walk_done))]
fn walks(sheet: &[u8], n: usize) -> bool
    requires { (n ≡ Rows.row_count sheet.now) × (n ≤ 16384) }
    ensures { result ≡ Layout.walks sheet.now n 0 Layout.begin }
{
    let mut w = Walk::new();
    for r in 0..number_of(n) {
        let v = read_row(sheet, r as usize);
        if !w.sits(n, r, v) {
            return false;
        }
        let stepped = w.after(r, v);
        if !names_fit(sheet, w.claimed, stepped.claimed, v) {
            return false;
        }
        w = stepped;
    }
    w.claimed as usize == n && w.texts == text_area(sheet).len()
}

// Whether the row count and the lengths of rows and text area are right.
#[tactic(auto, unfolding(crate::specs::Layout::framed))]
fn framed(sheet: &[u8]) -> bool
    ensures { result ≡ Layout.framed sheet.now }
{
    let n = row_count(sheet);
    4 <= sheet.len()
        && 1 <= n
        && n <= 16384
        && 4 + 24 * n <= sheet.len()
        && text_area(sheet).len() <= 65535
}

// Refusal 1: whether the sheet keeps its layout.
#[tactic(auto, unfolding(crate::specs::Layout::laid_out))]
fn laid_out(sheet: &[u8]) -> bool
    ensures { result ≡ Layout.laid_out sheet.now }
{
    if !framed(sheet) {
        return false;
    }
    name_of(sheet, 0) == 0 && walks(sheet, row_count(sheet))
}

// The largest byte, or 0. No byte ends the walk early, so that many are compared at once.
fn largest(s: &[u8]) -> u8
    ensures { result ≡ fold max 0 s.now }
{
    s.iter().fold(0, |top: u8, b| top.max(*b))
}

// Whether every byte is below 128.
fn all_ascii(s: &[u8]) -> bool
    ensures { result ≡ Layout.all_below 128 s.now }
{
    largest(s) < 128
}

// Refusal 1, 2 or 3 of a sheet, in this order, or none.
#[tactic(auto, unfolding(crate::specs::Answer::checked, crate::specs::Layout::ascii, crate::specs::Layout::rooted))]
pub fn check_sheet(sheet: &[u8]) -> Result<(), Refusal>
    ensures { result ≡ Answer.checked sheet.now }
{
    if !laid_out(sheet) {
        return Err(Refusal::SheetLayout);
    }
    if !all_ascii(text_area(sheet)) {
        return Err(Refusal::SheetText);
    }
    if !read_row(sheet, 0).is(Kind::Struct) {
        return Err(Refusal::SheetRoot);
    }
    Ok(())
}
