// The whole file: its length, and its bytes; and the work area cleared.
ghost use Rattle.std.specs.Prelude.{◌≡◌, ℕ, ◌+◌, ◌*◌, ◌/◌, ◌≤◌, length};
ghost use Rattle.numbers.specs.Words.{Bytes, words, over, zeros};
ghost use Rattle.schema.specs.Defs.{Schema, winning};
ghost use Rattle.layout.specs.State.{State};
ghost use Rattle.layout.specs.Assemble.{file_of};
ghost use Rattle.area.specs.Steps.{Same};
ghost use Rattle.assemble.specs.Map.{places_of};
ghost use Rattle.psch.specs.Used.{Counts};
ghost use Rattle.assemble.specs.Packed.{lengths_in, length_of, Holds, Fitting, SomeFitting, table_at, InUse, rows_wiped, names_wiped, all_wiped};

use crate::blocks::assemble_area;
use crate::parts::rows;
use area::{Area, NAMES, PLACES, REMARKS, Round};
use numbers::words::{clear, read};
use psch::{Used, put_schema};
use schema::kind::Kind;

// The lengths of the blocks together, from their rows.
#[tactic(auto, using(crate::proofs::Adding::lengths_turn, crate::proofs::Adding::lengths_none))]
fn data_length(rows: &[u8]) -> usize
    requires { length rows.now / 8 ≤ 4095 }
    ensures { (result ≡ lengths_in rows.now 0 (length rows.now / 8)) × (result ≤ 4294967296 * (length rows.now / 8)) }
{
    let mut sum = 0;
    for row in rows.chunks_exact(8) {
        sum += read::<u32>(row, 4) as usize;
    }
    sum
}

// The file's length; more than 16,777,216 where it is longer than that.
#[tactic(auto, using(crate::proofs::Adding::lengths_area))]
pub fn file_length(schema: &[u8], area: &Area<'_>) -> usize
    ensures value { result ≡ length_of schema.now area.now.round area.now.progress area.now.bytes.now }
    ensures counts { (S : Schema) (s : State) (σ : Bytes) (pointer : ℕ) → Holds schema.now area.now.round area.now.progress area.now.bytes.now S s σ
        → Counts result (length (file_of (winning S) pointer s.core)) }
{
    let blocks = area.progress.blocks;
    let data = data_length(rows(area));
    let heads = 16 + data + (16 + 16 * blocks) + 12;
    let structs = Used::of(area, Kind::Structure).length(schema, heads);
    Used::of(area, Kind::Enum).length(schema, structs)
}

// The file, from the first byte of `out` on; of the work area only the table of places is changed.
pub fn put_file(schema: &[u8], area: &mut Area<'_>, pointer: u32, out: &mut [u8])
    requires { SomeFitting schema.now area.old.round area.old.progress area.old.bytes.now pointer (length out.old) }
    ensures same { Same area.old area.new }
    ensures progress { area.new.progress ≡ area.old.progress }
    ensures file { (S : Schema) (s : State) (σ : Bytes)
        → Fitting schema.now area.old.round area.old.progress area.old.bytes.now pointer (length out.old) S s σ
        → (out.new ≡ over out.old 0 (file_of (winning S) pointer s.core))
        × (area.new.bytes.now ≡ over area.old.bytes.now table_at (words (places_of 16 s.core.blocks))) }
{
    let end = assemble_area(area, pointer % 4096, out);
    put_schema(schema, area, &mut out[end..]);
}

// Clears what is in use of a work area: rows, names, items, stack; then all of it is zero.
pub fn wipe(area: &mut Area<'_>)
    ensures same { Same area.old area.new }
    ensures progress { area.new.progress ≡ area.old.progress }
    ensures bytes { area.new.bytes.now ≡ all_wiped area.old.round area.old.progress area.old.bytes.now }
    ensures zero { (S : Schema) → InUse S area.old.round (length area.old.bytes.now) area.old.progress area.old.bytes.now
        → area.new.bytes.now ≡ zeros (length area.old.bytes.now) }
{
    let p = area.progress;
    let Round { entries, cap, .. } = area.round;
    let items = NAMES + 8 * entries;
    let stack = items + cap;
    clear(area.bytes, 0, 8 * p.blocks);
    clear(area.bytes, REMARKS, 16 * p.rows);
    clear(area.bytes, PLACES, 4 * p.blocks);
    clear(area.bytes, NAMES, 4 * p.structs);
    clear(area.bytes, NAMES + 4 * entries, 4 * p.enums);
    clear(area.bytes, items, p.end - items);
    clear(area.bytes, stack, p.top - stack);
}
