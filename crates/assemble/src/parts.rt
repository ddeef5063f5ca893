// Parts of the work area.
ghost use Rattle.std.specs.Prelude.{◌≡◌, ◌-◌, ◌*◌, take, drop};
ghost use Rattle.area.specs.Area.{items_at};
ghost use Rattle.assemble.specs.Packed.{table_at};

use area::{Area, NAMES, PLACES};

// The rows of the blocks.
pub fn rows<'a>(area: &'a Area<'_>) -> &'a [u8]
    ensures { result.now ≡ take (8 * area.now.progress.blocks) area.now.bytes.now }
{
    &area.bytes[..8 * area.progress.blocks]
}

// The table of the blocks' places, and what may follow it there.
pub fn table<'a>(area: &'a Area<'_>) -> &'a [u8]
    ensures { result.now ≡ take 16384 (drop table_at area.now.bytes.now) }
{
    &area.bytes[PLACES..NAMES]
}

// The laid items.
pub fn items<'a>(area: &'a Area<'_>) -> &'a [u8]
    ensures { result.now ≡ take (area.now.progress.end - items_at area.now.round) (drop (items_at area.now.round) area.now.bytes.now) }
{
    &area.bytes[NAMES + 8 * area.round.entries..area.progress.end]
}
