// What cells hold, by the kernel's serials.

ghost use Rattle.std.specs.Prelude.{◌≡◌, Some, IsTrue, option_map, slice_get};
ghost use Rattle.mdr_meaning.specs.Values.{wire_of};
ghost use Rattle.mdr_mem.specs.Contents.{is_handle, wire_in};
ghost use Rattle.mdr_track.specs.Tracked.{pairs_of};
ghost use Rattle.mdr_user_memory.specs.Paired.{IsLinked, held_in, told, value_in};
ghost use Rattle.mdr_user_memory.specs.Spots.{cell_in};

use crate::spot::Spot;
use mdr_core::{Block, Value};
use mdr_region::Region;
use mdr_track::Tracker;

fn item(cells: &[Value], index: usize) -> Option<Value>
    ensures { result ≡ slice_get cells.now index }
{
    cells.get(index).copied()
}

/// What was put into a cell of a live block.
fn value_at(region: &Region, block: Block, index: usize) -> Option<Value>
    requires { IsTrue (is_handle region.now.contents.handles block) }
    ensures { option_map (wire_in region.now.contents.handles) result ≡ value_in region.now.contents (Some block) index }
{
    item(region.cells(block), index)
}

/// What a cell of a live block holds, as code has it.
fn named_at(region: &Region, pairs: &Tracker, block: Block, index: usize) -> Option<Value>
    requires linked { IsLinked region.now.contents (pairs_of pairs.now) }
    requires alive { IsTrue (is_handle region.now.contents.handles block) }
    ensures { option_map wire_of result ≡ option_map (told region.now.contents.handles (pairs_of pairs.now)) (value_in region.now.contents (Some block) index) }
{
    match value_at(region, block, index) {
        Some(value) => Some(pairs.named(value)),
        None => None,
    }
}

/// What a cell holds, as code has it, where its block is live and has it.
pub(crate) fn held(region: &Region, pairs: &Tracker, spot: Spot) -> Option<Value>
    requires { IsLinked region.now.contents (pairs_of pairs.now) }
    ensures { option_map wire_of result ≡ held_in region.now.contents (pairs_of pairs.now) (cell_in spot) }
{
    match pairs.user_of(spot.serial) {
        Some(block) => named_at(region, pairs, block, spot.index),
        None => None,
    }
}
