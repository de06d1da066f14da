// Blocks of one's own for those of a copy.

ghost use Rattle.std.specs.Prelude.{◌≡◌, ◌++◌, ◌∷◌, [], true, None, length, IfOk, OnOk};
ghost use Rattle.mdr_model.specs.Agreement.{SerialsRise};
ghost use Rattle.mdr_model.specs.Memory.{Memory};
ghost use Rattle.mdr_mem.specs.Contents.{wire_in};
ghost use Rattle.mdr_track.specs.Tracked.{pairs_of};
ghost use Rattle.mdr_user_memory.specs.Beginning.{ArePaired, ComeInOrder, IsSized};
ghost use Rattle.mdr_user_memory.specs.Lived.{HasLived, LivesIn, born, lived_of};
ghost use Rattle.mdr_user_memory.specs.Paired.{IsLinked, Paired, is_paired, told, told_all};
ghost use Rattle.mdr_user_memory.specs.Taking.{FitsOne, Moves};

use crate::newborn::Newborn;
use crate::release::given_up;
use crate::steps::bear;
use crate::values::value_of;
use mdr_core::{Items, OutOfMemory, Value};
use mdr_model::{MemoryBlock, Wire};
use mdr_region::Region;
use mdr_track::Tracker;
use std::alloc::Global;

/// A memory and its pairs.
#[derive(Drop)]
pub struct Twins {
    pub region: Region,
    pub pairs: Tracker,
}

/// A value of the copy, as it is put into a cell.
fn placed(region: &Region, pairs: &Tracker, wire: Wire) -> Value
    requires linked { IsLinked region.now.contents (pairs_of pairs.now) }
    requires paired { is_paired (pairs_of pairs.now) wire ≡ true }
    ensures { told region.now.contents.handles (pairs_of pairs.now) (wire_in region.now.contents.handles result) ≡ wire }
{
    pairs.addressed(value_of(wire))
}

fn all_placed(
    alloc: Global,
    region: &Region,
    pairs: &Tracker,
    wires: &[Wire],
) -> Result<Items<Value>, OutOfMemory>
    requires linked { IsLinked region.now.contents (pairs_of pairs.now) }
    requires paired { ArePaired (pairs_of pairs.now) wires.now }
    ensures { IfOk result (λ vs. told_all region.now.contents.handles (pairs_of pairs.now) vs ≡ wires.now) }
{
    let mut values = Items::new(alloc);
    for wire in wires {
        values.push(placed(region, pairs, *wire))?;
    }
    Ok(values)
}

/// Makes room for one more.
fn make_room(region: &mut Region, pairs: &mut Tracker, new: &Newborn) -> Result<(), OutOfMemory>
    requires sized { IsSized (length new.now.first) }
    requires new { (pairs_of pairs.old).user_of new.now.born.serial ≡ None }
    ensures contents { region.new.contents ≡ region.old.contents }
    ensures pairs { pairs_of pairs.new ≡ pairs_of pairs.old }
    ensures fits { OnOk result (FitsOne new.now (pairs_of pairs.new) region.new.cells region.new.births pairs.new.room) }
{
    region.reserve(new.first.len() as u64, 1)?;
    pairs.reserve(1)?;
    Ok(())
}

/// A block more at the end of the copy.
fn add(
    region: &mut Region,
    pairs: &mut Tracker,
    alloc: Global,
    block: &MemoryBlock,
) -> Result<(), OutOfMemory>
    requires linked { IsLinked region.old.contents (pairs_of pairs.old) }
    requires new { (pairs_of pairs.old).user_of block.now.born.serial ≡ None }
    requires sized { IsSized (length block.now.cells) }
    requires paired { ArePaired (pairs_of pairs.old) block.now.cells }
    ensures moves { OnOk result (Moves (λ (m : Memory). m ++ block.now ∷ []) region.old.contents (pairs_of pairs.old) region.new.contents (pairs_of pairs.new)) }
    ensures lived { OnOk result (LivesIn (born block.now.born.serial (length block.now.cells)) region.old pairs.old region.new pairs.new) }
{
    let first = all_placed(alloc, region, pairs, block.cells.as_slice())?;
    let new = Newborn {
        born: block.born,
        first,
    };
    match make_room(region, pairs, &new) {
        Ok(()) => {
            bear(region, pairs, alloc, &new);
            Ok(())
        }
        Err(error) => given_up(error, new),
    }
}

/// A memory that goes with a copy whose serials rise, and in which each block may stand behind those before it.
pub(crate) fn twins_of(alloc: Global, copy: &[MemoryBlock]) -> Result<Twins, OutOfMemory>
    requires rises { SerialsRise copy.now }
    requires ordered { ComeInOrder copy.now }
    ensures paired { IfOk result (λ t. Paired copy.now t.region.contents (pairs_of t.pairs)) }
    ensures lived { IfOk result (λ t. HasLived (lived_of copy.now) t.region.contents.lives (pairs_of t.pairs)) }
{
    let mut region = Region::new(alloc);
    let mut pairs = Tracker::new(alloc);
    for block in copy {
        add(&mut region, &mut pairs, alloc, block)?;
    }
    Ok(Twins { region, pairs })
}
