// A death, a birth and a store behind the pairs, by the kernel's serials.

ghost use Rattle.std.specs.Prelude.{◌≡◌, ◌<◌, ◌≤◌, ◌+◌, ◌-◌, Some, None, length};
ghost use Rattle.mdr_core.specs.declared.value.Block.{Block};
ghost use Rattle.mdr_meaning.specs.Values.{wire_of};
ghost use Rattle.mdr_model.specs.Copies.{inserted};
ghost use Rattle.mdr_model.specs.Memory.{Memory, killed, normal, put};
ghost use Rattle.mdr_track.specs.Pairs.{paired, unpaired};
ghost use Rattle.mdr_track.specs.Tracked.{pairs_of};
ghost use Rattle.mdr_user_memory.specs.Lived.{LivesIn, born, died};
ghost use Rattle.mdr_user_memory.specs.Paired.{IsLinked};
ghost use Rattle.mdr_user_memory.specs.Spots.{cell_in};
ghost use Rattle.mdr_user_memory.specs.Taking.{FitsOne, Moves, block_of};

use crate::newborn::Newborn;
use crate::spot::Spot;
use mdr_core::{Block, Shape, Value};
use mdr_mem::Cells;
use mdr_region::Region;
use mdr_track::Tracker;
use std::alloc::Global;

/// The block of a serial dies with its pair.
fn bury_block(region: &mut Region, pairs: &mut Tracker, serial: u64, block: Block)
    requires linked { IsLinked region.old.contents (pairs_of pairs.old) }
    requires pair { (pairs_of pairs.old).user_of serial ≡ Some block }
    ensures linked { IsLinked region.new.contents (pairs_of pairs.new) }
    ensures moves { Moves (killed serial) region.old.contents (pairs_of pairs.old) region.new.contents (pairs_of pairs.new) }
    ensures pairs { pairs_of pairs.new ≡ unpaired serial (pairs_of pairs.old) }
    ensures cells { region.new.cells ≡ region.old.cells }
    ensures births { region.new.births ≡ region.old.births }
    ensures room { pairs.new.room ≡ pairs.old.room }
    ensures lived { LivesIn (died serial) region.old pairs.old region.new pairs.new }
{
    region.kill(block);
    pairs.drop_pair(serial);
    let _in_order = region.births();
}

/// A block dies with its pair, if the serial has one. It takes no memory, and leaves all that was promised.
pub(crate) fn bury(region: &mut Region, pairs: &mut Tracker, serial: u64)
    requires { IsLinked region.old.contents (pairs_of pairs.old) }
    ensures linked { IsLinked region.new.contents (pairs_of pairs.new) }
    ensures moves { Moves (killed serial) region.old.contents (pairs_of pairs.old) region.new.contents (pairs_of pairs.new) }
    ensures pairs { pairs_of pairs.new ≡ unpaired serial (pairs_of pairs.old) }
    ensures cells { region.new.cells ≡ region.old.cells }
    ensures births { region.new.births ≡ region.old.births }
    ensures room { pairs.new.room ≡ pairs.old.room }
    ensures lived { LivesIn (died serial) region.old pairs.old region.new pairs.new }
{
    match pairs.user_of(serial) {
        Some(block) => bury_block(region, pairs, serial, block),
        None => {}
    }
}

/// A block is born with its pair, within what was promised: it can't fail.
pub(crate) fn bear(region: &mut Region, pairs: &mut Tracker, alloc: Global, new: &Newborn) -> Block
    requires linked { IsLinked region.old.contents (pairs_of pairs.old) }
    requires fits { FitsOne new.now (pairs_of pairs.old) region.old.cells region.old.births pairs.old.room }
    ensures linked { IsLinked region.new.contents (pairs_of pairs.new) }
    ensures moves { Moves (inserted (block_of new.now region.old.contents.handles (pairs_of pairs.old))) region.old.contents (pairs_of pairs.old) region.new.contents (pairs_of pairs.new) }
    ensures pairs { pairs_of pairs.new ≡ paired new.now.born.serial result (pairs_of pairs.old) }
    ensures cells { region.new.cells ≡ region.old.cells - length new.now.first }
    ensures births { region.new.births ≡ region.old.births - 1 }
    ensures room { pairs.new.room ≡ pairs.old.room - 1 }
    ensures lived { LivesIn (born new.now.born.serial (length new.now.first)) region.old pairs.old region.new pairs.new }
{
    let shape = Shape {
        ty: new.born.ty,
        count: new.born.count,
    };
    match region.birth(alloc, new.born.kind, shape, new.first.as_slice()) {
        Ok(block) => {
            pairs.pair(new.born.serial, block);
            let _in_order = region.births();
            block
        }
        Err(_) => unreachable!(),
    }
}

/// A value is put into a cell of the block of a serial.
fn keep_in(region: &mut Region, pairs: &Tracker, block: Block, spot: Spot, value: Value)
    requires linked { IsLinked region.old.contents (pairs_of pairs.now) }
    requires pair { (pairs_of pairs.now).user_of spot.serial ≡ Some block }
    ensures linked { IsLinked region.new.contents (pairs_of pairs.now) }
    ensures moves { Moves (λ (m : Memory). put m (cell_in spot) (normal m (wire_of value))) region.old.contents (pairs_of pairs.now) region.new.contents (pairs_of pairs.now) }
    ensures lives { region.new.contents.lives ≡ region.old.contents.lives }
{
    let placed = pairs.addressed(value);
    region.put(block, spot.index as u64, placed);
    let _in_order = region.births();
}

/// A value in hand is put into a cell. Where there is none, nothing is done. It takes no memory.
pub(crate) fn keep(region: &mut Region, pairs: &Tracker, spot: Spot, value: Value)
    requires { IsLinked region.old.contents (pairs_of pairs.now) }
    ensures linked { IsLinked region.new.contents (pairs_of pairs.now) }
    ensures moves { Moves (λ (m : Memory). put m (cell_in spot) (normal m (wire_of value))) region.old.contents (pairs_of pairs.now) region.new.contents (pairs_of pairs.now) }
    ensures lives { region.new.contents.lives ≡ region.old.contents.lives }
{
    match pairs.user_of(spot.serial) {
        Some(block) => keep_in(region, pairs, block, spot, value),
        None => {}
    }
}
