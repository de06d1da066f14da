// Blocks in the order in which they are met.

ghost use Rattle.std.specs.Prelude.{◌≡◌, ◌++◌, [], ◌∷◌, length, IfOk, OnOk, false, slice_get};
ghost use Rattle.mdr_plain.specs.Outcome.{first_serials, is_among, object_number, with_block};
ghost use Rattle.mdr_shown.specs.Met.{AreNumbered};

use mdr_core::OutOfMemory;
use std::alloc::Global;
use std::collections::HashMap;

/// The serials of the blocks that were met, in order, and the number of each, from 1.
#[derive(Drop)]
pub struct Met {
    pub serials: Vec<u64>,
    pub numbers: HashMap<u64, u64>,
}

fn none(alloc: Global) -> Met
    ensures numbered { AreNumbered result }
    ensures serials { result.serials.items ≡ [] }
{
    Met {
        serials: Vec::new(alloc),
        numbers: HashMap::new(alloc),
    }
}

/// Whether the block was met.
fn is_met(met: &Met, serial: u64) -> bool
    requires { AreNumbered met.now }
    ensures { result ≡ is_among met.now.serials.items serial }
{
    met.numbers.contains_key(&serial)
}

/// How many blocks these are.
fn count_of(serials: &[u64]) -> u64
    ensures { result ≡ length serials.now }
{
    serials.len() as u64
}

/// Adds a block that was not met before.
fn add(met: &mut Met, serial: u64) -> Result<(), OutOfMemory>
    requires numbered { AreNumbered met.old }
    requires new { is_among met.old.serials.items serial ≡ false }
    ensures numbered { OnOk result (AreNumbered met.new) }
    ensures serials { OnOk result (met.new.serials.items ≡ met.old.serials.items ++ serial ∷ []) }
{
    met.serials.push(serial)?;
    let number = count_of(met.serials.as_slice());
    met.numbers.insert(serial, number)?;
    Ok(())
}

/// Adds a block, unless it was met.
pub fn meet(met: &mut Met, serial: u64) -> Result<(), OutOfMemory>
    requires { AreNumbered met.old }
    ensures numbered { OnOk result (AreNumbered met.new) }
    ensures serials { OnOk result (met.new.serials.items ≡ with_block met.old.serials.items serial) }
{
    if is_met(met, serial) {
        Ok(())
    } else {
        add(met, serial)
    }
}

/// The globals, of which there are so many.
pub fn globals(alloc: Global, count: usize) -> Result<Met, OutOfMemory>
    ensures numbered { IfOk result AreNumbered }
    ensures serials { IfOk result (λ met. met.serials.items ≡ first_serials count) }
{
    let mut met = none(alloc);
    for global in 0..count {
        add(&mut met, global as u64)?;
    }
    Ok(met)
}

/// The block of the object at a place of the list.
pub fn serial_at(met: &Met, i: u64) -> Option<u64>
    ensures { result ≡ slice_get met.now.serials.items i }
{
    met.serials.as_slice().get(i as usize).copied()
}

/// The number of the object that is a block.
pub fn number_of(met: &Met, serial: u64) -> u64
    requires { AreNumbered met.now }
    ensures { result ≡ object_number met.now.serials.items serial }
{
    match met.numbers.get(&serial) {
        Some(number) => *number,
        None => 1,
    }
}
