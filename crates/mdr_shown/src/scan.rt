// Which blocks are shown, and in which order.

ghost use Rattle.std.specs.Prelude.{◌≡◌, length, IfOk, OnOk, slice_get};
ghost use Rattle.mdr_events.specs.Values.{wires_of};
ghost use Rattle.mdr_meaning.specs.Values.{wire_of};
ghost use Rattle.mdr_plain.specs.Outcome.{cells_shown, met_in, scanned, shown_blocks, with_named};
ghost use Rattle.mdr_plain.specs.Scripts.{block_cells};
ghost use Rattle.mdr_shown.specs.Met.{AreNumbered};

use crate::met::{Met, globals, meet, serial_at};
use mdr_core::{OutOfMemory, Value};
use mdr_world::World;
use std::alloc::Global;

/// The block that a cell's value names.
fn meet_value(met: &mut Met, value: Value) -> Result<(), OutOfMemory>
    requires { AreNumbered met.old }
    ensures numbered { OnOk result (AreNumbered met.new) }
    ensures serials { OnOk result (met.new.serials.items ≡ with_named met.old.serials.items (wire_of value)) }
{
    match value {
        Value::Ptr(view) => meet(met, view.block.serial),
        Value::Int(_, _)
        | Value::Null
        | Value::Dead
        | Value::Fn(_)
        | Value::Lock(_)
        | Value::NoValue => Ok(()),
    }
}

fn meet_values(met: &mut Met, values: &[Value]) -> Result<(), OutOfMemory>
    requires { AreNumbered met.old }
    ensures numbered { OnOk result (AreNumbered met.new) }
    ensures serials { OnOk result (met.new.serials.items ≡ met_in met.old.serials.items (wires_of values.now)) }
{
    for value in values {
        meet_value(met, *value)?;
    }
    Ok(())
}

/// The blocks that the cells of a block name.
fn meet_cells(alloc: Global, world: &World, met: &mut Met, serial: u64) -> Result<(), OutOfMemory>
    requires { AreNumbered met.old }
    ensures numbered { OnOk result (AreNumbered met.new) }
    ensures serials { OnOk result (met.new.serials.items ≡ met_in met.old.serials.items (block_cells world.now.world.memory serial)) }
{
    let cells = world.cells(alloc, serial)?;
    meet_values(met, cells.as_slice())
}

/// The blocks that the cells of an object name, by its place in the list.
fn meet_object(alloc: Global, world: &World, met: &mut Met, i: u64) -> Result<(), OutOfMemory>
    requires { AreNumbered met.old }
    ensures numbered { OnOk result (AreNumbered met.new) }
    ensures serials { OnOk result (met.new.serials.items ≡ met_in met.old.serials.items (cells_shown world.now.world.memory (slice_get met.old.serials.items i))) }
{
    match serial_at(met, i) {
        Some(serial) => meet_cells(alloc, world, met, serial),
        None => Ok(()),
    }
}

fn scan(alloc: Global, world: &World, met: &mut Met) -> Result<(), OutOfMemory>
    requires { AreNumbered met.old }
    ensures numbered { OnOk result (AreNumbered met.new) }
    ensures serials { OnOk result (met.new.serials.items ≡ scanned world.now.world.memory (length world.now.world.memory) 0 met.old.serials.items) }
{
    let live = world.live();
    for i in 0..live {
        meet_object(alloc, world, met, i)?;
    }
    Ok(())
}

/// The blocks that are shown: the globals, and then each live block where it is met first.
#[tactic(auto, unfolding(mdr_plain::specs::Outcome::shown_blocks))]
pub fn shown(alloc: Global, world: &World) -> Result<Met, OutOfMemory>
    ensures numbered { IfOk result AreNumbered }
    ensures serials { IfOk result (λ met. met.serials.items ≡ shown_blocks world.now.program world.now.world.memory) }
{
    let count = world.program().globals.len();
    let mut met = globals(alloc, count)?;
    scan(alloc, world, &mut met)?;
    Ok(met)
}
