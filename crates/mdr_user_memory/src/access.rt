// What the user half's code does to cells that it may touch.

ghost use Rattle.std.specs.Prelude.{◌≡◌, nat_lt, option_map, OnErr};
ghost use Rattle.mdr_events.specs.Outcomes.{when_made, wired};
ghost use Rattle.mdr_meaning.specs.Values.{wire_of, wire_view};
ghost use Rattle.mdr_model.specs.Memory.{cell_of, is_live, loaded, loaded_cell, loaded_value, normal, reached, reached_by};
ghost use Rattle.mdr_model.specs.Sets.{is_in};
ghost use Rattle.mdr_plain.specs.Storage.{fresh};
ghost use Rattle.mdr_user_memory.specs.Copied.{copy_accesses};
ghost use Rattle.mdr_user_memory.specs.Spots.{spot_in};

use crate::seen_memory::SeenMemory;
use crate::spot::Spot;
use mdr_core::{StopKind, Value, View};

/// The tests of an access in their order.
fn reached_view(memory: &SeenMemory, p: View) -> Result<Spot, StopKind>
    ensures { spot_in result ≡ reached_by (is_live memory.now.memory p.block.serial) (nat_lt p.index p.count) (is_in memory.now.view (cell_of (wire_view p))) (cell_of (wire_view p)) }
{
    let index = p.first as usize + p.index as usize;
    if !memory.is_live(p.block.serial) {
        Err(StopKind::Dead)
    } else if p.index >= p.count {
        Err(StopKind::Bounds)
    } else if !memory.view().has(p.block.serial, index) {
        Err(StopKind::Annotation)
    } else {
        Ok(Spot {
            serial: p.block.serial,
            index,
        })
    }
}

/// The cell that an access through a pointer touches.
#[tactic(auto, unfolding(mdr_model::specs::Memory::reached))]
fn reached(memory: &SeenMemory, pointer: Value) -> Result<Spot, StopKind>
    ensures { spot_in result ≡ reached (is_in memory.now.view) memory.now.memory (wire_of pointer) }
{
    match pointer {
        Value::Ptr(p) => reached_view(memory, p),
        Value::Dead => Err(StopKind::Dead),
        Value::Int(_, _) => Err(StopKind::Null),
        Value::Null => Err(StopKind::Null),
        Value::Fn(_) => Err(StopKind::Null),
        Value::Lock(_) => Err(StopKind::Null),
        Value::NoValue => Err(StopKind::Null),
    }
}

/// A dead pointer isn't loaded.
fn loadable(value: Value) -> Result<Value, StopKind>
    ensures { wired result ≡ loaded_value (wire_of value) }
{
    match value {
        Value::Dead => Err(StopKind::Dead),
        _ => Ok(value),
    }
}

fn loaded_cell(held: Option<Value>) -> Result<Value, StopKind>
    ensures { wired result ≡ loaded_cell (option_map wire_of held) }
{
    match held {
        Some(value) => loadable(value),
        None => Err(StopKind::Dead),
    }
}

/// What is loaded through a pointer.
#[tactic(auto, unfolding(mdr_model::specs::Memory::loaded))]
pub(crate) fn loaded(memory: &SeenMemory, pointer: Value) -> Result<Value, StopKind>
    ensures { wired result ≡ loaded (is_in memory.now.view) memory.now.memory (wire_of pointer) }
{
    match reached(memory, pointer) {
        Ok(spot) => loaded_cell(memory.held(spot)),
        Err(kind) => Err(kind),
    }
}

/// A value as it is now: a pointer whose block isn't live is a dead one.
#[tactic(auto, unfolding(mdr_model::specs::Memory::normal))]
fn value_now(memory: &SeenMemory, value: Value) -> Value
    ensures { wire_of result ≡ normal memory.now.memory (wire_of value) }
{
    match value {
        Value::Ptr(p) => {
            if memory.is_live(p.block.serial) {
                value
            } else {
                Value::Dead
            }
        }
        _ => value,
    }
}

/// What a local's value is when it is read.
#[tactic(auto, unfolding(mdr_plain::specs::Storage::fresh))]
pub(crate) fn fresh(memory: &SeenMemory, value: Value) -> Result<Value, StopKind>
    ensures { wired result ≡ fresh memory.now.memory (wire_of value) }
{
    loadable(value_now(memory, value))
}

/// A value is stored through a pointer.
#[tactic(auto, unfolding(mdr_model::specs::Memory::stored))]
pub(crate) fn stored(memory: &mut SeenMemory, pointer: Value, value: Value) -> Result<(), StopKind>
    ensures made { copy_accesses.store memory.old (wire_of pointer) (wire_of value) ≡ when_made result memory.new }
    ensures kept { OnErr result (memory.new ≡ memory.old) }
{
    match reached(memory, pointer) {
        Ok(spot) => {
            memory.put(spot, value);
            Ok(())
        }
        Err(kind) => Err(kind),
    }
}
