// Values by their wires. A pointer's slot is where its block lies now.

ghost use Rattle.std.specs.Prelude.{◌≡◌, IfOk};
ghost use Rattle.mdr_events.specs.Values.{wires_of};
ghost use Rattle.mdr_meaning.specs.Values.{wire_of, wire_view};

use mdr_copy::wire_of;
use mdr_core::{Block, Items, OutOfMemory, Value, View};
use mdr_events::Memory;
use mdr_model::{Wire, WireView};
use mdr_world::World;
use std::alloc::Global;

fn view_of(world: &World, p: WireView) -> View
    ensures { wire_view result ≡ p }
{
    let slot = world.slot(p.serial);
    View {
        block: Block {
            slot,
            serial: p.serial,
        },
        first: p.first,
        ty: p.ty,
        count: p.count,
        index: p.index,
    }
}

/// The value with a wire.
pub fn value_of(world: &World, wire: Wire) -> Value
    ensures { wire_of result ≡ wire }
{
    match wire {
        Wire::Int(kind, n) => Value::Int(kind, n),
        Wire::Null => Value::Null,
        Wire::Ptr(p) => Value::Ptr(view_of(world, p)),
        Wire::Dead => Value::Dead,
        Wire::Fn(func) => Value::Fn(func),
        Wire::Lock(state) => Value::Lock(state),
        Wire::NoValue => Value::NoValue,
    }
}

/// The values with these wires.
pub fn values_of(alloc: Global, world: &World, wires: &[Wire]) -> Result<Items<Value>, OutOfMemory>
    ensures { IfOk result (λ vs. wires_of vs ≡ wires.now) }
{
    let mut values = Items::new(alloc);
    for wire in wires {
        values.push(value_of(world, *wire))?;
    }
    Ok(values)
}

/// The wires of values.
pub fn wires_of(alloc: Global, values: &[Value]) -> Result<Items<Wire>, OutOfMemory>
    ensures { IfOk result (λ ws. ws ≡ wires_of values.now) }
{
    let mut wires = Items::new(alloc);
    for value in values {
        wires.push(wire_of(*value))?;
    }
    Ok(wires)
}
