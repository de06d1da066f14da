// Values of code, and the same in messages.

ghost use Rattle.std.specs.Prelude.{◌≡◌, IfOk};
ghost use Rattle.mdr_events.specs.Values.{wires_of};
ghost use Rattle.mdr_meaning.specs.Values.{wire_of, wire_view};

use mdr_copy::wire_of;
use mdr_core::{Block, Items, OutOfMemory, Value, View};
use mdr_model::{Wire, WireView};
use std::alloc::Global;

fn view_of(view: WireView) -> View
    ensures { wire_view result ≡ view }
{
    View {
        block: Block {
            slot: 0,
            serial: view.serial,
        },
        first: view.first,
        ty: view.ty,
        count: view.count,
        index: view.index,
    }
}

/// A value of a message as code has it.
pub(crate) fn value_of(wire: Wire) -> Value
    ensures { wire_of result ≡ wire }
{
    match wire {
        Wire::Int(kind, n) => Value::Int(kind, n),
        Wire::Null => Value::Null,
        Wire::Ptr(view) => Value::Ptr(view_of(view)),
        Wire::Dead => Value::Dead,
        Wire::Fn(func) => Value::Fn(func),
        Wire::Lock(state) => Value::Lock(state),
        Wire::NoValue => Value::NoValue,
    }
}

pub(crate) fn values_of(alloc: Global, wires: &[Wire]) -> Result<Items<Value>, OutOfMemory>
    ensures { IfOk result (λ vs. wires_of vs ≡ wires.now) }
{
    let mut values = Items::new(alloc);
    for wire in wires {
        values.push(value_of(*wire))?;
    }
    Ok(values)
}

pub(crate) fn wires_of(alloc: Global, values: &[Value]) -> Result<Items<Wire>, OutOfMemory>
    ensures { IfOk result (λ ws. ws ≡ wires_of values.now) }
{
    let mut wires = Items::new(alloc);
    for value in values {
        wires.push(wire_of(*value))?;
    }
    Ok(wires)
}
