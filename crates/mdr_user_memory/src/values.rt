// Values of messages, as code has them.

ghost use Rattle.std.specs.Prelude.{◌≡◌, map, IfOk};
ghost use Rattle.mdr_meaning.specs.Fit.{view_of};
ghost use Rattle.mdr_model.specs.Values.{value_of};

use mdr_core::{Block, Items, OutOfMemory, Value, View};
use mdr_model::{Wire, WireView};
use std::alloc::Global;

fn view_of(view: WireView) -> View
    ensures { result ≡ view_of view }
{
    View {
        block: Block {
            slot: 0,
            serial: view.serial,
        },
        first: view.first,
        ty: view.ty,
        count: view.count,
        index: view.index,
    }
}

/// A value of a message as code has it: a pointer names its block by the serial alone, and its slot says nothing.
pub fn value_of(wire: Wire) -> Value
    ensures { result ≡ value_of wire }
{
    match wire {
        Wire::Int(kind, n) => Value::Int(kind, n),
        Wire::Null => Value::Null,
        Wire::Ptr(view) => Value::Ptr(view_of(view)),
        Wire::Dead => Value::Dead,
        Wire::Fn(func) => Value::Fn(func),
        Wire::Lock(state) => Value::Lock(state),
        Wire::NoValue => Value::NoValue,
    }
}

pub(crate) fn values_of(alloc: Global, wires: &[Wire]) -> Result<Items<Value>, OutOfMemory>
    ensures { IfOk result (λ vs. vs ≡ map value_of wires.now) }
{
    let mut values = Items::new(alloc);
    for wire in wires {
        values.push(value_of(*wire))?;
    }
    Ok(values)
}
