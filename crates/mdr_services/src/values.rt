// Values of events, in which no slot is meant.

ghost use Rattle.std.specs.Prelude.{◌≡◌, IfOk, map};
ghost use Rattle.mdr_events.specs.Values.{wires_of};
ghost use Rattle.mdr_meaning.specs.Fit.{view_of};
ghost use Rattle.mdr_meaning.specs.Values.{wire_of, wire_view};
ghost use Rattle.mdr_model.specs.Values.{value_of};

use mdr_core::{Block, Items, Value, View};
use std::alloc::{AllocError, Global};

fn without_slot(view: View) -> View
    ensures { result ≡ view_of (wire_view view) }
{
    View {
        block: Block {
            slot: 0,
            serial: view.block.serial,
        },
        first: view.first,
        ty: view.ty,
        count: view.count,
        index: view.index,
    }
}

/// A value of an event.
pub(crate) fn event_value(value: Value) -> Value
    ensures { result ≡ value_of (wire_of value) }
{
    match value {
        Value::Int(kind, n) => Value::Int(kind, n),
        Value::Null => Value::Null,
        Value::Ptr(view) => Value::Ptr(without_slot(view)),
        Value::Dead => Value::Dead,
        Value::Fn(func) => Value::Fn(func),
        Value::Lock(state) => Value::Lock(state),
        Value::NoValue => Value::NoValue,
    }
}

/// Values of an event.
pub(crate) fn event_values(alloc: Global, values: &[Value]) -> Result<Items<Value>, AllocError>
    ensures { IfOk result (λ vs. vs ≡ map value_of (wires_of values.now)) }
{
    let mut noted = Items::new(alloc);
    for value in values {
        noted.push(event_value(*value))?;
    }
    Ok(noted)
}
