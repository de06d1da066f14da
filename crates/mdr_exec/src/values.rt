// Values in hand.

ghost use Rattle.std.specs.Prelude.{◌≡◌};
ghost use Rattle.mdr_meaning.specs.Expressions.{slot_of};
ghost use Rattle.mdr_meaning.specs.Values.{at_kind, first_of, integer, is_true, stop_of, truth, wire_of};
ghost use Rattle.mdr_events.specs.Outcomes.{wired};
ghost use Rattle.mdr_events.specs.Values.{wires_of};

use mdr_core::{Kind, StopKind, Undefined, Value};

/// The number of an integer value; no other is asked for its number.
pub(crate) fn integer(value: Value) -> i128
    ensures { result ≡ integer (wire_of value) }
{
    match value {
        Value::Int(_, n) => n,
        _ => 0,
    }
}

/// Whether a value compares unequal to 0.
pub(crate) fn is_true(value: Value) -> bool
    ensures { result ≡ is_true (wire_of value) }
{
    match value {
        Value::Int(_, n) => n != 0,
        Value::Null => false,
        Value::Ptr(_) => true,
        Value::Dead => true,
        Value::Fn(_) => true,
        Value::Lock(_) => true,
        Value::NoValue => true,
    }
}

/// The `int` 1 or 0.
pub(crate) fn truth(holds: bool) -> Value
    ensures { wire_of result ≡ truth holds }
{
    if holds {
        Value::Int(Kind::S32, 1)
    } else {
        Value::Int(Kind::S32, 0)
    }
}

fn stop_of(why: Undefined) -> StopKind
    ensures { result ≡ stop_of why }
{
    match why {
        Undefined::Overflow => StopKind::Overflow,
        Undefined::DivZero => StopKind::DivZero,
        Undefined::Shift => StopKind::Shift,
    }
}

/// What an operator comes to at a kind.
pub(crate) fn at_kind(kind: Kind, computed: Result<i128, Undefined>) -> Result<Value, StopKind>
    ensures { wired result ≡ at_kind kind computed }
{
    match computed {
        Ok(n) => Ok(Value::Int(kind, n)),
        Err(why) => Err(stop_of(why)),
    }
}

/// What a slot holds.
#[tactic(auto, unfolding(mdr_meaning::specs::Expressions::slot_of))]
pub(crate) fn slot_value(slots: &[Value], i: usize) -> Value
    ensures { wire_of result ≡ slot_of (wires_of slots.now) i }
{
    match slots.get(i) {
        Some(value) => *value,
        None => Value::NoValue,
    }
}

/// The same, where code names the slot.
pub(crate) fn slot_at(slots: &[Value], i: u32) -> Value
    ensures { wire_of result ≡ slot_of (wires_of slots.now) i }
{
    slot_value(slots, i as usize)
}

/// The first result; a call that has none has no value.
pub(crate) fn first(results: &[Value]) -> Value
    ensures { wire_of result ≡ first_of (wires_of results.now) }
{
    match results.first() {
        Some(value) => *value,
        None => Value::NoValue,
    }
}
