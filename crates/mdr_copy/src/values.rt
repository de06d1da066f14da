// Values: what they are in messages, and which are the same.

ghost use Rattle.std.specs.Prelude.{◌≡◌};
ghost use Rattle.mdr_meaning.specs.Values.{wire_view, wire_of};
ghost use Rattle.mdr_model.specs.Values.{lock_number, is_same_view, is_same};

use mdr_core::{LockState, Value, View};
use mdr_model::{Wire, WireView};

fn wire_view(view: View) -> WireView
    ensures { result ≡ wire_view view }
{
    WireView {
        serial: view.block.serial,
        first: view.first,
        ty: view.ty,
        count: view.count,
        index: view.index,
    }
}

/// A value of a program's text, whose pointers name globals.
pub fn wire_of(value: Value) -> Wire
    ensures { result ≡ wire_of value }
{
    match value {
        Value::Int(kind, n) => Wire::Int(kind, n),
        Value::Null => Wire::Null,
        Value::Ptr(view) => Wire::Ptr(wire_view(view)),
        Value::Dead => Wire::Dead,
        Value::Fn(func) => Wire::Fn(func),
        Value::Lock(state) => Wire::Lock(state),
        Value::NoValue => Wire::NoValue,
    }
}

fn lock_number(state: LockState) -> u32
    ensures { result ≡ lock_number state }
{
    match state {
        LockState::Free => 0,
        LockState::Spin => 1,
        LockState::Sleep => 2,
    }
}

#[tactic(auto, unfolding(mdr_model::specs::Values::is_same_view))]
fn is_same_view(one: WireView, other: WireView) -> bool
    ensures { result ≡ is_same_view one other }
{
    one.serial == other.serial
        && one.first == other.first
        && one.ty == other.ty
        && one.count == other.count
        && one.index == other.index
}

/// Whether two values are the same: in their kind, and in what they hold.
#[tactic(auto, unfolding(mdr_model::specs::Values::is_same))]
pub fn is_same(one: Wire, other: Wire) -> bool
    ensures { result ≡ is_same one other }
{
    match (one, other) {
        (Wire::Int(k, n), Wire::Int(l, m)) => k.number() == l.number() && n == m,
        (Wire::Null, Wire::Null) => true,
        (Wire::Ptr(p), Wire::Ptr(q)) => is_same_view(p, q),
        (Wire::Dead, Wire::Dead) => true,
        (Wire::Fn(f), Wire::Fn(g)) => f == g,
        (Wire::Lock(s), Wire::Lock(t)) => lock_number(s) == lock_number(t),
        (Wire::NoValue, Wire::NoValue) => true,
        _ => false,
    }
}
