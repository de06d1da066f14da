// The value of a call, received as by assignment (C99 6.5.16.1, 6.9.1, paragraph 12).

ghost use Rattle.std.specs.Prelude.{◌≡◌, option_copied};
ghost use Rattle.mdr_meaning.specs.Bodies.{known_of};
ghost use Rattle.mdr_meaning.specs.Calls.{received};
ghost use Rattle.mdr_meaning.specs.Pointers.{become};
ghost use Rattle.mdr_meaning.specs.Values.{wire_of};
ghost use Rattle.mdr_events.specs.Outcomes.{wired};
ghost use Rattle.mdr_exec.specs.Receiving.{is_no_value, of_kind};

use crate::pointers::cast_value;
use mdr_arith::conv;
use mdr_core::{Kind, Program, StopKind, Ty, Value};

fn at_kind(kind: Kind, value: Value) -> Value
    ensures { wire_of result ≡ of_kind kind (wire_of value) }
{
    match value {
        Value::Int(_, n) => Value::Int(kind, conv(kind, n)),
        Value::Null => Value::Null,
        Value::Ptr(view) => Value::Ptr(view),
        Value::Dead => Value::Dead,
        Value::Fn(func) => Value::Fn(func),
        Value::Lock(state) => Value::Lock(state),
        Value::NoValue => Value::NoValue,
    }
}

/// A value converted as by assignment to an object of a type.
fn as_assigned(program: &Program, ty: &Ty, value: Value) -> Result<Value, StopKind>
    ensures { wired result ≡ become (known_of program.now) ty.now (wire_of value) }
{
    match ty {
        Ty::Int(kind) => Ok(at_kind(*kind, value)),
        Ty::Ptr(target) => cast_value(program, target.get(), value),
        Ty::Lock | Ty::Struct(_) | Ty::VoidPtr | Ty::Fun(_) | Ty::Void => Ok(value),
    }
}

fn is_no_value(value: Value) -> bool
    ensures { result ≡ is_no_value (wire_of value) }
{
    match value {
        Value::NoValue => true,
        Value::Int(_, _) => false,
        Value::Null => false,
        Value::Ptr(_) => false,
        Value::Dead => false,
        Value::Fn(_) => false,
        Value::Lock(_) => false,
    }
}

/// The value of a call that is used must be there, and converts as by assignment.
pub(crate) fn received(program: &Program, ty: Option<&Ty>, value: Value) -> Result<Value, StopKind>
    ensures { wired result ≡ received (known_of program.now) (option_copied ty.entry) (wire_of value) }
{
    if is_no_value(value) {
        return Err(StopKind::NoValue);
    }
    match ty {
        Some(ty) => as_assigned(program, ty, value),
        None => Ok(value),
    }
}
