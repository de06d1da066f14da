// The arguments of a question.

ghost use Rattle.std.specs.Prelude.{◌≡◌, IfOk, map};
ghost use Rattle.mdr_events.specs.Values.{wires_of};
ghost use Rattle.mdr_meaning.specs.Values.{first_of, natural, natural_of, rest_of, wire_of};
ghost use Rattle.mdr_model.specs.Memory.{normal};
ghost use Rattle.mdr_plain.specs.Services.{function_named};

use mdr_core::{Items, Value};
use mdr_world::World;
use std::alloc::{AllocError, Global};

/// The arguments as they are now: a pointer whose block has died is a dead one.
pub(crate) fn as_now(
    alloc: Global,
    world: &World,
    args: &[Value],
) -> Result<Items<Value>, AllocError>
    ensures { IfOk result (λ vs. wires_of vs ≡ map (normal world.now.world.memory) (wires_of args.now)) }
{
    let mut values = Items::new(alloc);
    for arg in args {
        values.push(world.now(*arg))?;
    }
    Ok(values)
}

/// The first argument; where there is none it has no value.
pub(crate) fn first(args: &[Value]) -> Value
    ensures { wire_of result ≡ first_of (wires_of args.now) }
{
    match args.first() {
        Some(value) => *value,
        None => Value::NoValue,
    }
}

/// The second argument; where there is none it has no value.
pub(crate) fn second(args: &[Value]) -> Value
    ensures { wire_of result ≡ first_of (rest_of (wires_of args.now)) }
{
    match args.get(1) {
        Some(value) => *value,
        None => Value::NoValue,
    }
}

fn not_negative(n: i128) -> u128
    ensures { result ≡ natural_of n }
{
    if n < 0 { 0 } else { n as u128 }
}

/// The number of an integer where it isn't negative; of any other value 0.
pub(crate) fn natural(value: Value) -> u128
    ensures { result ≡ natural (wire_of value) }
{
    match value {
        Value::Int(_, n) => not_negative(n),
        Value::Null => 0,
        Value::Ptr(_) => 0,
        Value::Dead => 0,
        Value::Fn(_) => 0,
        Value::Lock(_) => 0,
        Value::NoValue => 0,
    }
}

/// The function that a value names.
pub(crate) fn function_named(value: Value) -> Option<u32>
    ensures { result ≡ function_named (wire_of value) }
{
    match value {
        Value::Fn(func) => Some(func),
        Value::Int(_, _) => None,
        Value::Null => None,
        Value::Ptr(_) => None,
        Value::Dead => None,
        Value::Lock(_) => None,
        Value::NoValue => None,
    }
}
