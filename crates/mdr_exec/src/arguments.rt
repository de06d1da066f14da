// The values of arguments.

ghost use Rattle.std.specs.Prelude.{◌≡◌, IfOk, map};
ghost use Rattle.mdr_core.specs.Folds.{term_of};
ghost use Rattle.mdr_core.specs.Sound.{IsSound};
ghost use Rattle.mdr_meaning.specs.Bodies.{known_of};
ghost use Rattle.mdr_meaning.specs.Values.{first_of, rest_of, wire_of};
ghost use Rattle.mdr_events.specs.Outcomes.{all_wired};
ghost use Rattle.mdr_events.specs.Values.{wires_of};
ghost use Rattle.mdr_exec.specs.Evaluation.{values_of};

use crate::evaluate::evaluated;
use mdr_core::{Expr, Items, Program, StopKind, Value};
use mdr_events::Memory;
use std::alloc::{AllocError, Global};

/// The values of a list of expressions, or the first stop from left to right.
pub(crate) fn values<C: Memory>(
    alloc: Global,
    program: &Program,
    memory: &C,
    slots: &[Value],
    es: &[Expr],
) -> Result<Result<Items<Value>, StopKind>, AllocError>
    requires { IsSound program.now }
    ensures { IfOk result (λ r. all_wired r ≡ values_of C.accesses memory.now (known_of program.now) (wires_of slots.now) (map term_of es.now)) }
{
    let mut done = Items::new(alloc);
    for e in es {
        match evaluated(program, memory, slots, e) {
            Ok(value) => done.push(value)?,
            Err(stop) => return Ok(Err(stop)),
        }
    }
    Ok(Ok(done))
}

/// All values but the first.
pub(crate) fn rest(alloc: Global, values: &[Value]) -> Result<Items<Value>, AllocError>
    ensures { IfOk result (λ vs. wires_of vs ≡ rest_of (wires_of values.now)) }
{
    match values.split_first() {
        Some((_, rest)) => Items::from_slice(alloc, rest),
        None => Ok(Items::new(alloc)),
    }
}

/// The second value; where there is none it has no value.
pub(crate) fn second(values: &[Value]) -> Value
    ensures { wire_of result ≡ first_of (rest_of (wires_of values.now)) }
{
    match values.get(1) {
        Some(value) => *value,
        None => Value::NoValue,
    }
}
