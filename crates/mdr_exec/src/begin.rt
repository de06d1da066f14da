// Statements begin, each with its tick.

ghost use Rattle.std.specs.Prelude.{◌≡◌, ◌<◌, true, IfOk, OnOk, None, Some};
ghost use Rattle.std.specs.Option.{option_copied};
ghost use Rattle.mdr_core.specs.declared.program.Program.{Program as AnyProgram};
ghost use Rattle.mdr_core.specs.Code.{Code, Codes, Way};
ghost use Rattle.mdr_core.specs.Folds.{term_of, test_of};
ghost use Rattle.mdr_core.specs.Sound.{IsSound};
ghost use Rattle.mdr_meaning.specs.Sides.{Side as AnySide, flow_of};
ghost use Rattle.mdr_events.specs.Steps.{Goes};
ghost use Rattle.mdr_exec.specs.Beginning.{branch, came_of};
ghost use Rattle.mdr_exec.specs.Executing.{Begins, BeginsIf, BeginsLoop, BeginsOnEach, HoldsSame, StandsAt};
ghost use Rattle.mdr_exec.specs.Holding.{flow_as, is_running};

use crate::evaluate::evaluated;
use crate::frame::{Flow, Machine};
use crate::leave::go_past;
use crate::places::Part;
use crate::step::enter;
use crate::values::is_true;
use mdr_core::{Expr, Kind, Program, StopKind, Value};
use mdr_events::Memory;
use std::alloc::{AllocError, Global};

fn branch(holds: bool) -> Part
    ensures { result ≡ branch holds }
{
    if holds { Part::One } else { Part::Other }
}

/// An `if`: one of its lists is entered, or its test stops.
pub(crate) fn begin_if<C: Memory>(
    machine: &mut Machine,
    alloc: Global,
    program: &Program,
    memory: &C,
    test: &Expr,
) -> Result<Option<StopKind>, AllocError>
    requires program { IsSound program.now }
    requires runs { is_running machine.old.front ≡ true }
    requires next { machine.old.top.next < 18446744073709551615 }
    ensures { IfOk result (λ r. BeginsIf C.accesses program.now machine.old memory.now (term_of test.now) (came_of r) machine.new memory.now) }
{
    let value = evaluated(program, memory, machine.top.slots.as_slice(), test);
    match value {
        Ok(value) => {
            enter(machine, alloc, branch(is_true(value)))?;
            Ok(None)
        }
        Err(stop) => Ok(Some(stop)),
    }
}

/// The test of a loop: its body is entered, or what follows it comes, or its test stops.
fn begin_turn<C: Memory>(
    machine: &mut Machine,
    alloc: Global,
    program: &Program,
    memory: &C,
    test: &Expr,
) -> Result<Option<StopKind>, AllocError>
    requires program { IsSound program.now }
    requires runs { is_running machine.old.front ≡ true }
    requires next { machine.old.top.next < 18446744073709551615 }
    ensures { IfOk result (λ r. BeginsLoop C.accesses program.now machine.old memory.now (term_of test.now) (came_of r) machine.new memory.now) }
{
    let value = evaluated(program, memory, machine.top.slots.as_slice(), test);
    match value {
        Ok(value) => {
            if is_true(value) {
                enter(machine, alloc, Part::Body)?;
                Ok(None)
            } else {
                go_past(machine, Flow::Ends, machine.top.next + 1);
                Ok(None)
            }
        }
        Err(stop) => Ok(Some(stop)),
    }
}

/// A loop, whose missing test holds.
pub(crate) fn begin_loop<C: Memory>(
    machine: &mut Machine,
    alloc: Global,
    program: &Program,
    memory: &C,
    test: Option<&Expr>,
) -> Result<Option<StopKind>, AllocError>
    requires program { IsSound program.now }
    requires runs { is_running machine.old.front ≡ true }
    requires next { machine.old.top.next < 18446744073709551615 }
    ensures { IfOk result (λ r. BeginsLoop C.accesses program.now machine.old memory.now (test_of (option_copied test.entry)) (came_of r) machine.new memory.now) }
{
    match test {
        Some(test) => {
            let came = begin_turn(machine, alloc, program, memory, test)?;
            Ok(came)
        }
        None => {
            let came = begin_turn(
                machine,
                alloc,
                program,
                memory,
                &Expr::Lit(Value::Int(Kind::S32, 1)),
            )?;
            Ok(came)
        }
    }
}

/// A `return` with a value: all blocks of the function are left, or the value's expression stops.
pub(crate) fn begin_return_value<C: Memory>(
    machine: &mut Machine,
    program: &Program,
    memory: &C,
    e: &Expr,
) -> Option<StopKind>
    requires program { IsSound program.now }
    requires runs { is_running machine.old.front ≡ true }
    requires next { machine.old.top.next < 18446744073709551615 }
    ensures { Begins C.accesses program.now machine.old memory.now (λ n. Code.Return n (Some (term_of e.now))) (came_of result) machine.new memory.now }
{
    let value = evaluated(program, memory, machine.top.slots.as_slice(), e);
    match value {
        Ok(value) => {
            go_past(machine, Flow::Returns(value), machine.top.next + 1);
            None
        }
        Err(stop) => Some(stop),
    }
}

/// A `return` without a value.
pub(crate) fn begin_return<C: Memory>(machine: &mut Machine, memory: &C)
    requires runs { is_running machine.old.front ≡ true }
    requires next { machine.old.top.next < 18446744073709551615 }
    ensures { (program : AnyProgram) → BeginsOnEach C.accesses program machine.old memory.now (λ n. Code.Return n None) (λ p. Goes) machine.new memory.now }
{
    go_past(machine, Flow::Returns(Value::NoValue), machine.top.next + 1);
}

/// A `break`, a `continue` or an empty statement.
pub(crate) fn begin_jump<C: Memory>(machine: &mut Machine, memory: &C, flow: Flow)
    requires runs { is_running machine.old.front ≡ true }
    requires next { machine.old.top.next < 18446744073709551615 }
    ensures { (program : AnyProgram) (way : Way) → flow_as flow ≡ flow_of way → BeginsOnEach C.accesses program machine.old memory.now (λ n. Code.Jump n way) (λ p. Goes) machine.new memory.now }
{
    go_past(machine, flow, machine.top.next + 1);
}

/// A block, which takes no tick.
pub(crate) fn begin_block(machine: &mut Machine, alloc: Global) -> Result<(), AllocError>
    requires runs { is_running machine.old.front ≡ true }
    requires next { machine.old.top.next < 18446744073709551615 }
    ensures { OnOk result ((program : AnyProgram) (side : AnySide) (body : Codes) → StandsAt program machine.old (Code.Block body) → HoldsSame side program machine.old machine.new) }
{
    enter(machine, alloc, Part::Inner)?;
    Ok(())
}
