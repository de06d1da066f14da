// A call is made.

ghost use Rattle.std.specs.Prelude.{◌≡◌, ◌<◌, true, IfOk, OnOk, Ok};
ghost use Rattle.mdr_core.specs.declared.program.Program.{Program as AnyProgram};
ghost use Rattle.mdr_core.specs.Code.{Code, Goal};
ghost use Rattle.mdr_core.specs.Folds.{call_of};
ghost use Rattle.mdr_core.specs.Sound.{IsSound};
ghost use Rattle.mdr_events.specs.Steps.{Crosses};
ghost use Rattle.mdr_events.specs.Values.{wires_of};
ghost use Rattle.mdr_exec.specs.Events.{came_as, came_with};
ghost use Rattle.mdr_exec.specs.Calling.{Entering, IsShallow};
ghost use Rattle.mdr_exec.specs.Executing.{ExecutesOwn};
ghost use Rattle.mdr_exec.specs.Halves.{HoldsCall, awaits, body_in, calling_as};
ghost use Rattle.mdr_exec.specs.Holding.{held_of, is_running};
ghost use Rattle.mdr_exec.specs.Leaving.{here_in};
ghost use Rattle.mdr_exec.specs.StatementSteps.{call_came};

use crate::calling::{Calling, Calls, called};
use crate::event::Outcome;
use crate::frame::{Frame, Front, Machine, Suspended, Until};
use crate::run::slots_of;
use mdr_core::{At, CallForm, Half, Items, Program, StopKind, Value};
use mdr_events::{Asked, Crossing, Memory};
use std::alloc::{AllocError, Global};
use std::mem;

/// The body of a function is entered.
fn enter_body(
    machine: &mut Machine,
    alloc: Global,
    program: &Program,
    func: u32,
    args: &[Value],
) -> Result<(), AllocError>
    requires next { machine.old.top.next < 18446744073709551615 }
    requires shallow { machine.old.top.depth < 256 }
    ensures { OnOk result (HoldsCall program.now machine.old (Entering func (wires_of args.now) (body_in program.now func)) (held_of program.now machine.new)) }
{
    let slots = slots_of(alloc, program, func, args)?;
    let top = Frame {
        func,
        depth: machine.top.depth + 1,
        path: Items::new(alloc),
        next: 0,
        slots,
        born: Items::new(alloc),
    };
    machine.top.next = machine.top.next + 1;
    let frame = mem::replace(&mut machine.top, top);
    machine.front = Front::Enters;
    machine.below.push(Suspended {
        frame,
        until: Until::Call,
    })?;
    Ok(())
}

/// The answer of a question is the call's value.
fn await_value(machine: &mut Machine)
    requires next { machine.old.top.next < 18446744073709551615 }
    ensures { (program : AnyProgram) → held_of program machine.new ≡ awaits program machine.old }
{
    machine.top.next = machine.top.next + 1;
    machine.front = Front::WaitsValue;
}

fn crossing(machine: &Machine, at: At, func: u32, args: Items<Value>) -> Outcome
    ensures { came_with result ≡ Crosses at func (wires_of args) machine.now.top.depth }
{
    Outcome::Cross(Crossing {
        at,
        func,
        args,
        depth: machine.top.depth,
    })
}

/// What a call comes to is done.
fn make_call(
    machine: &mut Machine,
    alloc: Global,
    program: &Program,
    at: At,
    calling: Calling,
) -> Result<Option<Outcome>, AllocError>
    requires next { machine.old.top.next < 18446744073709551615 }
    requires shallow { IsShallow machine.old.top.depth (Ok (calling_as program.now calling)) }
    ensures comes { IfOk result (λ e. came_as e ≡ call_came (here_in program.now machine.old) at (Ok (calling_as program.now calling))) }
    ensures holds { OnOk result (HoldsCall program.now machine.old (calling_as program.now calling) (held_of program.now machine.new)) }
{
    match calling {
        Calling::Entering(func, args) => {
            enter_body(machine, alloc, program, func, args.as_slice())?;
            Ok(None)
        }
        Calling::Crossing(func, args) => {
            let event = crossing(machine, at, func, args);
            await_value(machine);
            Ok(Some(event))
        }
        Calling::Asking(asked) => {
            await_value(machine);
            Ok(Some(Outcome::Service(asked)))
        }
    }
}

/// A call: its function's body is entered, or the call is asked for, or it stops.
pub(crate) fn begin_call<C: Memory>(
    machine: &mut Machine,
    alloc: Global,
    program: &Program,
    halves: &[Half],
    memory: &C,
    form: &CallForm,
    number: u32,
) -> Result<Option<Outcome>, AllocError>
    requires program { IsSound program.now }
    requires runs { is_running machine.old.front ≡ true }
    requires next { machine.old.top.next < 18446744073709551615 }
    ensures { IfOk result (λ e. (goal : Goal) → ExecutesOwn C.accesses halves.now program.now machine.old memory.now (Code.Call number goal (call_of form.now)) (came_as e) machine.new memory.now) }
{
    let at = At {
        func: machine.top.func,
        stmt: number,
    };
    let calls = Calls {
        machine: &*machine,
        program,
        halves,
    };
    let calling = called(calls, alloc, memory, form, at)?;
    match calling {
        Ok(calling) => {
            let event = make_call(machine, alloc, program, at, calling)?;
            Ok(event)
        }
        Err(stop) => Ok(Some(Outcome::Stop(stop, at))),
    }
}
