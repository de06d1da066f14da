// Objects of locals die, and functions end.

ghost use Rattle.std.specs.Prelude.{◌≡◌, [], MatchOption};
ghost use Rattle.std.specs.List.{list_any};
ghost use Rattle.std.specs.Option.{option_map};
ghost use Rattle.mdr_meaning.specs.Lives.{after_deaths, is_into, returned};
ghost use Rattle.mdr_meaning.specs.Values.{wire_of};
ghost use Rattle.mdr_events.specs.Values.{wires_of};
ghost use Rattle.mdr_exec.specs.declared.frame.Front.TheVariants as front;
ghost use Rattle.mdr_exec.specs.Closing.{asked_to_die, asks_on};
ghost use Rattle.mdr_exec.specs.Holding.{flow_as};
ghost use Rattle.mdr_exec.specs.Unwinding.{dying_came, dying_memory, flow_after};
ghost use Rattle.mdr_exec.specs.Went.{Dies, EndsWith, StillHolds};

use crate::frame::{Flow, Front, Machine, Side, Suspended, Until};
use crate::leave::last_off;
use mdr_core::{Items, Value};
use mdr_events::Memory;
use std::alloc::Global;
use std::mem;

/// Whether births and deaths of objects are asked for.
pub(crate) fn asks_on(side: Side) -> bool
    ensures { result ≡ asks_on side }
{
    match side {
        Side::User => true,
        Side::Kernel => false,
        Side::Whole => false,
    }
}

/// What a function's end gives.
fn returned(flow: Flow) -> Value
    ensures { wire_of result ≡ returned (flow_as flow) }
{
    match flow {
        Flow::Returns(value) => value,
        Flow::Ends => Value::NoValue,
        Flow::Breaks => Value::NoValue,
        Flow::Continues => Value::NoValue,
    }
}

// ---- what outlives objects

fn is_into(serial: u64, value: Value) -> bool
    ensures { result ≡ is_into serial (wire_of value) }
{
    match value {
        Value::Ptr(view) => view.block.serial == serial,
        Value::Int(_, _) => false,
        Value::Null => false,
        Value::Dead => false,
        Value::Fn(_) => false,
        Value::Lock(_) => false,
        Value::NoValue => false,
    }
}

/// Whether one of the pointers points into the object with a serial.
fn is_among(serial: u64, dead: &[Value]) -> bool
    ensures { result ≡ list_any (λ p. is_into serial (wire_of p)) dead.now }
{
    dead.iter().any(|p| is_into(serial, *p))
}

/// A value when these objects have died: a pointer into one of them is dead.
fn after_deaths(dead: &[Value], value: Value) -> Value
    ensures { wire_of result ≡ after_deaths (wires_of dead.now) (wire_of value) }
{
    match value {
        Value::Ptr(view) => {
            if is_among(view.block.serial, dead) {
                Value::Dead
            } else {
                Value::Ptr(view)
            }
        }
        Value::Int(kind, n) => Value::Int(kind, n),
        Value::Null => Value::Null,
        Value::Dead => Value::Dead,
        Value::Fn(func) => Value::Fn(func),
        Value::Lock(state) => Value::Lock(state),
        Value::NoValue => Value::NoValue,
    }
}

fn flow_after(dead: &[Value], flow: Flow) -> Flow
    ensures { flow_as result ≡ flow_after (wires_of dead.now) (flow_as flow) }
{
    match flow {
        Flow::Returns(value) => Flow::Returns(after_deaths(dead, value)),
        Flow::Ends => Flow::Ends,
        Flow::Breaks => Flow::Breaks,
        Flow::Continues => Flow::Continues,
    }
}

/// The objects of the innermost block die, with which a block or a function ends, and a value that is returned and
/// points into one of them is a dead pointer. Where the other half says so, the pointers to them are given, and a
/// question is open.
pub(crate) fn die<C: Memory>(
    machine: &mut Machine,
    alloc: Global,
    memory: &mut C,
    flow: Flow,
) -> Option<Items<Value>>
    requires unwinds { machine.old.front ≡ front.Unwinds flow }
    ensures asked { option_map wires_of result ≡ asked_to_die (asks_on machine.old.side) (wires_of machine.old.top.born) }
    ensures dead { memory.new ≡ dying_memory C.accesses (asks_on machine.old.side) (wires_of machine.old.top.born) memory.old }
    ensures step { Dies C.accesses machine.old memory.old (flow_as flow) (λ asks p. dying_came asks p (wires_of machine.old.top.born)) machine.new memory.new }
{
    let born = mem::replace(&mut machine.top.born, Items::new(alloc));
    if born.is_empty() {
        return None;
    }
    let left = flow_after(born.as_slice(), flow);
    if asks_on(machine.side) {
        machine.front = Front::WaitsDeath(left);
        return Some(born);
    }
    machine.front = Front::Unwinds(left);
    memory.death(born.as_slice());
    None
}

/// Ends the function that runs, in which no object is left. Where it was called its caller goes on with its value. Where
/// it was started the value is given, and what it was started over is as it was.
pub(crate) fn end_function(machine: &mut Machine, alloc: Global, flow: Flow) -> Option<Value>
    requires unwinds { machine.old.front ≡ front.Unwinds flow }
    requires outside { machine.old.top.path ≡ [] }
    requires none { machine.old.top.born ≡ [] }
    requires started { machine.old.below ≡ [] → ⊥ }
    ensures { MatchOption result (StillHolds machine.old machine.new) (λ v. EndsWith machine.old (wire_of v) machine.new) }
{
    match last_off(alloc, &mut machine.below) {
        Some(Suspended { frame, until }) => {
            machine.top = frame;
            match until {
                Until::Call => {
                    machine.front = Front::Comes(returned(flow));
                    None
                }
                Until::Started(front) => {
                    machine.front = front;
                    Some(returned(flow))
                }
            }
        }
        None => None,
    }
}
