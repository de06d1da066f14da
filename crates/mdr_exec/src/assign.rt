// Values are stored.

ghost use Rattle.std.specs.Prelude.{◌≡◌, ◌<◌, true};
ghost use Rattle.mdr_core.specs.Code.{Code};
ghost use Rattle.mdr_core.specs.Folds.{lvalue_of, term_of};
ghost use Rattle.mdr_core.specs.Sound.{IsSound};
ghost use Rattle.mdr_meaning.specs.Bodies.{known_of};
ghost use Rattle.mdr_meaning.specs.Values.{wire_of};
ghost use Rattle.mdr_events.specs.Outcomes.{when_made, wired};
ghost use Rattle.mdr_events.specs.Values.{wires_of};
ghost use Rattle.mdr_exec.specs.Beginning.{came_of};
ghost use Rattle.mdr_exec.specs.Evaluation.{place_of};
ghost use Rattle.mdr_exec.specs.Executing.{Begins, BeginsAssigning};
ghost use Rattle.mdr_exec.specs.Holding.{is_running};
ghost use Rattle.mdr_exec.specs.Storing.{Puts, Stores, slot_named};

use crate::evaluate::{evaluated, located};
use crate::frame::Machine;
use crate::leave::go_on;
use mdr_core::{Expr, Items, Lval, Program, StopKind, Value};
use mdr_events::Memory;

/// A value is stored where a pointer says, if it was found.
pub(crate) fn stored<C: Memory>(
    memory: &mut C,
    place: Result<Value, StopKind>,
    value: Value,
) -> Result<(), StopKind>
    ensures { Stores C.accesses (wired place) (wire_of value) memory.old result memory.new }
{
    match place {
        Ok(pointer) => memory.store(pointer, value),
        Err(stop) => Err(stop),
    }
}

/// A value is stored in what an lvalue with an address names.
fn put_at<C: Memory>(
    program: &Program,
    memory: &mut C,
    slots: &[Value],
    p: &Lval,
    value: Value,
) -> Result<(), StopKind>
    requires { IsSound program.now }
    ensures { Stores C.accesses (place_of C.accesses memory.old (known_of program.now) (wires_of slots.now) (lvalue_of p.now)) (wire_of value) memory.old result memory.new }
{
    stored(memory, located(program, memory, slots, p), value)
}

/// The slot that an lvalue is.
fn slot_named(p: &Lval) -> Option<u32>
    ensures { result ≡ slot_named (lvalue_of p.now) }
{
    match p {
        Lval::Slot(i) => Some(*i),
        Lval::Object(_) => None,
        Lval::Global(_) => None,
        Lval::Deref(_) => None,
        Lval::Member(_, _) => None,
        Lval::Index(_, _) => None,
    }
}

/// A value is put where an lvalue says.
pub(crate) fn put<C: Memory>(
    program: &Program,
    memory: &mut C,
    slots: &mut Items<Value>,
    p: &Lval,
    value: Value,
) -> Result<(), StopKind>
    requires { IsSound program.now }
    ensures { Puts C.accesses program.now (lvalue_of p.now) (wire_of value) slots.old memory.old (when_made result) slots.new memory.new }
{
    match slot_named(p) {
        Some(i) => {
            slots.set(i as usize, value);
            Ok(())
        }
        None => put_at(program, memory, slots.as_slice(), p, value),
    }
}

/// An assignment whose value is known.
fn assign<C: Memory>(
    machine: &mut Machine,
    program: &Program,
    memory: &mut C,
    p: &Lval,
    value: Value,
) -> Option<StopKind>
    requires program { IsSound program.now }
    requires runs { is_running machine.old.front ≡ true }
    requires next { machine.old.top.next < 18446744073709551615 }
    ensures { BeginsAssigning C.accesses program.now machine.old memory.old (lvalue_of p.now) (wire_of value) (came_of result) machine.new memory.new }
{
    let done = put(program, memory, &mut machine.top.slots, p, value);
    match done {
        Ok(()) => {
            go_on(machine, machine.top.next + 1);
            None
        }
        Err(stop) => Some(stop),
    }
}

/// An assignment: the right side and then the left, or the first stop.
pub(crate) fn begin_assign<C: Memory>(
    machine: &mut Machine,
    program: &Program,
    memory: &mut C,
    p: &Lval,
    e: &Expr,
) -> Option<StopKind>
    requires program { IsSound program.now }
    requires runs { is_running machine.old.front ≡ true }
    requires next { machine.old.top.next < 18446744073709551615 }
    ensures { Begins C.accesses program.now machine.old memory.old (λ n. Code.Assign n (lvalue_of p.now) (term_of e.now)) (came_of result) machine.new memory.new }
{
    let value = evaluated(program, memory, machine.top.slots.as_slice(), e);
    match value {
        Ok(value) => assign(machine, program, memory, p, value),
        Err(stop) => Some(stop),
    }
}
