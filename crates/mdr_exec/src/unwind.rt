// Blocks, loops and functions are left, a step at a time.

ghost use Rattle.std.specs.Prelude.{◌≡◌, ◌&&◌, [], IfOk, not};
ghost use Rattle.mdr_core.specs.declared.program.Program.{Program as AnyProgram};
ghost use Rattle.mdr_meaning.specs.Sides.{Side as AnySide};
ghost use Rattle.mdr_events.specs.Values.{wires_of};
ghost use Rattle.mdr_exec.specs.declared.frame.Front.TheVariants as front;
ghost use Rattle.mdr_exec.specs.Holding.{block_of, flow_as};
ghost use Rattle.mdr_exec.specs.Leaving.{ending_by, is_loop};
ghost use Rattle.mdr_exec.specs.Places.{code_before};
ghost use Rattle.mdr_exec.specs.Unwinding.{is_return};
ghost use Rattle.mdr_exec.specs.Went.{Dies, LeavesBy, dies_in, inside, left_came};

use crate::close::{die, end_function};
use crate::frame::{Flow, Machine};
use crate::leave::{Ending, ending_at, last_off, leave_list};
use crate::places::{Part, Position};
use mdr_core::{Items, Program, Value};
use mdr_events::Memory;
use std::alloc::{AllocError, Global};

/// What a step comes to that leaves a block or a function.
#[derive(Drop)]
pub enum Left {
    /// The next step.
    Goes,
    /// These objects are to die, and a question is open.
    Asks(Items<Value>),
    /// The function that was started last ended with a value.
    Ended(Value),
}

/// The objects of the innermost block die, with which a block or a function ends.
fn let_die<C: Memory>(machine: &mut Machine, alloc: Global, memory: &mut C, flow: Flow) -> Left
    requires { machine.old.front ≡ front.Unwinds flow }
    ensures { Dies C.accesses machine.old memory.old (flow_as flow) (λ asks. left_came result) machine.new memory.new }
{
    match die(machine, alloc, memory, flow) {
        None => Left::Goes,
        Some(pointers) => Left::Asks(pointers),
    }
}

fn is_returned(flow: Flow) -> bool
    ensures { result ≡ is_return (flow_as flow) }
{
    match flow {
        Flow::Returns(_) => true,
        Flow::Ends => false,
        Flow::Breaks => false,
        Flow::Continues => false,
    }
}

/// Whether objects die with a list of the statement at a position, of which the machine's place is the block around,
/// given what ends.
fn dies_in(
    machine: &Machine,
    program: &Program,
    flow: Flow,
    part: Part,
    next: usize,
    ending: Ending,
) -> bool
    requires { ending ≡ ending_by part (is_loop (code_before (block_of program.now machine.now.top) next)) }
    ensures { result ≡ dies_in (ending_by part (is_loop (code_before (block_of program.now machine.now.top) next))) (flow_as flow) (wires_of machine.now.top.born) }
{
    dies_with(ending, flow, machine.top.born.as_slice())
}

fn dies_with(ending: Ending, flow: Flow, born: &[Value]) -> bool
    ensures { result ≡ dies_in ending (flow_as flow) (wires_of born.now) }
{
    match ending {
        Ending::Stepped => false,
        Ending::Turn => dies_as(flow, born.is_empty()),
        Ending::Plain => dies_as(flow, born.is_empty()),
    }
}

fn dies_as(flow: Flow, none: bool) -> bool
    ensures { result ≡ (not (is_return (flow_as flow)) && not none) }
{
    !is_returned(flow) && !none
}

/// Leaves a list of the statement at a position, of which the machine's place is the block around, or lets its objects
/// die, and leaves it later.
fn leave_or_die<C: Memory>(
    machine: &mut Machine,
    alloc: Global,
    program: &Program,
    memory: &mut C,
    flow: Flow,
    p: Position,
) -> Result<Left, AllocError>
    requires { machine.old.front ≡ front.Unwinds flow }
    ensures { IfOk result (λ r. (side : AnySide) → LeavesBy C.accesses side program.now (inside machine.old p) memory.old (left_came r) machine.new memory.new) }
{
    let ending = ending_at(machine, program, p.part, p.next);
    if dies_in(machine, program, flow, p.part, p.next, ending) {
        machine.top.path.push(p)?;
        Ok(let_die(machine, alloc, memory, flow))
    } else {
        leave_list(machine, alloc, program, flow, p, ending)?;
        Ok(Left::Goes)
    }
}

/// The end of a function: its objects die, or it is left.
fn end_or_die<C: Memory>(machine: &mut Machine, alloc: Global, memory: &mut C, flow: Flow) -> Left
    requires unwinds { machine.old.front ≡ front.Unwinds flow }
    requires outside { machine.old.top.path ≡ [] }
    requires started { machine.old.below ≡ [] → ⊥ }
    ensures { (program : AnyProgram) (side : AnySide) → LeavesBy C.accesses side program machine.old memory.old (left_came result) machine.new memory.new }
{
    if machine.top.born.is_empty() {
        match end_function(machine, alloc, flow) {
            Some(value) => Left::Ended(value),
            None => Left::Goes,
        }
    } else {
        let_die(machine, alloc, memory, flow)
    }
}

/// A step that leaves a block, a loop or a function, or lets the objects of one die.
pub(crate) fn unwind<C: Memory>(
    machine: &mut Machine,
    alloc: Global,
    program: &Program,
    memory: &mut C,
    flow: Flow,
) -> Result<Left, AllocError>
    requires unwinds { machine.old.front ≡ front.Unwinds flow }
    requires started { machine.old.below ≡ [] → ⊥ }
    ensures { IfOk result (λ r. (side : AnySide) → LeavesBy C.accesses side program.now machine.old memory.old (left_came r) machine.new memory.new) }
{
    match last_off(alloc, &mut machine.top.path) {
        Some(p) => {
            let left = leave_or_die(machine, alloc, program, memory, flow, p)?;
            Ok(left)
        }
        None => Ok(end_or_die(machine, alloc, memory, flow)),
    }
}
