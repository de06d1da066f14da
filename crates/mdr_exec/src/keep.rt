// The value of a call goes where its statement says.

ghost use Rattle.std.specs.Prelude.{◌≡◌, ℕ};
ghost use Rattle.std.specs.Option.{option_map};
ghost use Rattle.mdr_core.specs.declared.program.Program.{Program as AnyProgram};
ghost use Rattle.mdr_core.specs.Code.{Goal};
ghost use Rattle.mdr_core.specs.Folds.{code_of, goal_of, lvalue_of};
ghost use Rattle.mdr_core.specs.Sound.{IsSound};
ghost use Rattle.mdr_meaning.specs.Sides.{Side as AnySide};
ghost use Rattle.mdr_meaning.specs.Values.{wire_of};
ghost use Rattle.mdr_events.specs.Outcomes.{wired};
ghost use Rattle.mdr_events.specs.Running.{number_of};
ghost use Rattle.mdr_events.specs.Steps.{Goes};
ghost use Rattle.mdr_exec.specs.Beginning.{came_of};
ghost use Rattle.mdr_exec.specs.Events.{came_as};
ghost use Rattle.mdr_exec.specs.Executing.{Keeps, KeepsAs, Knows, StepsTo};
ghost use Rattle.mdr_exec.specs.Found.{code_in};
ghost use Rattle.mdr_exec.specs.Holding.{code_of_frame, goal_at, goal_in, number_at};
ghost use Rattle.mdr_exec.specs.Receiving.{KeepsInto, goal_as, received_back};
ghost use Rattle.mdr_exec.specs.declared.frame.Front.TheVariants as front;

use crate::assign::put;
use crate::event::{Outcome, stopped};
use crate::frame::{Flow, Front, Machine};
use crate::named::named_type;
use crate::places::{Standing, block_at, body_of, standing_at};
use crate::receive::received;
use mdr_core::{At, Lval, Program, Step, Stmt, StopKind, Ty, Value};
use mdr_events::Memory;

/// Where the value of a call goes.
#[derive(Clone, Copy)]
pub(crate) enum Kept<'a> {
    Nowhere,
    Into(&'a Lval),
    /// It is returned again.
    Back,
}

fn goal_in<'a>(statement: &'a Stmt) -> Kept<'a>
    ensures { goal_as result ≡ goal_in (code_of statement.now) }
{
    match &statement.step {
        Step::Call(target, _) => into(target),
        Step::ReturnCall(_) => Kept::Back,
        Step::Declare(_)
        | Step::Text(_, _)
        | Step::Assign(_, _)
        | Step::If(_, _, _)
        | Step::While(_, _)
        | Step::For(_, _, _, _)
        | Step::Block(_)
        | Step::Return(_)
        | Step::Break
        | Step::Continue
        | Step::Empty => Kept::Nowhere,
    }
}

fn into<'a>(target: &'a Option<Lval>) -> Kept<'a>
    ensures { goal_as result ≡ goal_of target.now }
{
    match target {
        Some(p) => Kept::Into(p),
        None => Kept::Nowhere,
    }
}

/// The number of a statement; a block has none.
pub(crate) fn number_in(statement: &Stmt) -> u32
    ensures { result ≡ number_of (code_of statement.now) }
{
    match &statement.step {
        Step::Block(_) => 0,
        Step::For(_, _, _, _) => 0,
        Step::Declare(_)
        | Step::Text(_, _)
        | Step::Assign(_, _)
        | Step::Call(_, _)
        | Step::If(_, _, _)
        | Step::While(_, _)
        | Step::Return(_)
        | Step::ReturnCall(_)
        | Step::Break
        | Step::Continue
        | Step::Empty => statement.number,
    }
}

/// What the machine stands behind.
fn stands_behind<'a>(machine: &Machine, program: &'a Program) -> Option<Standing<'a>>
    ensures { option_map code_in result ≡ code_of_frame program.now machine.now.top }
{
    if machine.top.next == 0 {
        return None;
    }
    let block = block_at(
        body_of(program, machine.top.func),
        machine.top.path.as_slice(),
    );
    standing_at(block, machine.top.next - 1)
}

/// The number of the statement that the machine stands behind.
fn number_behind(machine: &Machine, program: &Program) -> u32
    ensures { result ≡ number_at (code_of_frame program.now machine.now.top) }
{
    match stands_behind(machine, program) {
        Some(Standing::Statement(statement)) => number_in(statement),
        Some(Standing::Turn(turn)) => turn.number,
        None => 0,
    }
}

/// Where the value goes of the call that the machine stands behind.
fn goal_behind<'a>(machine: &Machine, program: &'a Program) -> Kept<'a>
    ensures { goal_as result ≡ goal_at (code_of_frame program.now machine.now.top) }
{
    match stands_behind(machine, program) {
        Some(Standing::Statement(statement)) => goal_in(statement),
        Some(Standing::Turn(_)) => Kept::Nowhere,
        None => Kept::Nowhere,
    }
}

/// A value is put where an lvalue says, converted to its type.
fn keep_into<C: Memory>(
    machine: &mut Machine,
    program: &Program,
    memory: &mut C,
    p: &Lval,
    value: Value,
) -> Option<StopKind>
    requires { IsSound program.now }
    ensures { Keeps C.accesses program.now machine.old memory.old (Goal.Into (lvalue_of p.now)) (wire_of value) (came_of result) machine.new memory.new }
{
    let kept = received(program, named_type(program, machine.top.func, p), value);
    match kept {
        Ok(value) => put_kept(machine, program, memory, p, value),
        Err(stop) => Some(stop),
    }
}

/// A value that was received is put where an lvalue says.
fn put_kept<C: Memory>(
    machine: &mut Machine,
    program: &Program,
    memory: &mut C,
    p: &Lval,
    value: Value,
) -> Option<StopKind>
    requires { IsSound program.now }
    ensures { KeepsInto C.accesses program.now machine.old memory.old (lvalue_of p.now) (wire_of value) (came_of result) machine.new memory.new }
{
    let done = put(program, memory, &mut machine.top.slots, p, value);
    match done {
        Ok(()) => {
            machine.front = Front::Runs;
            None
        }
        Err(stop) => Some(stop),
    }
}

/// A value as a function's result.
fn received_back(program: &Program, func: u32, value: Value) -> Result<Value, StopKind>
    ensures { wired result ≡ received_back program.now func (wire_of value) }
{
    match program.funcs.as_slice().get(func as usize) {
        Some(func) => received(program, Some(&func.result), value),
        None => received(program, Some(&Ty::Void), value),
    }
}

/// A value is returned again.
fn keep_back<C: Memory>(
    machine: &mut Machine,
    program: &Program,
    memory: &C,
    value: Value,
) -> Option<StopKind>
    ensures { Keeps C.accesses program.now machine.old memory.now Goal.Back (wire_of value) (came_of result) machine.new memory.now }
{
    match received_back(program, machine.top.func, value) {
        Ok(value) => {
            machine.front = Front::Unwinds(Flow::Returns(value));
            None
        }
        Err(stop) => Some(stop),
    }
}

/// A value is not kept.
fn keep_nothing<C: Memory>(machine: &mut Machine, memory: &C, value: Value)
    ensures { (program : AnyProgram) (side : AnySide) (n : ℕ) → KeepsAs C.accesses side program machine.old memory.now n Goal.Nowhere (wire_of value) Goes machine.new memory.now }
{
    machine.front = Front::Runs;
}

fn keep_as<C: Memory>(
    machine: &mut Machine,
    program: &Program,
    memory: &mut C,
    goal: Kept,
    value: Value,
) -> Option<StopKind>
    requires { IsSound program.now }
    ensures { Keeps C.accesses program.now machine.old memory.old (goal_as goal.entry) (wire_of value) (came_of result) machine.new memory.new }
{
    match goal {
        Kept::Nowhere => {
            keep_nothing(machine, memory, value);
            None
        }
        Kept::Into(p) => keep_into(machine, program, memory, p, value),
        Kept::Back => keep_back(machine, program, memory, value),
    }
}

/// The value of the call that the machine stands behind goes where the statement says.
pub(crate) fn keep<C: Memory>(
    machine: &mut Machine,
    program: &Program,
    memory: &mut C,
    value: Value,
) -> Option<Outcome>
    requires program { IsSound program.now }
    requires comes { machine.old.front ≡ front.Comes value }
    ensures { (side : AnySide) → Knows side program.now → StepsTo C.accesses side program.now machine.old memory.old (came_as result) machine.new memory.new }
{
    let at = At {
        func: machine.top.func,
        stmt: number_behind(machine, program),
    };
    let goal = goal_behind(machine, program);
    stopped(keep_as(machine, program, memory, goal, value), at)
}
