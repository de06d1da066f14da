// Lists of statements are left.

ghost use Rattle.std.specs.Prelude.{◌≡◌, ◌++◌, ◌∷◌, [], List, Some, true, IfOk, OnOk, MatchOption};
ghost use Rattle.mdr_core.specs.Folds.{code_of, codes_of};
ghost use Rattle.mdr_core.specs.declared.program.Program.{Program as AnyProgram};
ghost use Rattle.mdr_meaning.specs.Sides.{Ends, Side as AnySide};
ghost use Rattle.mdr_events.specs.Steps.{IsSame, front_after};
ghost use Rattle.mdr_events.specs.Values.{wires_of};
ghost use Rattle.mdr_exec.specs.declared.frame.Frame.{Frame as AnyFrame};
ghost use Rattle.mdr_exec.specs.declared.places.Position.{Position as AnyPosition};
ghost use Rattle.mdr_exec.specs.Behind.{is_stepless};
ghost use Rattle.mdr_exec.specs.Found.{codes_in};
ghost use Rattle.mdr_exec.specs.Holding.{block_of, flow_as, front_in, held_of, is_running};
ghost use Rattle.mdr_exec.specs.Leaving.{LeavesNone, ending_by, goes_behind, goes_round, is_loop, leaves_list, passed_on, plain_left, step_left, turn_left};
ghost use Rattle.mdr_exec.specs.Places.{code_before};

use crate::frame::{Flow, Front, Machine};
use crate::places::{
    Found, Part, Position, Standing, block_at, body_of, inside, only, standing_at, statements_of,
};
use mdr_core::{Items, Program, Step, Stmt, Value};
use std::alloc::{AllocError, Global};
use std::mem;

/// What ends with a list of statements.
#[derive(Clone, Copy)]
pub enum Ending {
    /// A turn of a loop's body.
    Turn,
    /// The step of a loop.
    Stepped,
    /// Any other block.
    Plain,
}

pub(crate) fn what_ends(part: Part, loops: bool) -> Ending
    ensures { result ≡ ending_by part loops }
{
    match part {
        Part::Body => { if loops { Ending::Turn } else { Ending::Plain } }
        Part::Step => {
            if loops {
                Ending::Stepped
            } else {
                Ending::Plain
            }
        }
        Part::One => Ending::Plain,
        Part::Other => Ending::Plain,
        Part::Inner => Ending::Plain,
    }
}

pub(crate) fn is_while(statement: &Stmt) -> bool
    ensures loops { result ≡ is_loop (Some (code_of statement.now)) }
    ensures stepless { result ≡ is_stepless (Some (code_of statement.now)) }
{
    match &statement.step {
        Step::While(_, _) => true,
        Step::If(_, _, _) => false,
        Step::For(_, _, _, _) => false,
        Step::Block(_) => false,
        Step::Declare(_) => false,
        Step::Text(_, _) => false,
        Step::Assign(_, _) => false,
        Step::Call(_, _) => false,
        Step::Return(_) => false,
        Step::ReturnCall(_) => false,
        Step::Break => false,
        Step::Continue => false,
        Step::Empty => false,
    }
}

/// Whether a loop stands in front of a place.
fn is_behind_loop<'a>(found: Found<'a>, next: usize) -> bool
    ensures { result ≡ is_loop (code_before (codes_in found.entry) next) }
{
    if next == 0 {
        return false;
    }
    match standing_at(found, next - 1) {
        Some(Standing::Statement(statement)) => is_while(statement),
        Some(Standing::Turn(_)) => true,
        None => false,
    }
}

/// Whether a `while` stands in front of a place in a list.
fn is_behind_while(statements: &[Stmt], next: usize) -> bool
    ensures { result ≡ is_loop (code_before (codes_of statements.now) next) }
{
    is_behind_loop(only(statements), next)
}

/// Whether a loop stands in front of a place in the block of the machine's place.
pub(crate) fn goes_round(machine: &Machine, program: &Program, next: usize) -> bool
    ensures { result ≡ is_loop (code_before (block_of program.now machine.now.top) next) }
{
    let body = statements_of(program, machine.top.func);
    match inside(body, machine.top.path.as_slice()) {
        Some(list) => is_behind_while(list, next),
        None => goes_round_behind(machine, program, next),
    }
}

/// The same, on any path.
fn goes_round_behind(machine: &Machine, program: &Program, next: usize) -> bool
    ensures { result ≡ is_loop (code_before (block_of program.now machine.now.top) next) }
{
    let block = block_at(
        body_of(program, machine.top.func),
        machine.top.path.as_slice(),
    );
    is_behind_loop(block, next)
}

/// What ends with a list of the statement at a position, of which the machine's place is the block around.
pub(crate) fn ending_at(machine: &Machine, program: &Program, part: Part, next: usize) -> Ending
    ensures { result ≡ ending_by part (is_loop (code_before (block_of program.now machine.now.top) next)) }
{
    let loops = goes_round(machine, program, next);
    what_ends(part, loops)
}

fn front_after(flow: Flow) -> Front
    ensures { (program : AnyProgram) (frame : AnyFrame) → front_in program frame result ≡ front_after (flow_as flow) }
{
    match flow {
        Flow::Ends => Front::Runs,
        Flow::Breaks => Front::Unwinds(Flow::Breaks),
        Flow::Continues => Front::Unwinds(Flow::Continues),
        Flow::Returns(value) => Front::Unwinds(Flow::Returns(value)),
    }
}

fn joined(outer: Items<Value>, inner: &[Value]) -> Result<Items<Value>, AllocError>
    ensures { IfOk result (λ born. born ≡ outer ++ inner.now) }
{
    let mut born = outer;
    for value in inner {
        born.push(*value)?;
    }
    Ok(born)
}

fn passed_on(flow: Flow, outer: Items<Value>, inner: &[Value]) -> Result<Items<Value>, AllocError>
    ensures { IfOk result (λ born. wires_of born ≡ passed_on (flow_as flow) (wires_of outer) (wires_of inner.now)) }
{
    match flow {
        Flow::Returns(_) => {
            let born = joined(outer, inner)?;
            Ok(born)
        }
        Flow::Ends => Ok(outer),
        Flow::Breaks => Ok(outer),
        Flow::Continues => Ok(outer),
    }
}

/// Takes the last item off a list.
pub(crate) fn last_off<T: Drop>(alloc: Global, list: &mut Items<T>) -> Option<T>
    ensures { MatchOption result ((list.old ≡ []) × (list.new ≡ [])) (λ x. list.old ≡ list.new ++ x ∷ []) }
{
    let mut items = mem::replace(list, Items::new(alloc)).into_vec();
    let last = items.pop();
    *list = Items::from_vec(items);
    last
}

/// Goes on behind a position of the block around, or leaves that block too.
fn go_behind(machine: &mut Machine, flow: Flow, next: usize, born: Items<Value>)
    ensures { (program : AnyProgram) → held_of program machine.new ≡ goes_behind program machine.old (flow_as flow) next (wires_of born) }
{
    machine.top.next = next;
    machine.top.born = born;
    machine.front = front_after(flow);
}

/// Goes on behind a position of the block around in the objects that are there.
pub(crate) fn go_past(machine: &mut Machine, flow: Flow, next: usize)
    ensures { (program : AnyProgram) → held_of program machine.new ≡ goes_behind program machine.old (flow_as flow) next (wires_of machine.old.top.born) }
{
    machine.top.next = next;
    machine.front = front_after(flow);
}

/// Goes on at a position of the block, where nothing came before it.
pub(crate) fn go_on(machine: &mut Machine, next: usize)
    requires runs { is_running machine.old.front ≡ true }
    ensures { (program : AnyProgram) → held_of program machine.new ≡ goes_behind program machine.old Ends next (wires_of machine.old.top.born) }
{
    machine.top.next = next;
}

/// Goes on with the step of the loop at a position.
fn go_round(
    machine: &mut Machine,
    alloc: Global,
    next: usize,
    born: Items<Value>,
) -> Result<(), AllocError>
    ensures { OnOk result ((program : AnyProgram) (p : AnyPosition) → p.next ≡ next → p.born ≡ born → held_of program machine.new ≡ goes_round program machine.old p) }
{
    machine.top.path.push(Position {
        next,
        part: Part::Step,
        born: Items::new(alloc),
    })?;
    machine.top.next = 0;
    machine.top.born = born;
    machine.front = Front::Runs;
    Ok(())
}

/// Leaves a block that is no loop's.
fn leave_plain(machine: &mut Machine, flow: Flow, p: Position) -> Result<(), AllocError>
    ensures { OnOk result ((program : AnyProgram) → held_of program machine.new ≡ plain_left program machine.old (flow_as flow) p) }
{
    let Position {
        next,
        part: _,
        born,
    } = p;
    let born = passed_on(flow, born, machine.top.born.as_slice())?;
    go_behind(machine, flow, next, born);
    Ok(())
}

/// Leaves a turn of a loop's body.
fn leave_turn(
    machine: &mut Machine,
    alloc: Global,
    flow: Flow,
    p: Position,
) -> Result<(), AllocError>
    ensures { OnOk result ((program : AnyProgram) → held_of program machine.new ≡ turn_left program machine.old (flow_as flow) p) }
{
    let Position {
        next,
        part: _,
        born,
    } = p;
    match flow {
        Flow::Ends => {
            go_round(machine, alloc, next, born)?;
            Ok(())
        }
        Flow::Continues => {
            go_round(machine, alloc, next, born)?;
            Ok(())
        }
        Flow::Breaks => {
            go_behind(machine, Flow::Ends, next, born);
            Ok(())
        }
        Flow::Returns(_) => {
            let born = joined(born, machine.top.born.as_slice())?;
            go_behind(machine, flow, next, born);
            Ok(())
        }
    }
}

/// Leaves the step of a loop.
fn leave_step(machine: &mut Machine, flow: Flow, next: usize)
    ensures { (program : AnyProgram) → held_of program machine.new ≡ step_left program machine.old (flow_as flow) next }
{
    match flow {
        Flow::Ends => go_past(machine, Flow::Ends, next.saturating_sub(1)),
        Flow::Breaks => go_past(machine, flow, next),
        Flow::Continues => go_past(machine, flow, next),
        Flow::Returns(_) => go_past(machine, flow, next),
    }
}

/// Leaves a list of the statement at a position, of which the machine's place is the block around, with what ends then.
/// No object is left in it that would die.
pub(crate) fn leave_list(
    machine: &mut Machine,
    alloc: Global,
    program: &Program,
    flow: Flow,
    p: Position,
    ending: Ending,
) -> Result<(), AllocError>
    requires ending { ending ≡ ending_by p.part (is_loop (code_before (block_of program.now machine.old.top) p.next)) }
    requires none { LeavesNone (ending_by p.part (is_loop (code_before (block_of program.now machine.old.top) p.next))) (flow_as flow) (wires_of machine.old.top.born) }
    ensures { OnOk result ((side : AnySide) → IsSame side (leaves_list program.now machine.old (flow_as flow) p) (held_of program.now machine.new)) }
{
    match ending {
        Ending::Plain => {
            leave_plain(machine, flow, p)?;
            Ok(())
        }
        Ending::Turn => {
            leave_turn(machine, alloc, flow, p)?;
            Ok(())
        }
        Ending::Stepped => {
            leave_step(machine, flow, p.next);
            Ok(())
        }
    }
}
