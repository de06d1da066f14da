// One step of the machine, whatever comes next.

ghost use Rattle.std.specs.Prelude.{◌≡◌, ◌<◌, [], true, IfOk};
ghost use Rattle.mdr_core.specs.declared.program.Program.{Program as AnyProgram};
ghost use Rattle.mdr_core.specs.Folds.{code_of};
ghost use Rattle.mdr_core.specs.Sound.{IsSound};
ghost use Rattle.mdr_exec.specs.declared.frame.Front.TheVariants as front;
ghost use Rattle.mdr_meaning.specs.Lives.{asked_for};
ghost use Rattle.mdr_meaning.specs.Sides.{Side as AnySide};
ghost use Rattle.mdr_events.specs.Ready.{IsReady};
ghost use Rattle.mdr_events.specs.Running.{is_block};
ghost use Rattle.mdr_events.specs.Steps.{Asks};
ghost use Rattle.mdr_events.specs.Values.{wires_of};
ghost use Rattle.mdr_exec.specs.Events.{came_as, came_with};
ghost use Rattle.mdr_exec.specs.Executing.{AsksAs, Knows, StandsAt, TurnsOwn, TurnsTo};
ghost use Rattle.mdr_exec.specs.Found.{turn_code};
ghost use Rattle.mdr_exec.specs.Going.{stepped_with};
ghost use Rattle.mdr_exec.specs.Holding.{held_of, is_running};
ghost use Rattle.mdr_exec.specs.Went.{left_came};

use crate::begin::begin_block;
use crate::close::asks_on;
use crate::event::Outcome;
use crate::frame::{Flow, Front, Machine};
use crate::keep::{keep, number_in};
use crate::next::{run_out, stands_next, take_object};
use crate::params::{enter_function, fill};
use crate::places::{Standing, Turn};
use crate::statement::{do_statement, do_turn};
use crate::turning::run_integers;
use crate::unwind::{Left, unwind};
use mdr_core::{At, Half, Items, OutOfMemory, Program, Step, Stmt, Value};
use mdr_events::{Asked, Memory};
use std::alloc::Global;
use std::mem;

/// What a step comes to, and the ticks that are left then.
#[derive(Drop)]
pub enum Stepped {
    /// The next step.
    Goes(u64),
    Came(Outcome, u64),
    /// The statement at a place wants a tick, and none is left.
    Wants(At),
}

fn with_event(event: Option<Outcome>, left: u64) -> Stepped
    ensures { result ≡ stepped_with event left }
{
    match event {
        Some(event) => Stepped::Came(event, left),
        None => Stepped::Goes(left),
    }
}

/// Whether a statement takes no tick.
fn is_block(statement: &Stmt) -> bool
    ensures { result ≡ is_block (code_of statement.now) }
{
    match &statement.step {
        Step::Block(_) => true,
        Step::For(_, _, _, _) => true,
        Step::Declare(_)
        | Step::Text(_, _)
        | Step::Assign(_, _)
        | Step::Call(_, _)
        | Step::If(_, _, _)
        | Step::While(_, _)
        | Step::Return(_)
        | Step::ReturnCall(_)
        | Step::Break
        | Step::Continue
        | Step::Empty => false,
    }
}

// ---- statements

/// The step of a statement: a block is entered, or a tick is taken for it.
fn step_statement<C: Memory>(
    machine: &mut Machine,
    alloc: Global,
    program: &Program,
    halves: &[Half],
    memory: &mut C,
    statement: &Stmt,
    left: u64,
) -> Result<Stepped, OutOfMemory>
    requires program { IsSound program.now }
    requires runs { is_running machine.old.front ≡ true }
    requires next { machine.old.top.next < 18446744073709551615 }
    requires stands { StandsAt program.now machine.old (code_of statement.now) }
    ensures { IfOk result (λ r. TurnsOwn C.accesses halves.now program.now machine.old memory.old left r machine.new memory.new) }
{
    if is_block(statement) {
        begin_block(machine, alloc)?;
        return Ok(Stepped::Goes(left));
    }
    if left == 0 {
        return Ok(Stepped::Wants(At {
            func: machine.top.func,
            stmt: number_in(statement),
        }));
    }
    let event = do_statement(machine, alloc, program, halves, memory, statement)?;
    Ok(with_event(event, left - 1))
}

/// The step of a loop of a `for`.
fn step_turn<'a, C: Memory>(
    machine: &mut Machine,
    alloc: Global,
    program: &Program,
    memory: &C,
    turn: Turn<'a>,
    left: u64,
) -> Result<Stepped, OutOfMemory>
    requires program { IsSound program.now }
    requires runs { is_running machine.old.front ≡ true }
    requires next { machine.old.top.next < 18446744073709551615 }
    requires stands { StandsAt program.now machine.old (turn_code turn) }
    ensures { IfOk result (λ r. (side : AnySide) → Knows side program.now → TurnsTo C.accesses side program.now machine.old memory.now left r machine.new memory.now) }
{
    if left == 0 {
        return Ok(Stepped::Wants(At {
            func: machine.top.func,
            stmt: turn.number,
        }));
    }
    let event = do_turn(machine, alloc, program, memory, turn)?;
    Ok(with_event(event, left - 1))
}

/// The step of what stands next; where nothing does, the list of statements is left.
fn step_next<C: Memory>(
    machine: &mut Machine,
    alloc: Global,
    program: &Program,
    halves: &[Half],
    memory: &mut C,
    left: u64,
) -> Result<Stepped, OutOfMemory>
    requires program { IsSound program.now }
    requires runs { is_running machine.old.front ≡ true }
    ensures { IfOk result (λ r. TurnsOwn C.accesses halves.now program.now machine.old memory.old left r machine.new memory.new) }
{
    match stands_next(machine, program) {
        Some(Standing::Statement(statement)) => {
            let stepped = step_statement(machine, alloc, program, halves, memory, statement, left)?;
            Ok(stepped)
        }
        Some(Standing::Turn(turn)) => {
            let stepped = step_turn(machine, alloc, program, memory, turn, left)?;
            Ok(stepped)
        }
        None => {
            run_out(machine);
            Ok(Stepped::Goes(left))
        }
    }
}

// ---- what comes before statements

fn asked_to_die(alloc: Global, at: At, pointers: Items<Value>) -> Outcome
    ensures { came_with result ≡ Asks (asked_for 14 at (wires_of pointers) [] []) }
{
    Outcome::Service(Asked {
        service: 14,
        at,
        args: pointers,
        shapes: Items::new(alloc),
        bytes: Items::new(alloc),
    })
}

fn event_of(alloc: Global, at: At, left: Left) -> Option<Outcome>
    ensures { came_as result ≡ left_came left at }
{
    match left {
        Left::Goes => None,
        Left::Asks(pointers) => Some(asked_to_die(alloc, at, pointers)),
        Left::Ended(value) => Some(Outcome::Done(value)),
    }
}

/// A block, a loop or a function is left.
fn step_back<C: Memory>(
    machine: &mut Machine,
    alloc: Global,
    program: &Program,
    memory: &mut C,
    flow: Flow,
    left: u64,
) -> Result<Stepped, OutOfMemory>
    requires unwinds { machine.old.front ≡ front.Unwinds flow }
    requires started { machine.old.below ≡ [] → ⊥ }
    ensures { IfOk result (λ r. (side : AnySide) → AsksAs side machine.old → TurnsTo C.accesses side program.now machine.old memory.old left r machine.new memory.new) }
{
    let at = At {
        func: machine.top.func,
        stmt: 0,
    };
    let went = unwind(machine, alloc, program, memory, flow)?;
    Ok(with_event(event_of(alloc, at, went), left))
}

/// The value of a call comes.
fn step_comes<C: Memory>(
    machine: &mut Machine,
    program: &Program,
    memory: &mut C,
    value: Value,
    left: u64,
) -> Stepped
    requires program { IsSound program.now }
    requires comes { machine.old.front ≡ front.Comes value }
    ensures { (side : AnySide) → Knows side program.now → TurnsTo C.accesses side program.now machine.old memory.old left result machine.new memory.new }
{
    with_event(keep(machine, program, memory, value), left)
}

/// A function begins.
fn step_enters<C: Memory>(
    machine: &mut Machine,
    alloc: Global,
    program: &Program,
    memory: &mut C,
    left: u64,
) -> Result<Stepped, OutOfMemory>
    requires { machine.old.front ≡ front.Enters }
    ensures { IfOk result (λ r. (side : AnySide) → Knows side program.now → AsksAs side machine.old → TurnsTo C.accesses side program.now machine.old memory.old left r machine.new memory.new) }
{
    let asks = asks_on(machine.side);
    let event = enter_function(machine, alloc, program, memory, asks)?;
    Ok(with_event(event, left))
}

/// The objects of parameters were born.
fn step_fills<C: Memory>(
    machine: &mut Machine,
    alloc: Global,
    program: &Program,
    memory: &mut C,
    left: u64,
) -> Result<Stepped, OutOfMemory>
    ensures { IfOk result (λ r. (side : AnySide) → TurnsTo C.accesses side program.now machine.old memory.old left r machine.new memory.new) }
{
    let front = mem::replace(&mut machine.front, Front::Runs);
    match front {
        Front::Fills(pointers) => {
            let event = fill(machine, alloc, program, memory, pointers.as_slice())?;
            Ok(with_event(event, left))
        }
        other => {
            machine.front = other;
            Ok(Stepped::Goes(left))
        }
    }
}

/// The object of a local was born.
fn step_born<C: Memory>(
    machine: &mut Machine,
    memory: &C,
    slot: u32,
    pointer: Value,
    left: u64,
) -> Result<Stepped, OutOfMemory>
    requires { machine.old.front ≡ front.Born slot pointer }
    ensures { IfOk result (λ r. (program : AnyProgram) (side : AnySide) → TurnsTo C.accesses side program machine.old memory.now left r machine.new memory.now) }
{
    take_object(machine, slot, pointer)?;
    Ok(Stepped::Goes(left))
}

/// One step: a statement with its tick, or what takes none.
pub(crate) fn step<C: Memory>(
    machine: &mut Machine,
    alloc: Global,
    program: &Program,
    halves: &[Half],
    memory: &mut C,
    left: u64,
) -> Result<Stepped, OutOfMemory>
    requires program { IsSound program.now }
    requires ready { IsReady (held_of program.now machine.old) }
    ensures { IfOk result (λ r. TurnsOwn C.accesses halves.now program.now machine.old memory.old left r machine.new memory.new) }
{
    match &machine.front {
        Front::Runs => {
            let rest = run_integers(machine, alloc, program, memory, left)?;
            let stepped = step_next(machine, alloc, program, halves, memory, rest)?;
            Ok(stepped)
        }
        Front::Unwinds(flow) => {
            let flow = *flow;
            let stepped = step_back(machine, alloc, program, memory, flow, left)?;
            Ok(stepped)
        }
        Front::Comes(value) => {
            let value = *value;
            Ok(step_comes(machine, program, memory, value, left))
        }
        Front::Enters => {
            let stepped = step_enters(machine, alloc, program, memory, left)?;
            Ok(stepped)
        }
        Front::Fills(_) => {
            let stepped = step_fills(machine, alloc, program, memory, left)?;
            Ok(stepped)
        }
        Front::Born(slot, pointer) => {
            let slot = *slot;
            let pointer = *pointer;
            let stepped = step_born(machine, memory, slot, pointer, left)?;
            Ok(stepped)
        }
        Front::WaitsValue => unreachable!(),
        Front::WaitsParams(_) => unreachable!(),
        Front::WaitsObject(_) => unreachable!(),
        Front::WaitsDeath(_) => unreachable!(),
    }
}
