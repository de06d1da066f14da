// Tests of integers, and lists of statements that are entered and left at once.

ghost use Rattle.std.specs.Prelude.{◌≡◌, ◌<◌, IfOk, OnOk, None, true, false, unwrap_or};
ghost use Rattle.mdr_core.specs.Folds.{code_of, codes_of, term_of};
ghost use Rattle.mdr_events.specs.Steps.{Goes};
ghost use Rattle.mdr_exec.specs.Executing.{BeginsIf, BeginsLoop, StandsAt};
ghost use Rattle.mdr_exec.specs.Holding.{block_of, is_running};
ghost use Rattle.mdr_exec.specs.Quick.{IsAsBefore, RunsOn, TakesTick};

use crate::behind::leave_at_once;
use crate::frame::Machine;
use crate::integers::integer_of;
use crate::places::{Part, inside, statement_at, statements_of};
use crate::quick::assign_all;
use crate::step::enter;
use mdr_core::{Expr, Program, Step, Stmt};
use mdr_events::Memory;
use std::alloc::{AllocError, Global};

/// The test of a loop is done, where it is of integers; else nothing is.
fn turn<C: Memory>(
    machine: &mut Machine,
    alloc: Global,
    program: &Program,
    memory: &C,
    test: &Expr,
) -> Result<bool, AllocError>
    requires runs { is_running machine.old.front ≡ true }
    requires next { machine.old.top.next < 18446744073709551615 }
    ensures done { IfOk result (λ done. done ≡ true → BeginsLoop C.accesses program.now machine.old memory.now (term_of test.now) (λ p. Goes) machine.new memory.now) }
    ensures machine { IfOk result (λ done. done ≡ false → machine.new ≡ machine.old) }
    ensures as_before { OnOk result (IsAsBefore machine.old machine.new) }
{
    match integer_of(program, memory, machine.top.slots.as_slice(), test) {
        Some(integer) => {
            if integer.number != 0 {
                enter(machine, alloc, Part::Body)?;
                Ok(true)
            } else {
                machine.top.next += 1;
                Ok(true)
            }
        }
        None => Ok(false),
    }
}

/// That of an `if` is.
fn branch<C: Memory>(
    machine: &mut Machine,
    alloc: Global,
    program: &Program,
    memory: &C,
    test: &Expr,
) -> Result<bool, AllocError>
    requires runs { is_running machine.old.front ≡ true }
    requires next { machine.old.top.next < 18446744073709551615 }
    ensures done { IfOk result (λ done. done ≡ true → BeginsIf C.accesses program.now machine.old memory.now (term_of test.now) (λ p. Goes) machine.new memory.now) }
    ensures machine { IfOk result (λ done. done ≡ false → machine.new ≡ machine.old) }
    ensures as_before { OnOk result (IsAsBefore machine.old machine.new) }
{
    match integer_of(program, memory, machine.top.slots.as_slice(), test) {
        Some(integer) => {
            if integer.number != 0 {
                enter(machine, alloc, Part::One)?;
                Ok(true)
            } else {
                enter(machine, alloc, Part::Other)?;
                Ok(true)
            }
        }
        None => Ok(false),
    }
}

/// The test of a statement is, where it has one.
fn by_test<C: Memory>(
    machine: &mut Machine,
    alloc: Global,
    program: &Program,
    memory: &C,
    statement: &Stmt,
) -> Result<bool, AllocError>
    requires runs { is_running machine.old.front ≡ true }
    requires next { machine.old.top.next < 18446744073709551615 }
    requires stands { StandsAt program.now machine.old (code_of statement.now) }
    ensures done { IfOk result (λ done. done ≡ true → TakesTick C.accesses program.now machine.old memory.now machine.new memory.now) }
    ensures machine { IfOk result (λ done. done ≡ false → machine.new ≡ machine.old) }
    ensures as_before { OnOk result (IsAsBefore machine.old machine.new) }
{
    match &statement.step {
        Step::While(test, _) => {
            let done = turn(machine, alloc, program, memory, test)?;
            Ok(done)
        }
        Step::If(test, _, _) => {
            let done = branch(machine, alloc, program, memory, test)?;
            Ok(done)
        }
        _ => Ok(false),
    }
}

/// What follows in a list, or its end, leads to another list; the ticks that are left then. Or nothing is done.
fn turned<C: Memory>(
    machine: &mut Machine,
    alloc: Global,
    program: &Program,
    memory: &C,
    list: &[Stmt],
    left: u64,
) -> Result<Option<u64>, AllocError>
    requires runs { is_running machine.old.front ≡ true }
    requires list { codes_of list.now ≡ block_of program.now machine.old.top }
    ensures ran { IfOk result (λ rest. RunsOn C.accesses program.now machine.old memory.now left machine.new memory.now (unwrap_or rest left)) }
    ensures as_before { OnOk result (IsAsBefore machine.old machine.new) }
{
    if machine.top.next == usize::MAX {
        return Ok(None);
    }
    match statement_at(list, machine.top.next) {
        Some(statement) => {
            if left == 0 {
                return Ok(None);
            }
            if by_test(machine, alloc, program, memory, statement)? {
                Ok(Some(left - 1))
            } else {
                Ok(None)
            }
        }
        None => {
            if leave_at_once(machine, alloc, program) {
                Ok(Some(left))
            } else {
                Ok(None)
            }
        }
    }
}

/// Statements of integers are done, one after another and from one list into the next, up to one that isn't of integers.
/// The ticks that are left.
pub(crate) fn run_integers<C: Memory>(
    machine: &mut Machine,
    alloc: Global,
    program: &Program,
    memory: &mut C,
    ticks: u64,
) -> Result<u64, AllocError>
    requires { is_running machine.old.front ≡ true }
    ensures ran { IfOk result (λ left. RunsOn C.accesses program.now machine.old memory.old ticks machine.new memory.new left) }
    ensures as_before { OnOk result (IsAsBefore machine.old machine.new) }
{
    let mut left = ticks;
    for _turn in 0..u64::MAX {
        let body = statements_of(program, machine.top.func);
        let Some(list) = inside(body, machine.top.path.as_slice()) else {
            return Ok(left);
        };
        left = assign_all(machine, program, memory, list, left);
        match turned(machine, alloc, program, memory, list, left)? {
            Some(rest) => left = rest,
            None => return Ok(left),
        }
    }
    Ok(left)
}
