// Statements of integers, one after another.

ghost use Rattle.std.specs.Prelude.{◌≡◌, ◌<◌, Ok, true, false};
ghost use Rattle.mdr_core.specs.Code.{Code};
ghost use Rattle.mdr_core.specs.Folds.{codes_of, lvalue_of, term_of};
ghost use Rattle.mdr_events.specs.Integers.{integer_wire};
ghost use Rattle.mdr_events.specs.Steps.{Goes};
ghost use Rattle.mdr_exec.specs.Executing.{Begins};
ghost use Rattle.mdr_exec.specs.Holding.{block_of, is_running};
ghost use Rattle.mdr_exec.specs.Quick.{IsInList, RunsOn, TakesTick};
ghost use Rattle.mdr_exec.specs.Storing.{Puts};

use crate::frame::Machine;
use crate::integers::{has_first, integer_of};
use crate::places::statement_at;
use mdr_core::{Expr, Items, Lval, Program, Step, Stmt, Value};
use mdr_events::{Integer, Memory};

/// An integer is put into a slot, or into the first cell of a global; or nothing is done.
fn put_integer<C: Memory>(
    program: &Program,
    memory: &mut C,
    slots: &mut Items<Value>,
    p: &Lval,
    integer: Integer,
) -> bool
    ensures done { result ≡ true → Puts C.accesses program.now (lvalue_of p.now) (integer_wire integer) slots.old memory.old (λ l. Ok l) slots.new memory.new }
    ensures slots { result ≡ false → slots.new ≡ slots.old }
    ensures memory { result ≡ false → memory.new ≡ memory.old }
{
    match p {
        Lval::Slot(i) => {
            slots.set(*i as usize, Value::Int(integer.kind, integer.number));
            true
        }
        Lval::Global(g) => {
            if has_first(program, *g) {
                memory.set_first(*g as u64, integer)
            } else {
                false
            }
        }
        _ => false,
    }
}

/// An assignment of an integer is done; or nothing is.
fn assign<C: Memory>(
    machine: &mut Machine,
    program: &Program,
    memory: &mut C,
    p: &Lval,
    e: &Expr,
) -> bool
    requires runs { is_running machine.old.front ≡ true }
    requires next { machine.old.top.next < 18446744073709551615 }
    ensures done { result ≡ true → Begins C.accesses program.now machine.old memory.old (λ n. Code.Assign n (lvalue_of p.now) (term_of e.now)) (λ p. Goes) machine.new memory.new }
    ensures machine { result ≡ false → machine.new ≡ machine.old }
    ensures memory { result ≡ false → memory.new ≡ memory.old }
    ensures list { IsInList program.now machine.old machine.new }
{
    match integer_of(program, memory, machine.top.slots.as_slice(), e) {
        Some(integer) => {
            if put_integer(program, memory, &mut machine.top.slots, p, integer) {
                machine.top.next += 1;
                true
            } else {
                false
            }
        }
        None => false,
    }
}

/// The same of the statement that comes next in a list.
fn assign_next<C: Memory>(
    machine: &mut Machine,
    program: &Program,
    memory: &mut C,
    list: &[Stmt],
) -> bool
    requires runs { is_running machine.old.front ≡ true }
    requires list { codes_of list.now ≡ block_of program.now machine.old.top }
    ensures done { result ≡ true → TakesTick C.accesses program.now machine.old memory.old machine.new memory.new }
    ensures machine { result ≡ false → machine.new ≡ machine.old }
    ensures memory { result ≡ false → memory.new ≡ memory.old }
    ensures list { IsInList program.now machine.old machine.new }
{
    if machine.top.next == usize::MAX {
        return false;
    }
    match statement_at(list, machine.top.next) {
        Some(statement) => match &statement.step {
            Step::Assign(p, e) => assign(machine, program, memory, p, e),
            _ => false,
        },
        None => false,
    }
}

/// The assignments that come next in a list are done, as long as they are of integers. The ticks that are left.
pub(crate) fn assign_all<C: Memory>(
    machine: &mut Machine,
    program: &Program,
    memory: &mut C,
    list: &[Stmt],
    ticks: u64,
) -> u64
    requires runs { is_running machine.old.front ≡ true }
    requires list { codes_of list.now ≡ block_of program.now machine.old.top }
    ensures ran { RunsOn C.accesses program.now machine.old memory.old ticks machine.new memory.new result }
    ensures list { IsInList program.now machine.old machine.new }
{
    let mut left = ticks;
    while left > 0 {
        if !assign_next(machine, program, memory, list) {
            return left;
        }
        left -= 1;
    }
    left
}
