// A statement that comes next is done in its tick.

ghost use Rattle.std.specs.Prelude.{◌≡◌, ◌<◌, true, false, IfOk};
ghost use Rattle.std.specs.Option.{option_map};
ghost use Rattle.mdr_core.specs.Code.{Code};
ghost use Rattle.mdr_core.specs.Folds.{code_of, term_of};
ghost use Rattle.mdr_core.specs.Sound.{IsSound};
ghost use Rattle.mdr_meaning.specs.Sides.{Side as AnySide};
ghost use Rattle.mdr_events.specs.Running.{is_block};
ghost use Rattle.mdr_exec.specs.Events.{came_as};
ghost use Rattle.mdr_exec.specs.Executing.{BeginsAt, Knows, StandsAt, TicksTo};
ghost use Rattle.mdr_exec.specs.Found.{turn_code};
ghost use Rattle.mdr_exec.specs.Halves.{side_in};
ghost use Rattle.mdr_exec.specs.Holding.{is_running};

use crate::assign::begin_assign;
use crate::begin::{begin_if, begin_jump, begin_loop, begin_return, begin_return_value};
use crate::call::begin_call;
use crate::close::asks_on;
use crate::declare::begin_declare;
use crate::event::{Outcome, stopped};
use crate::frame::{Flow, Machine};
use crate::places::Turn;
use crate::text::begin_text;
use mdr_core::{At, Expr, Half, Program, Step, Stmt};
use mdr_events::Memory;
use std::alloc::{AllocError, Global};

/// A `return`.
fn do_return<C: Memory>(
    machine: &mut Machine,
    program: &Program,
    memory: &C,
    e: &Option<Expr>,
    at: At,
) -> Option<Outcome>
    requires program { IsSound program.now }
    requires runs { is_running machine.old.front ≡ true }
    requires next { machine.old.top.next < 18446744073709551615 }
    ensures { BeginsAt C.accesses program.now machine.old memory.now at (λ n. Code.Return n (option_map term_of e.now)) (came_as result) machine.new memory.now }
{
    match e {
        Some(e) => stopped(begin_return_value(machine, program, memory, e), at),
        None => {
            begin_return(machine, memory);
            None
        }
    }
}

/// A statement but a block is done.
pub(crate) fn do_statement<C: Memory>(
    machine: &mut Machine,
    alloc: Global,
    program: &Program,
    halves: &[Half],
    memory: &mut C,
    statement: &Stmt,
) -> Result<Option<Outcome>, AllocError>
    requires program { IsSound program.now }
    requires runs { is_running machine.old.front ≡ true }
    requires next { machine.old.top.next < 18446744073709551615 }
    requires stands { StandsAt program.now machine.old (code_of statement.now) }
    requires ticks { is_block (code_of statement.now) ≡ false }
    ensures { IfOk result (λ e. TicksTo C.accesses (side_in machine.old.side halves.now program.now) program.now machine.old memory.old (came_as e) machine.new memory.new) }
{
    let at = At {
        func: machine.top.func,
        stmt: statement.number,
    };
    match &statement.step {
        Step::Declare(i) => {
            let asks = asks_on(machine.side);
            let event = begin_declare(machine, alloc, program, memory, *i, asks)?;
            Ok(event)
        }
        Step::Text(i, text) => {
            let came = begin_text(machine, program, memory, *i, text.as_slice());
            Ok(stopped(came, at))
        }
        Step::Assign(p, e) => {
            let came = begin_assign(machine, program, memory, p, e);
            Ok(stopped(came, at))
        }
        Step::Call(_, form) => {
            let event = begin_call(
                machine,
                alloc,
                program,
                halves,
                memory,
                form,
                statement.number,
            )?;
            Ok(event)
        }
        Step::ReturnCall(form) => {
            let event = begin_call(
                machine,
                alloc,
                program,
                halves,
                memory,
                form,
                statement.number,
            )?;
            Ok(event)
        }
        Step::If(test, _, _) => {
            let came = begin_if(machine, alloc, program, memory, test)?;
            Ok(stopped(came, at))
        }
        Step::While(test, _) => {
            let came = begin_loop(machine, alloc, program, memory, Some(test))?;
            Ok(stopped(came, at))
        }
        Step::Return(e) => {
            let event = do_return(machine, program, memory, e, at);
            Ok(event)
        }
        Step::Break => {
            begin_jump(machine, memory, Flow::Breaks);
            Ok(None)
        }
        Step::Continue => {
            begin_jump(machine, memory, Flow::Continues);
            Ok(None)
        }
        Step::Empty => {
            begin_jump(machine, memory, Flow::Ends);
            Ok(None)
        }
        Step::Block(_) => unreachable!(),
        Step::For(_, _, _, _) => unreachable!(),
    }
}

/// The loop of a `for` turns, or ends.
pub(crate) fn do_turn<'a, C: Memory>(
    machine: &mut Machine,
    alloc: Global,
    program: &Program,
    memory: &C,
    turn: Turn<'a>,
) -> Result<Option<Outcome>, AllocError>
    requires program { IsSound program.now }
    requires runs { is_running machine.old.front ≡ true }
    requires next { machine.old.top.next < 18446744073709551615 }
    requires stands { StandsAt program.now machine.old (turn_code turn) }
    ensures { IfOk result (λ e. (side : AnySide) → Knows side program.now → TicksTo C.accesses side program.now machine.old memory.now (came_as e) machine.new memory.now) }
{
    let at = At {
        func: machine.top.func,
        stmt: turn.number,
    };
    let came = begin_loop(machine, alloc, program, memory, turn.test)?;
    Ok(stopped(came, at))
}
