// Lists of statements in which nothing was born are left at once.

ghost use Rattle.std.specs.Prelude.{◌≡◌, ◌++◌, ◌∷◌, [], List, None, true, IfSome};
ghost use Rattle.mdr_meaning.specs.Sides.{Side as AnySide};
ghost use Rattle.mdr_exec.specs.declared.places.Position.{Position as AnyPosition};
ghost use Rattle.mdr_exec.specs.Behind.{GoesOnAt, code_behind, is_stepless};
ghost use Rattle.mdr_exec.specs.Executing.{HoldsSame, next_in};
ghost use Rattle.mdr_exec.specs.Holding.{is_running};
ghost use Rattle.mdr_exec.specs.Quick.{IsAsBefore};

use crate::frame::Machine;
use crate::leave::{is_while, last_off};
use crate::places::{Part, Position, inside, statement_at, statements_of};
use mdr_core::Program;
use std::alloc::Global;

/// Whether a `while` stands in front of a place, where the path to it leads through no `for`.
fn is_behind_while(program: &Program, func: u32, path: &[Position], next: usize) -> bool
    ensures { result ≡ true → is_stepless (code_behind program.now func path.now next) ≡ true }
{
    if next == 0 {
        return false;
    }
    match inside(statements_of(program, func), path) {
        Some(list) => match statement_at(list, next - 1) {
            Some(statement) => is_while(statement),
            None => false,
        },
        None => false,
    }
}

/// What comes next in the block around, once the innermost list was left: the loop again of which it was a turn, else what
/// follows.
fn next_behind(machine: &Machine, program: &Program) -> Option<usize>
    ensures { IfSome result (λ next. (path : List AnyPosition) (p : AnyPosition) → machine.now.top.path ≡ path ++ p ∷ [] → GoesOnAt p (code_behind program.now machine.now.top.func path p.next) next) }
{
    match machine.top.path.as_slice().split_last() {
        Some((p, path)) => match p.part {
            Part::Body => {
                if is_behind_while(program, machine.top.func, path, p.next) {
                    Some(p.next - 1)
                } else {
                    None
                }
            }
            Part::Step => None,
            Part::One | Part::Other | Part::Inner => Some(p.next),
        },
        None => None,
    }
}

/// The innermost list of statements is left behind its last one, where no object was born in it; or nothing is done.
pub(crate) fn leave_at_once(machine: &mut Machine, alloc: Global, program: &Program) -> bool
    requires runs { is_running machine.old.front ≡ true }
    requires ends { next_in program.now machine.old ≡ None }
    ensures same { (side : AnySide) → HoldsSame side program.now machine.old machine.new }
    ensures as_before { IsAsBefore machine.old machine.new }
{
    if !machine.top.born.is_empty() {
        return false;
    }
    match next_behind(machine, program) {
        Some(next) => match last_off(alloc, &mut machine.top.path) {
            Some(p) => {
                let Position {
                    next: _,
                    part: _,
                    born,
                } = p;
                machine.top.born = born;
                machine.top.next = next;
                true
            }
            None => false,
        },
        None => false,
    }
}
