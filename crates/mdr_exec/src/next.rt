// What comes next.

ghost use Rattle.std.specs.Prelude.{◌≡◌, ◌<◌, true, IfSome, OnOk, None};
ghost use Rattle.std.specs.Option.{option_map};
ghost use Rattle.mdr_core.specs.declared.program.Program.{Program as AnyProgram};
ghost use Rattle.mdr_meaning.specs.Sides.{Side as AnySide};
ghost use Rattle.mdr_exec.specs.declared.frame.Front.TheVariants as front;
ghost use Rattle.mdr_exec.specs.Executing.{HoldsSame, next_in};
ghost use Rattle.mdr_exec.specs.Found.{code_in};
ghost use Rattle.mdr_exec.specs.Holding.{is_running};
ghost use Rattle.mdr_exec.specs.Went.{StillHolds};

use crate::frame::{Flow, Front, Machine};
use crate::places::{Standing, block_at, body_of, inside, listed_at, standing_at, statements_of};
use mdr_core::{Program, Value};
use std::alloc::AllocError;

/// The statement that comes next, or the loop of a `for`.
pub(crate) fn stands_next<'a>(machine: &Machine, program: &'a Program) -> Option<Standing<'a>>
    ensures code { option_map code_in result ≡ next_in program.now machine.now }
    ensures inside { IfSome result (λ s. machine.now.top.next < 18446744073709551615) }
{
    let body = statements_of(program, machine.top.func);
    match inside(body, machine.top.path.as_slice()) {
        Some(list) => listed_at(list, machine.top.next),
        None => stands_behind(machine, program),
    }
}

/// The same, on any path.
fn stands_behind<'a>(machine: &Machine, program: &'a Program) -> Option<Standing<'a>>
    ensures code { option_map code_in result ≡ next_in program.now machine.now }
    ensures inside { IfSome result (λ s. machine.now.top.next < 18446744073709551615) }
{
    let block = block_at(
        body_of(program, machine.top.func),
        machine.top.path.as_slice(),
    );
    standing_at(block, machine.top.next)
}

/// No statement comes next: the list of statements is left.
pub(crate) fn run_out(machine: &mut Machine)
    requires runs { is_running machine.old.front ≡ true }
    ensures { (program : AnyProgram) (side : AnySide) → next_in program machine.old ≡ None → HoldsSame side program machine.old machine.new }
{
    machine.front = Front::Unwinds(Flow::Ends);
}

/// The object of a local was born: its slot holds its address.
pub(crate) fn take_object(
    machine: &mut Machine,
    slot: u32,
    pointer: Value,
) -> Result<(), AllocError>
    requires born { machine.old.front ≡ front.Born slot pointer }
    ensures { OnOk result (StillHolds machine.old machine.new) }
{
    machine.top.slots.set(slot as usize, pointer);
    machine.top.born.push(pointer)?;
    machine.front = Front::Runs;
    Ok(())
}
