// Steps of a machine.

ghost use Rattle.std.specs.Prelude.{◌≡◌, ◌<◌, true, OnOk};
ghost use Rattle.mdr_core.specs.declared.program.Program.{Program as AnyProgram};
ghost use Rattle.mdr_exec.specs.Holding.{held_of, is_running, list_entered};
ghost use Rattle.mdr_exec.specs.Quick.{IsAsBefore};

use crate::frame::Machine;
use crate::places::{Part, Position};
use mdr_core::Items;
use std::alloc::{AllocError, Global};
use std::mem;

/// Enters a list of the statement that comes next.
pub(crate) fn enter(machine: &mut Machine, alloc: Global, part: Part) -> Result<(), AllocError>
    requires runs { is_running machine.old.front ≡ true }
    requires next { machine.old.top.next < 18446744073709551615 }
    ensures held { OnOk result ((program : AnyProgram) → held_of program machine.new ≡ list_entered program machine.old part) }
    ensures as_before { OnOk result (IsAsBefore machine.old machine.new) }
{
    let next = machine.top.next + 1;
    let born = mem::replace(&mut machine.top.born, Items::new(alloc));
    machine.top.path.push(Position { next, part, born })?;
    machine.top.next = 0;
    Ok(())
}
