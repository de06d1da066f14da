// The plan of a program.

ghost use Rattle.std.specs.Prelude.{IfOk};
ghost use Rattle.mdr_core.specs.Sound.{IsSound};
ghost use Rattle.mdr_cut.specs.Cuts.{IsPlanOf};

use mdr_access::keys_of;
use mdr_core::{OutOfMemory, Plan, Program};
use mdr_slice::{roots_of, slice};
use std::alloc::Global;

/// The plan of a program: the halves that its roots give, and the keys of each function of the user half.
pub fn plan_of(alloc: Global, program: &Program) -> Result<Plan, OutOfMemory>
    requires { IsSound program.now }
    ensures { IfOk result (IsPlanOf program.now) }
{
    let roots = roots_of(alloc, program)?;
    let halves = slice(alloc, program, roots.as_slice())?;
    let plan = keys_of(alloc, program, &halves)?;
    Ok(plan)
}
