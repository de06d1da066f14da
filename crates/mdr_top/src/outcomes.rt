// The outcome of a script on one memory.

ghost use Rattle.std.specs.Prelude.{IfOk};
ghost use Rattle.mdr_core.specs.Sound.{IsSound};
ghost use Rattle.mdr_watch.specs.Watching.{HaveBodies};
ghost use Rattle.mdr_top.specs.WholeRuns.{IsOutcome};

use crate::manner::Manner;
use mdr_bound::Bound;
use mdr_core::{OutOfMemory, Program};
use mdr_cut::plan_of;
use mdr_plain::Outcome;
use mdr_watch::run_watched;
use mdr_whole::run_whole;
use std::alloc::Global;

/// Runs a script over a program, in a manner. What holds the user half to its annotations is the program's own plan.
pub(crate) fn outcome_in(
    alloc: Global,
    program: &Program,
    script: &Bound,
    manner: Manner,
) -> Result<Outcome, OutOfMemory>
    requires sound { IsSound program.now }
    requires bodies { HaveBodies program.now }
    ensures { IfOk result (IsOutcome program.now script.now manner) }
{
    if manner.watched {
        let plan = plan_of(alloc, program)?;
        run_watched(alloc, program, &plan, script, manner.ticks)
    } else {
        run_whole(alloc, program, script, manner.ticks)
    }
}
