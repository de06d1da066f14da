// The report of a run.

ghost use Rattle.std.specs.Prelude.{IfOk};
ghost use Rattle.mdr_top.specs.Reports.{Reported};

use crate::ending::status_of;
use mdr_core::{OutOfMemory, Program};
use mdr_due::Due;
use mdr_plain::Outcome;
use mdr_report::report_whole;
use std::alloc::Global;

/// The report of an outcome, with its status.
pub fn reported(alloc: Global, program: &Program, outcome: &Outcome) -> Result<Due, OutOfMemory>
    ensures { IfOk result (λ due. Reported program.now outcome.now due.status due.text.items) }
{
    let status = status_of(&outcome.end);
    let text = report_whole(alloc, program, outcome)?.into_vec();
    Ok(Due { status, text })
}
