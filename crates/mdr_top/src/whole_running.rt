// The command that runs a script over a source on one memory.

ghost use Rattle.std.specs.Prelude.{◌≡◌, IfOk, OnErr};
ghost use Rattle.mdr_core.specs.Sound.{IsSound};
ghost use Rattle.mdr_due.specs.Reads.{WasRead, longest_script};
ghost use Rattle.mdr_due.specs.Statuses.{Counts, HasReadCause, ReadCause};
ghost use Rattle.mdr_watch.specs.Watching.{HaveBodies};
ghost use Rattle.mdr_top.specs.WholeRuns.{IsRun, RunsOver, Runs, RunsPart};

use crate::ending::status_of;
use crate::manner::Manner;
use crate::outcomes::outcome_in;
use crate::scripts::script_of;
use mdr_bound::Bound;
use mdr_core::{OutOfMemory, Program};
use mdr_due::{Due, Stage};
use mdr_outside::{Shelf, ShelfSeen};
use mdr_report::report_whole;
use mdr_slicer::source_of;
use std::alloc::Global;

/// Runs a script over a program, and makes the report.
fn ran(alloc: Global, program: &Program, script: &Bound, manner: Manner) -> Result<Due, OutOfMemory>
    requires sound { IsSound program.now }
    requires bodies { HaveBodies program.now }
    ensures run { IfOk result (λ due. IsRun program.now script.now manner due.status due.text.items) }
    ensures read { IfOk result (λ due. (before after : Counts) → HasReadCause before after due.status) }
{
    let outcome = outcome_in(alloc, program, script, manner)?;
    let status = status_of(&outcome.end);
    let text = report_whole(alloc, program, &outcome)?.into_vec();
    Ok(Due { status, text })
}

/// Reads a script, and runs it over a program.
fn run_over<S: Shelf>(
    alloc: Global,
    shelf: &mut S,
    program: &Program,
    name: &str,
    manner: Manner,
) -> Result<Due, OutOfMemory>
    requires sound { IsSound program.now }
    requires bodies { HaveBodies program.now }
    ensures done { IfOk result (λ due. RunsOver (S.files shelf.old) program.now name.now manner (S.calls shelf.old) (S.calls shelf.new) due.status due.text.items) }
    ensures part { OnErr result (WasRead (S.files shelf.old) name.now longest_script (S.calls shelf.old) (S.calls shelf.new)) }
    ensures kept { S.files shelf.new ≡ S.files shelf.old }
    ensures read { IfOk result (λ due. ReadCause (⟦<S as ShelfSeen>⟧.side shelf.old) (⟦<S as ShelfSeen>⟧.side shelf.new) due.status) }
    ensures unwritten_same { S.unwritten shelf.new ≡ S.unwritten shelf.old }
{
    let script = match script_of(alloc, shelf, program, name) {
        Ok(Stage::Goes(script)) => script,
        Ok(Stage::Ends(due)) => return Ok(due),
        Err(error) => return Err(error),
    };
    let due = ran(alloc, program, &script, manner)?;
    Ok(due)
}

/// Reads a source and then a script, runs the script over the source on one memory in the manner that is asked for, and
/// tells what happened, how the run ended and what the memory holds. A source that is refused is told before the script
/// is read.
pub fn whole<S: Shelf>(
    alloc: Global,
    shelf: &mut S,
    source_name: &str,
    script_name: &str,
    manner: Manner,
) -> Result<Due, OutOfMemory>
    ensures done { IfOk result (λ due. Runs (S.files shelf.old) source_name.now script_name.now manner (S.calls shelf.old) (S.calls shelf.new) due.status due.text.items) }
    ensures part { OnErr result (RunsPart (S.files shelf.old) source_name.now script_name.now (S.calls shelf.old) (S.calls shelf.new)) }
    ensures kept { S.files shelf.new ≡ S.files shelf.old }
    ensures read { IfOk result (λ due. ReadCause (⟦<S as ShelfSeen>⟧.side shelf.old) (⟦<S as ShelfSeen>⟧.side shelf.new) due.status) }
{
    let source = match source_of(alloc, shelf, source_name) {
        Ok(Stage::Goes(source)) => source,
        Ok(Stage::Ends(due)) => return Ok(due),
        Err(error) => return Err(error),
    };
    run_over(alloc, shelf, &source.program, script_name, manner)
}
