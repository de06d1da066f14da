// The command that runs a script over the two halves of a source.

ghost use Rattle.std.specs.Prelude.{◌≡◌, IfOk, OnErr};
ghost use Rattle.mdr_core.specs.Sound.{IsSound};
ghost use Rattle.mdr_due.specs.declared.status.Status.TheVariants as status;
ghost use Rattle.mdr_due.specs.Statuses.{Counts, HasReadCause};
ghost use Rattle.mdr_exchanges.specs.Runs.{IsFarFault};
ghost use Rattle.mdr_outside.specs.Count.{Rose};
ghost use Rattle.mdr_top.specs.Gives.{OverBy, OverPartBy, ReadCauseBy, SplitPartBy, SplitRunsBy};
ghost use Rattle.mdr_top.specs.SplitRuns.{IsLaidRun, IsShownRun, IsSplitLeft, IsSplitOutcome, IsSplitPart, IsSplitRun};

use crate::cut_into::cut_of;
use crate::layouts::shown;
use crate::loading::{Left, ran};
use crate::reporting::reported;
use crate::scripts::script_of;
use crate::sides_seen::SidesSeen;
use crate::split_manner::SplitManner;
use mdr_bound::Bound;
use mdr_core::OutOfMemory;
use mdr_due::{Due, Stage};
use mdr_outside::{Far, FarSeen, Shelf};
use mdr_plain::Outcome;
use mdr_slicer::source_of;
use mdr_source::Source;
use std::alloc::Global;

/// Cuts a source, and runs a script over its halves: what the run shows, and the layout that it leaves.
fn left_over<F: Far>(
    alloc: Global,
    source: &Source,
    script: &Bound,
    ticks: u64,
    far: &mut F,
) -> Result<Left, OutOfMemory>
    requires { IsSound source.now.program }
    ensures done { IfOk result (λ l. IsSplitLeft source.now script.now ticks (⟦<F as FarSeen>⟧.side far.old) (⟦<F as FarSeen>⟧.side far.new) l.outcome l.layout) }
    ensures part { IsSplitPart source.now script.now ticks (⟦<F as FarSeen>⟧.side far.old) (⟦<F as FarSeen>⟧.side far.new) }
    ensures failed { IfOk result (λ l. IsFarFault l.outcome.end → Rose (F.faults far.old) (F.faults far.new)) }
{
    let cut = match cut_of(alloc, source) {
        Ok(cut) => cut,
        Err(error) => return Err(error),
    };
    let left = ran(alloc, &source.program, &cut, script, ticks, far);
    drop(cut);
    left
}

/// Cuts a source, and runs a script over its halves: what the run shows.
pub fn outcome_over<F: Far>(
    alloc: Global,
    source: &Source,
    script: &Bound,
    ticks: u64,
    far: &mut F,
) -> Result<Outcome, OutOfMemory>
    requires { IsSound source.now.program }
    ensures done { IfOk result (IsSplitOutcome source.now script.now ticks (⟦<F as FarSeen>⟧.side far.old) (⟦<F as FarSeen>⟧.side far.new)) }
    ensures part { IsSplitPart source.now script.now ticks (⟦<F as FarSeen>⟧.side far.old) (⟦<F as FarSeen>⟧.side far.new) }
    ensures failed { IfOk result (λ o. IsFarFault o.end → Rose (F.faults far.old) (F.faults far.new)) }
{
    let Left { outcome, layout: _ } = left_over(alloc, source, script, ticks, far)?;
    Ok(outcome)
}

/// What is due of a run, and the layout that it leaves.
#[derive(Drop)]
struct Laid {
    due: Due,
    layout: (u64, u64),
}

/// Cuts a source, runs a script over its halves, and makes the report; and the layout that the run leaves.
fn run_laid<F: Far>(
    alloc: Global,
    source: &Source,
    script: &Bound,
    ticks: u64,
    far: &mut F,
) -> Result<Laid, OutOfMemory>
    requires { IsSound source.now.program }
    ensures done { IfOk result (λ x. IsLaidRun source.now script.now ticks (⟦<F as FarSeen>⟧.side far.old) (⟦<F as FarSeen>⟧.side far.new) x.due.status x.due.text.items x.layout) }
    ensures part { IsSplitPart source.now script.now ticks (⟦<F as FarSeen>⟧.side far.old) (⟦<F as FarSeen>⟧.side far.new) }
    ensures failed { IfOk result (λ x. x.due.status ≡ status.FarFault → Rose (F.faults far.old) (F.faults far.new)) }
    ensures read { IfOk result (λ x. (before after : Counts) → HasReadCause before after x.due.status) }
{
    let Left { outcome, layout } = left_over(alloc, source, script, ticks, far)?;
    let due = reported(alloc, &source.program, &outcome)?;
    Ok(Laid { due, layout })
}

/// Cuts a source, runs a script over its halves, and makes the report.
pub fn run_split<F: Far>(
    alloc: Global,
    source: &Source,
    script: &Bound,
    ticks: u64,
    far: &mut F,
) -> Result<Due, OutOfMemory>
    requires { IsSound source.now.program }
    ensures done { IfOk result (λ due. IsSplitRun source.now script.now ticks (⟦<F as FarSeen>⟧.side far.old) (⟦<F as FarSeen>⟧.side far.new) due.status due.text.items) }
    ensures part { IsSplitPart source.now script.now ticks (⟦<F as FarSeen>⟧.side far.old) (⟦<F as FarSeen>⟧.side far.new) }
    ensures failed { IfOk result (λ due. due.status ≡ status.FarFault → Rose (F.faults far.old) (F.faults far.new)) }
    ensures read { IfOk result (λ due. (before after : Counts) → HasReadCause before after due.status) }
{
    let Laid { due, layout: _ } = run_laid(alloc, source, script, ticks, far)?;
    Ok(due)
}

/// Cuts a source, runs a script over its halves, and shows behind the report the messages and the layout, where they are
/// asked for.
fn run_shown<F: Far>(
    alloc: Global,
    source: &Source,
    script: &Bound,
    manner: SplitManner,
    far: &mut F,
) -> Result<Due, OutOfMemory>
    requires { IsSound source.now.program }
    ensures done { IfOk result (λ due. IsShownRun source.now script.now manner (⟦<F as FarSeen>⟧.side far.old) (⟦<F as FarSeen>⟧.side far.new) due.status due.text.items) }
    ensures part { OnErr result (IsSplitPart source.now script.now manner.ticks (⟦<F as FarSeen>⟧.side far.old) (⟦<F as FarSeen>⟧.side far.new)) }
    ensures failed { IfOk result (λ due. due.status ≡ status.FarFault → Rose (F.faults far.old) (F.faults far.new)) }
    ensures read { IfOk result (λ due. (before after : Counts) → HasReadCause before after due.status) }
{
    let Laid { due, layout } = run_laid(alloc, source, script, manner.ticks, far)?;
    let all = shown(alloc, due, manner, far.exchanges(), layout)?;
    Ok(all)
}

/// Reads a script, and runs it over the halves of a source, as `split_over` does with one that it read.
pub fn split_run_over<S: Shelf, F: Far>(
    alloc: Global,
    shelf: &mut S,
    far: &mut F,
    source: &Source,
    name: &str,
    manner: SplitManner,
) -> Result<Due, OutOfMemory>
    requires { IsSound source.now.program }
    ensures done { IfOk result (OverBy source.now name.now manner (⟦<(S, F) as SidesSeen>⟧.change (shelf.old, far.old) (shelf.new, far.new))) }
    ensures part { OnErr result (OverPartBy source.now name.now manner.ticks (⟦<(S, F) as SidesSeen>⟧.change (shelf.old, far.old) (shelf.new, far.new))) }
    ensures kept { S.files shelf.new ≡ S.files shelf.old }
    ensures read { IfOk result (ReadCauseBy (⟦<(S, F) as SidesSeen>⟧.change (shelf.old, far.old) (shelf.new, far.new))) }
    ensures failed { IfOk result (λ due. due.status ≡ status.FarFault → Rose (F.faults far.old) (F.faults far.new)) }
{
    let script = match script_of(alloc, shelf, &source.program, name) {
        Ok(Stage::Goes(script)) => script,
        Ok(Stage::Ends(due)) => return Ok(due),
        Err(error) => return Err(error),
    };
    let due = run_shown(alloc, source, &script, manner, far);
    drop(script);
    due
}

/// Reads a source and then a script, cuts the source in two halves, and runs the script over them: the kernel half here, and
/// the user half in the far side, which is loaded with its text and the plan's. Tells what happened, how the run ended and
/// what the memory holds, and behind that, where it is asked for, which messages there were and how many places of the
/// memory are used. A source that is refused is told before the script is read, and neither changes the far side.
pub fn split_over<S: Shelf, F: Far>(
    alloc: Global,
    shelf: &mut S,
    far: &mut F,
    source_name: &str,
    script_name: &str,
    manner: SplitManner,
) -> Result<Due, OutOfMemory>
    ensures done { IfOk result (SplitRunsBy source_name.now script_name.now manner (⟦<(S, F) as SidesSeen>⟧.change (shelf.old, far.old) (shelf.new, far.new))) }
    ensures part { OnErr result (SplitPartBy source_name.now script_name.now manner.ticks (⟦<(S, F) as SidesSeen>⟧.change (shelf.old, far.old) (shelf.new, far.new))) }
    ensures kept { S.files shelf.new ≡ S.files shelf.old }
    ensures read { IfOk result (ReadCauseBy (⟦<(S, F) as SidesSeen>⟧.change (shelf.old, far.old) (shelf.new, far.new))) }
    ensures failed { IfOk result (λ due. due.status ≡ status.FarFault → Rose (F.faults far.old) (F.faults far.new)) }
{
    let source = match source_of(alloc, shelf, source_name) {
        Ok(Stage::Goes(source)) => source,
        Ok(Stage::Ends(due)) => return Ok(due),
        Err(error) => return Err(error),
    };
    let due = split_run_over(alloc, shelf, far, &source, script_name, manner);
    drop(source);
    due
}
