// The run of a script over the two halves of a source.

ghost use Rattle.std.specs.Prelude.{◌≡◌, ◌≢◌, IfOk, OnErr};
ghost use Rattle.mdr_due.specs.Statuses.{ReadCause};
ghost use Rattle.mdr_due.specs.declared.status.Status.TheVariants as status;
ghost use Rattle.mdr_outside.specs.Count.{Rose};
ghost use Rattle.mdr_top.specs.Gives.{SplitPartBy, SplitRunsBy};

use crate::sides_seen::SidesSeen;
use crate::split_manner::SplitManner;
use crate::split_running::split_over;
use mdr_core::OutOfMemory;
use mdr_due::Due;
use mdr_outside::{Far, Shelf, ShelfSeen};
use std::alloc::Global;

/// Runs a script over the two halves of a source, both from the shelf, in the manner that is asked for: the user half runs
/// in the far side.
pub(crate) fn run_split<S: Shelf, F: Far>(
    alloc: Global,
    shelf: &mut S,
    far: &mut F,
    source_name: &str,
    script_name: &str,
    manner: SplitManner,
) -> Result<Due, OutOfMemory>
    ensures done { IfOk result (SplitRunsBy source_name.now script_name.now manner (⟦<(S, F) as SidesSeen>⟧.change (shelf.old, far.old) (shelf.new, far.new))) }
    ensures part { OnErr result (SplitPartBy source_name.now script_name.now manner.ticks (⟦<(S, F) as SidesSeen>⟧.change (shelf.old, far.old) (shelf.new, far.new))) }
    ensures kept { S.files shelf.new ≡ S.files shelf.old }
    ensures read { IfOk result (λ due. ReadCause (⟦<S as ShelfSeen>⟧.side shelf.old) (⟦<S as ShelfSeen>⟧.side shelf.new) due.status) }
    ensures unwritten { IfOk result (λ due. due.status ≢ status.WriteFault) }
    ensures failed { IfOk result (λ due. due.status ≡ status.FarFault → Rose (F.faults far.old) (F.faults far.new)) }
{
    split_over(alloc, shelf, far, source_name, script_name, manner)
}
