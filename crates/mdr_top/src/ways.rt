// The run of a script over a source, in the way that is asked for.

ghost use Rattle.std.specs.Prelude.{◌≡◌, ◌≢◌, IfOk, OnErr};
ghost use Rattle.mdr_due.specs.Statuses.{ReadCause};
ghost use Rattle.mdr_due.specs.declared.status.Status.TheVariants as status;
ghost use Rattle.mdr_outside.specs.Count.{Rose};
ghost use Rattle.mdr_top.specs.Done.{RunDoneBy, RunPartBy};
ghost use Rattle.mdr_top.specs.Words.{OfFiles};

use crate::sides_seen::SidesSeen;
use crate::split::run_split;
use crate::whole::run_whole;
use crate::words::Way;
use mdr_core::OutOfMemory;
use mdr_due::Due;
use mdr_outside::{Far, Shelf, ShelfSeen};
use std::alloc::Global;

/// Runs a script over a source, both from the shelf.
pub(crate) fn ran<S: Shelf, F: Far>(
    alloc: Global,
    shelf: &mut S,
    far: &mut F,
    source_name: &str,
    script_name: &str,
    way: Way,
) -> Result<Due, OutOfMemory>
    ensures done { IfOk result (RunDoneBy (OfFiles source_name.now script_name.now) way (⟦<(S, F) as SidesSeen>⟧.change (shelf.old, far.old) (shelf.new, far.new))) }
    ensures part { OnErr result (RunPartBy (OfFiles source_name.now script_name.now) way (⟦<(S, F) as SidesSeen>⟧.change (shelf.old, far.old) (shelf.new, far.new))) }
    ensures kept { S.files shelf.new ≡ S.files shelf.old }
    ensures read { IfOk result (λ due. ReadCause (⟦<S as ShelfSeen>⟧.side shelf.old) (⟦<S as ShelfSeen>⟧.side shelf.new) due.status) }
    ensures unwritten { IfOk result (λ due. due.status ≢ status.WriteFault) }
    ensures failed { IfOk result (λ due. due.status ≡ status.FarFault → Rose (F.faults far.old) (F.faults far.new)) }
{
    match way {
        Way::Whole(manner) => run_whole(alloc, shelf, source_name, script_name, manner),
        Way::Split(manner) => run_split(alloc, shelf, far, source_name, script_name, manner),
    }
}
