// The run of a script on one memory.

ghost use Rattle.std.specs.Prelude.{◌≡◌, ◌≢◌, IfOk, OnErr};
ghost use Rattle.mdr_due.specs.Statuses.{ReadCause};
ghost use Rattle.mdr_due.specs.declared.status.Status.TheVariants as status;
ghost use Rattle.mdr_top.specs.WholeRuns.{Runs, RunsPart};
ghost use Rattle.mdr_top.specs.Wholes.{IsOfWhole};

use crate::manner::Manner;
use crate::whole_running::whole;
use mdr_core::OutOfMemory;
use mdr_due::Due;
use mdr_outside::{Shelf, ShelfSeen};
use std::alloc::Global;

/// Runs a script over a source on one memory, both from the shelf, in the manner that is asked for.
pub(crate) fn run_whole<S: Shelf>(
    alloc: Global,
    shelf: &mut S,
    source_name: &str,
    script_name: &str,
    manner: Manner,
) -> Result<Due, OutOfMemory>
    ensures done { IfOk result (λ due. Runs (S.files shelf.old) source_name.now script_name.now manner (S.calls shelf.old) (S.calls shelf.new) due.status due.text.items) }
    ensures part { OnErr result (RunsPart (S.files shelf.old) source_name.now script_name.now (S.calls shelf.old) (S.calls shelf.new)) }
    ensures kept { S.files shelf.new ≡ S.files shelf.old }
    ensures read { IfOk result (λ due. ReadCause (⟦<S as ShelfSeen>⟧.side shelf.old) (⟦<S as ShelfSeen>⟧.side shelf.new) due.status) }
    ensures unwritten { IfOk result (λ due. due.status ≢ status.WriteFault) }
    ensures own { IfOk result (λ due. IsOfWhole due.status) }
{
    whole(alloc, shelf, source_name, script_name, manner)
}
