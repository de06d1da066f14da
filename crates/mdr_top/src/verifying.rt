// A transcript that is held against a run.

ghost use Rattle.std.specs.Prelude.{◌≡◌, ◌≢◌, IfOk, OnErr};
ghost use Rattle.mdr_due.specs.Statuses.{ReadCause};
ghost use Rattle.mdr_due.specs.declared.status.Status.TheVariants as status;
ghost use Rattle.mdr_top.specs.Verifies.{Verifies, VerifiesPart};

use crate::transcript_running::verified;
use mdr_core::OutOfMemory;
use mdr_due::Due;
use mdr_outside::{Shelf, ShelfSeen};
use std::alloc::Global;

/// Judges a transcript by the run of a script over the two halves of a source, all three from the shelf.
pub(crate) fn verify<S: Shelf>(
    alloc: Global,
    shelf: &mut S,
    source_name: &str,
    script_name: &str,
    transcript_name: &str,
) -> Result<Due, OutOfMemory>
    ensures done { IfOk result (λ due. Verifies (S.files shelf.old) source_name.now script_name.now transcript_name.now (S.calls shelf.old) (S.calls shelf.new) due.status due.text.items) }
    ensures part { OnErr result (VerifiesPart (S.files shelf.old) source_name.now script_name.now transcript_name.now (S.calls shelf.old) (S.calls shelf.new)) }
    ensures kept { S.files shelf.new ≡ S.files shelf.old }
    ensures read { IfOk result (λ due. ReadCause (⟦<S as ShelfSeen>⟧.side shelf.old) (⟦<S as ShelfSeen>⟧.side shelf.new) due.status) }
    ensures unwritten { IfOk result (λ due. due.status ≢ status.WriteFault) }
    ensures unfailed { IfOk result (λ due. due.status ≢ status.FarFault) }
{
    verified(alloc, shelf, source_name, script_name, transcript_name)
}
