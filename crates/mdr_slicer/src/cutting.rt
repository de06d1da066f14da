// The command that cuts a source in two.

ghost use Rattle.std.specs.Prelude.{◌≡◌, IfOk, OnErr};
ghost use Rattle.mdr_outside.specs.Count.{Rose};
ghost use Rattle.mdr_due.specs.Statuses.{ReadCause};
ghost use Rattle.mdr_due.specs.declared.status.Status.TheVariants as status;
ghost use Rattle.mdr_slicer.specs.Slicing.{Splits, SplitsPart};

use crate::outputs::{Cut, made};
use crate::sources::source_of;
use crate::writing::written;
use mdr_core::OutOfMemory;
use mdr_due::{Due, Stage};
use mdr_outside::{Shelf, ShelfSeen};
use std::alloc::Global;

/// Reads a source, and writes the texts of its halves and of its plan to files that are named after it. All of them are
/// made before the first is written.
pub fn split<S: Shelf>(alloc: Global, shelf: &mut S, name: &str) -> Result<Due, OutOfMemory>
    ensures done { IfOk result (λ due. Splits (S.files shelf.old) (S.files shelf.new) name.now (S.calls shelf.old) (S.calls shelf.new) due.status due.text.items) }
    ensures part { OnErr result (SplitsPart (S.files shelf.old) (S.files shelf.new) name.now (S.calls shelf.old) (S.calls shelf.new)) }
    ensures read { IfOk result (λ due. ReadCause (⟦<S as ShelfSeen>⟧.side shelf.old) (⟦<S as ShelfSeen>⟧.side shelf.new) due.status) }
    ensures failed { IfOk result (λ due. due.status ≡ status.WriteFault → Rose (S.unwritten shelf.old) (S.unwritten shelf.new)) }
{
    let source = match source_of(alloc, shelf, name) {
        Ok(Stage::Goes(source)) => source,
        Ok(Stage::Ends(due)) => return Ok(due),
        Err(error) => return Err(error),
    };
    let Cut { files, lines } = match made(alloc, name, &source) {
        Ok(cut) => cut,
        Err(error) => return Err(error),
    };
    written(alloc, shelf, files.as_slice(), lines)
}
