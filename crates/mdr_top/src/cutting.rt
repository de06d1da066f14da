// A source that is cut.

ghost use Rattle.std.specs.Prelude.{◌≡◌, IfOk, OnErr};
ghost use Rattle.mdr_due.specs.Statuses.{ReadCause};
ghost use Rattle.mdr_due.specs.declared.status.Status.TheVariants as status;
ghost use Rattle.mdr_top.specs.Cuts.{CutDone, CutPart, CutCause, IsOfCut};

use crate::words::Cutting;
use mdr_core::OutOfMemory;
use mdr_due::Due;
use mdr_outside::{Shelf, ShelfSeen};
use mdr_slicer::{report, split};
use std::alloc::Global;

/// Does what is asked of a source that is cut.
pub(crate) fn cut<S: Shelf>(
    alloc: Global,
    how: Cutting,
    shelf: &mut S,
    name: &str,
) -> Result<Due, OutOfMemory>
    ensures done { IfOk result (λ due. CutDone how (S.files shelf.old) (S.files shelf.new) name.now (S.calls shelf.old) (S.calls shelf.new) due.status due.text.items) }
    ensures part { OnErr result (CutPart how (S.files shelf.old) (S.files shelf.new) name.now (S.calls shelf.old) (S.calls shelf.new)) }
    ensures read { IfOk result (λ due. ReadCause (⟦<S as ShelfSeen>⟧.side shelf.old) (⟦<S as ShelfSeen>⟧.side shelf.new) due.status) }
    ensures own { IfOk result (λ due. IsOfCut due.status) }
    ensures wrote { IfOk result (λ due. due.status ≡ status.WriteFault → CutCause how (S.unwritten shelf.old) (S.unwritten shelf.new)) }
{
    match how {
        Cutting::Split => split(alloc, shelf, name),
        Cutting::Report => report(alloc, shelf, name),
    }
}
