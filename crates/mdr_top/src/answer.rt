// What is due for the words.

ghost use Rattle.std.specs.Prelude.{◌≡◌, IfOk, OnErr, map, string_bytes};
ghost use Rattle.mdr_due.specs.Statuses.{ReadCause};
ghost use Rattle.mdr_outside.specs.Count.{Rose};
ghost use Rattle.mdr_due.specs.declared.status.Status.TheVariants as status;
ghost use Rattle.mdr_top.specs.Words.{command_of};
ghost use Rattle.mdr_top.specs.Cuts.{WroteCause};
ghost use Rattle.mdr_top.specs.Done.{DoneBy, PartBy};

use crate::cutting::cut;
use crate::making::made;
use crate::sides_seen::SidesSeen;
use crate::texts::from_texts;
use crate::verifying::verify;
use crate::ways::ran;
use crate::words::{cut_of, recipe_of, run_of, verify_of};
use mdr_core::OutOfMemory;
use mdr_due::Due;
use mdr_outside::{Far, Shelf, ShelfSeen};
use std::alloc::Global;

/// What is due for the words.
pub(crate) fn answered<S: Shelf, F: Far>(
    alloc: Global,
    words: &[String],
    shelf: &mut S,
    far: &mut F,
) -> Result<Due, OutOfMemory>
    ensures done { IfOk result (DoneBy (map string_bytes words.now) (⟦<(S, F) as SidesSeen>⟧.change (shelf.old, far.old) (shelf.new, far.new))) }
    ensures part { OnErr result (PartBy (map string_bytes words.now) (⟦<(S, F) as SidesSeen>⟧.change (shelf.old, far.old) (shelf.new, far.new))) }
    ensures read { IfOk result (λ due. ReadCause (⟦<S as ShelfSeen>⟧.side shelf.old) (⟦<S as ShelfSeen>⟧.side shelf.new) due.status) }
    ensures failed { IfOk result (λ due. due.status ≡ status.FarFault → Rose (F.faults far.old) (F.faults far.new)) }
    ensures wrote { IfOk result (λ due. due.status ≡ status.WriteFault → WroteCause (command_of (map string_bytes words.now)) (S.unwritten shelf.old) (S.unwritten shelf.new)) }
{
    if let Some((how, name)) = cut_of(words) {
        return cut(alloc, how, shelf, name);
    }
    if let Some((source_name, script_name, way)) = run_of(words) {
        return ran(alloc, shelf, far, source_name, script_name, way);
    }
    if let Some(recipe) = recipe_of(words) {
        return made(alloc, far, recipe);
    }
    if let Some((source_name, script_name, transcript_name)) = verify_of(words) {
        return verify(alloc, shelf, source_name, script_name, transcript_name);
    }
    from_texts(alloc, words, shelf, far)
}
