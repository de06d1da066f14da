// Three texts that are read.

ghost use Rattle.std.specs.Prelude.{◌≡◌, ◌≤◌, IfOk, OnErr};
ghost use Rattle.mdr_due.specs.Stages.{StageCause, StageFrom};
ghost use Rattle.mdr_top.specs.Names.{names_in};
ghost use Rattle.mdr_top.specs.Reads.{AreRead, NoTexts, TextsPart};

use crate::files::TextFiles;
use mdr_core::OutOfMemory;
use mdr_cut::Texts;
use mdr_due::{Stage, file};
use mdr_outside::{Shelf, ShelfSeen};
use std::alloc::Global;

/// The longest text: 64 MiB.
const LONGEST_TEXT: u64 = 67_108_864;

/// Reads three texts, one after the other, or says what is due for the first that isn't there to be read.
pub(crate) fn texts_read<S: Shelf>(
    alloc: Global,
    shelf: &mut S,
    files: TextFiles,
) -> Result<Stage<Texts>, OutOfMemory>
    ensures read { IfOk result (StageFrom (AreRead (S.files shelf.old) (names_in files.entry)) (NoTexts (S.files shelf.old) (names_in files.entry)) (S.calls shelf.old) (S.calls shelf.new)) }
    ensures part { OnErr result (TextsPart (S.files shelf.old) (names_in files.entry) (S.calls shelf.old) (S.calls shelf.new)) }
    ensures kept { S.files shelf.new ≡ S.files shelf.old }
    ensures cause { IfOk result (StageCause (⟦<S as ShelfSeen>⟧.side shelf.old) (⟦<S as ShelfSeen>⟧.side shelf.new)) }
    ensures faults_later { S.faults shelf.old ≤ S.faults shelf.new }
    ensures absent_later { S.absent shelf.old ≤ S.absent shelf.new }
    ensures long_later { S.long shelf.old ≤ S.long shelf.new }
{
    let kernel = match file(alloc, shelf, files.kernel, LONGEST_TEXT) {
        Ok(Stage::Goes(kernel)) => kernel,
        Ok(Stage::Ends(due)) => return Ok(Stage::Ends(due)),
        Err(error) => return Err(error),
    };
    let user = match file(alloc, shelf, files.user, LONGEST_TEXT) {
        Ok(Stage::Goes(user)) => user,
        Ok(Stage::Ends(due)) => return Ok(Stage::Ends(due)),
        Err(error) => return Err(error),
    };
    let plan = match file(alloc, shelf, files.plan, LONGEST_TEXT) {
        Ok(Stage::Goes(plan)) => plan,
        Ok(Stage::Ends(due)) => return Ok(Stage::Ends(due)),
        Err(error) => return Err(error),
    };
    Ok(Stage::Goes(Texts { kernel, user, plan }))
}
