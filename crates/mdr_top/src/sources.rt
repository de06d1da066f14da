// The source whose halves and plan three texts are.

ghost use Rattle.std.specs.Prelude.{◌≡◌, ◌≤◌, IfOk, OnErr};
ghost use Rattle.mdr_due.specs.Stages.{StageCause, StageFrom, StageIs};
ghost use Rattle.mdr_top.specs.Names.{names_in};
ghost use Rattle.mdr_top.specs.Reads.{TextsPart};
ghost use Rattle.mdr_top.specs.Sources.{HasHalves, NoHalves, IsSourceIn, NoSourceIn};

use crate::files::TextFiles;
use crate::reading::texts_read;
use mdr_core::OutOfMemory;
use mdr_cut::Texts;
use mdr_due::{Due, Stage, Status};
use mdr_halves::{mismatch_line, source_of_texts};
use mdr_outside::{Shelf, ShelfSeen};
use mdr_source::Source;
use std::alloc::Global;

/// The source of three texts, or what is due where they are refused.
fn joined(alloc: Global, texts: &Texts) -> Result<Stage<Source>, OutOfMemory>
    ensures { IfOk result (StageIs (HasHalves texts.now) (NoHalves texts.now)) }
{
    match source_of_texts(alloc, texts)? {
        Ok(source) => Ok(Stage::Goes(source)),
        Err(mismatch) => Ok(Stage::Ends(Due {
            status: Status::HalvesRefused,
            text: mismatch_line(alloc, mismatch)?,
        })),
    }
}

/// Reads three texts, and gives the source of which they are, or what is due where there is none.
pub(crate) fn source_in<S: Shelf>(
    alloc: Global,
    shelf: &mut S,
    files: TextFiles,
) -> Result<Stage<Source>, OutOfMemory>
    ensures read { IfOk result (StageFrom (IsSourceIn (S.files shelf.old) (names_in files.entry)) (NoSourceIn (S.files shelf.old) (names_in files.entry)) (S.calls shelf.old) (S.calls shelf.new)) }
    ensures part { OnErr result (TextsPart (S.files shelf.old) (names_in files.entry) (S.calls shelf.old) (S.calls shelf.new)) }
    ensures kept { S.files shelf.new ≡ S.files shelf.old }
    ensures cause { IfOk result (StageCause (⟦<S as ShelfSeen>⟧.side shelf.old) (⟦<S as ShelfSeen>⟧.side shelf.new)) }
    ensures faults_later { S.faults shelf.old ≤ S.faults shelf.new }
    ensures absent_later { S.absent shelf.old ≤ S.absent shelf.new }
    ensures long_later { S.long shelf.old ≤ S.long shelf.new }
{
    let texts = match texts_read(alloc, shelf, files) {
        Ok(Stage::Goes(texts)) => texts,
        Ok(Stage::Ends(due)) => return Ok(Stage::Ends(due)),
        Err(error) => return Err(error),
    };
    let source = joined(alloc, &texts);
    drop(texts);
    source
}
