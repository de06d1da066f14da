// Sources that are read.

ghost use Rattle.std.specs.Prelude.{◌≡◌, ◌≤◌, IfOk, OnErr};
ghost use Rattle.mdr_due.specs.Reads.{WasRead, longest_source};
ghost use Rattle.mdr_due.specs.Stages.{StageCause, StageFrom, StageIs};
ghost use Rattle.mdr_slicer.specs.Slicing.{HasSource, NoSource, IsSourceOf, NoSourceOf};

use mdr_core::OutOfMemory;
use mdr_due::{Due, Stage, Status, file};
use mdr_outside::{Shelf, ShelfSeen};
use mdr_source::{Source, refusal_line, source};
use std::alloc::Global;

/// The largest source: 1 MiB.
const LONGEST_SOURCE: u64 = 1_048_576;

/// The tree and the program of a source's bytes, or what is due where it is refused.
pub fn compiled(alloc: Global, bytes: &[u8]) -> Result<Stage<Source>, OutOfMemory>
    ensures { IfOk result (StageIs (HasSource bytes.now) (NoSource bytes.now)) }
{
    match source(alloc, bytes)? {
        Ok(source) => Ok(Stage::Goes(source)),
        Err(refusal) => Ok(Stage::Ends(Due {
            status: Status::SourceRefused,
            text: refusal_line(alloc, &refusal)?,
        })),
    }
}

/// Reads a source, and gives its tree and its program, or what is due where there are none.
pub fn source_of<S: Shelf>(
    alloc: Global,
    shelf: &mut S,
    name: &str,
) -> Result<Stage<Source>, OutOfMemory>
    ensures read { IfOk result (StageFrom (IsSourceOf (S.files shelf.old) name.now) (NoSourceOf (S.files shelf.old) name.now) (S.calls shelf.old) (S.calls shelf.new)) }
    ensures part { OnErr result (WasRead (S.files shelf.old) name.now longest_source (S.calls shelf.old) (S.calls shelf.new)) }
    ensures kept { S.files shelf.new ≡ S.files shelf.old }
    ensures cause { IfOk result (StageCause (⟦<S as ShelfSeen>⟧.side shelf.old) (⟦<S as ShelfSeen>⟧.side shelf.new)) }
    ensures faults_later { S.faults shelf.old ≤ S.faults shelf.new }
    ensures absent_later { S.absent shelf.old ≤ S.absent shelf.new }
    ensures long_later { S.long shelf.old ≤ S.long shelf.new }
    ensures unwritten_same { S.unwritten shelf.new ≡ S.unwritten shelf.old }
{
    let bytes = match file(alloc, shelf, name, LONGEST_SOURCE) {
        Ok(Stage::Goes(bytes)) => bytes,
        Ok(Stage::Ends(due)) => return Ok(Stage::Ends(due)),
        Err(error) => return Err(error),
    };
    let source = compiled(alloc, bytes.as_slice())?;
    Ok(source)
}
