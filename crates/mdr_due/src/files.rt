// Files that are read.

ghost use Rattle.std.specs.Prelude.{◌≡◌, ◌≤◌, IfOk, OnErr};
ghost use Rattle.mdr_due.specs.Reads.{GaveBytes, WasRead, UnreadBy};
ghost use Rattle.mdr_due.specs.Stages.{StageCause, StageFrom};

use crate::due::{Due, Stage};
use crate::lines::file_line;
use crate::status::Status;
use mdr_core::{Items, OutOfMemory};
use mdr_outside::{ReadAnswer, Shelf, ShelfSeen};
use std::alloc::Global;

/// The bytes of a file of at most `limit` bytes, or what is due where there is none.
pub fn file<S: Shelf>(
    alloc: Global,
    shelf: &mut S,
    name: &str,
    limit: u64,
) -> Result<Stage<Items<u8>>, OutOfMemory>
    ensures read { IfOk result (StageFrom (GaveBytes (S.files shelf.old) name.now limit) (UnreadBy (S.files shelf.old) name.now limit) (S.calls shelf.old) (S.calls shelf.new)) }
    ensures part { OnErr result (WasRead (S.files shelf.old) name.now limit (S.calls shelf.old) (S.calls shelf.new)) }
    ensures kept { S.files shelf.new ≡ S.files shelf.old }
    ensures cause { IfOk result (StageCause (⟦<S as ShelfSeen>⟧.side shelf.old) (⟦<S as ShelfSeen>⟧.side shelf.new)) }
    ensures faults_later { S.faults shelf.old ≤ S.faults shelf.new }
    ensures absent_later { S.absent shelf.old ≤ S.absent shelf.new }
    ensures long_later { S.long shelf.old ≤ S.long shelf.new }
    ensures unwritten_same { S.unwritten shelf.new ≡ S.unwritten shelf.old }
{
    match shelf.read(alloc, name, limit) {
        ReadAnswer::Ok(bytes) => Ok(Stage::Goes(bytes)),
        ReadAnswer::Missing => Ok(Stage::Ends(Due {
            status: Status::Missing,
            text: file_line(alloc, "missing ", name)?,
        })),
        ReadAnswer::TooLarge => Ok(Stage::Ends(Due {
            status: Status::TooLarge,
            text: file_line(alloc, "too large ", name)?,
        })),
        ReadAnswer::Failed => Ok(Stage::Ends(Due {
            status: Status::ReadFault,
            text: file_line(alloc, "read fault ", name)?,
        })),
        ReadAnswer::OutOfMemory => Err(OutOfMemory::passed_on()),
    }
}
