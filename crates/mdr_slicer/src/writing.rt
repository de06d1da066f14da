// Files that are written.

ghost use Rattle.std.specs.Prelude.{◌≡◌, ◌≤◌, IfOk, OnErr, map};
ghost use Rattle.mdr_outside.specs.Count.{Rose};
ghost use Rattle.mdr_due.specs.Statuses.{Counts, HasReadCause};
ghost use Rattle.mdr_due.specs.declared.status.Status.TheVariants as status;
ghost use Rattle.mdr_slicer.specs.Outputs.{file_of};
ghost use Rattle.mdr_slicer.specs.Putting.{StagePuts};
ghost use Rattle.mdr_slicer.specs.Writes.{WasUnput, HasWriteCause, Writes, WritesPart};

use crate::outputs::File;
use mdr_core::OutOfMemory;
use mdr_due::{Due, Stage, Status, file_line};
use mdr_outside::{Shelf, WriteAnswer};
use std::alloc::Global;

/// Writes a file, or says what is due where the shelf couldn't.
fn put<S: Shelf>(alloc: Global, shelf: &mut S, file: &File) -> Result<Stage<()>, OutOfMemory>
    ensures put { IfOk result (StagePuts (S.files shelf.old) (S.files shelf.new) (file_of file.now) (S.calls shelf.old) (S.calls shelf.new)) }
    ensures part { OnErr result (WasUnput (S.files shelf.old) (S.files shelf.new) (file_of file.now) (S.calls shelf.old) (S.calls shelf.new)) }
    ensures cause { IfOk result (HasWriteCause (S.unwritten shelf.old) (S.unwritten shelf.new)) }
    ensures later { S.unwritten shelf.old ≤ S.unwritten shelf.new }
{
    match shelf.write(alloc, file.name.as_str(), file.bytes.as_slice()) {
        WriteAnswer::Ok => Ok(Stage::Goes(())),
        WriteAnswer::Failed => Ok(Stage::Ends(Due {
            status: Status::WriteFault,
            text: file_line(alloc, "write fault ", file.name.as_str())?,
        })),
        WriteAnswer::OutOfMemory => Err(OutOfMemory::passed_on()),
    }
}

/// Writes the files in their order, up to the first that couldn't be written. Where all are there, the lines are due.
pub(crate) fn written<S: Shelf>(
    alloc: Global,
    shelf: &mut S,
    files: &[File],
    lines: Vec<u8>,
) -> Result<Due, OutOfMemory>
    ensures written { IfOk result (λ due. Writes lines.items (map file_of files.now) (S.files shelf.old) (S.files shelf.new) (S.calls shelf.old) (S.calls shelf.new) due.status due.text.items) }
    ensures part { OnErr result (WritesPart (map file_of files.now) (S.files shelf.old) (S.files shelf.new) (S.calls shelf.old) (S.calls shelf.new)) }
    ensures read { IfOk result (λ due. (before after : Counts) → HasReadCause before after due.status) }
    ensures failed { IfOk result (λ due. due.status ≡ status.WriteFault → Rose (S.unwritten shelf.old) (S.unwritten shelf.new)) }
{
    for file in files {
        match put(alloc, shelf, file) {
            Ok(Stage::Goes(())) => {}
            Ok(Stage::Ends(due)) => return Ok(due),
            Err(error) => return Err(error),
        }
    }
    Ok(Due {
        status: Status::Done,
        text: lines,
    })
}
