// The command that reports on a source.

ghost use Rattle.std.specs.Prelude.{◌≡◌, IfOk, OnErr};
ghost use Rattle.mdr_core.specs.Sound.{IsSound};
ghost use Rattle.mdr_due.specs.Reads.{WasRead, longest_source};
ghost use Rattle.mdr_due.specs.Statuses.{ReadCause};
ghost use Rattle.mdr_slicer.specs.Slicing.{Reports, IsReported};

use crate::sources::source_of;
use mdr_core::{OutOfMemory, Program};
use mdr_cut::report_text;
use mdr_due::{Due, Stage, Status};
use mdr_outside::{Shelf, ShelfSeen};
use std::alloc::Global;

/// The report of a program.
fn reported(alloc: Global, program: &Program) -> Result<Due, OutOfMemory>
    requires { IsSound program.now }
    ensures { IfOk result (λ due. IsReported program.now due.status due.text.items) }
{
    Ok(Due {
        status: Status::Done,
        text: report_text(alloc, program)?,
    })
}

/// Reads a source, and tells which functions each of its functions may call, and its plan.
pub fn report<S: Shelf>(alloc: Global, shelf: &mut S, name: &str) -> Result<Due, OutOfMemory>
    ensures done { IfOk result (λ due. Reports (S.files shelf.old) name.now (S.calls shelf.old) (S.calls shelf.new) due.status due.text.items) }
    ensures part { OnErr result (WasRead (S.files shelf.old) name.now longest_source (S.calls shelf.old) (S.calls shelf.new)) }
    ensures kept { S.files shelf.new ≡ S.files shelf.old }
    ensures read { IfOk result (λ due. ReadCause (⟦<S as ShelfSeen>⟧.side shelf.old) (⟦<S as ShelfSeen>⟧.side shelf.new) due.status) }
{
    let source = match source_of(alloc, shelf, name) {
        Ok(Stage::Goes(source)) => source,
        Ok(Stage::Ends(due)) => return Ok(due),
        Err(error) => return Err(error),
    };
    let due = reported(alloc, &source.program)?;
    Ok(due)
}
