// Scripts that are read for a program.

ghost use Rattle.std.specs.Prelude.{◌≡◌, ◌≤◌, IfOk, OnErr};
ghost use Rattle.mdr_core.specs.Sound.{HasFewNumbers};
ghost use Rattle.mdr_due.specs.Reads.{WasRead, longest_script};
ghost use Rattle.mdr_due.specs.Lines.{script_line};
ghost use Rattle.mdr_due.specs.Stages.{StageCause, StageFrom, StageIs};
ghost use Rattle.mdr_due.specs.declared.status.Status.TheVariants as status;
ghost use Rattle.mdr_script.specs.Scripts.{Told};
ghost use Rattle.mdr_top.specs.Scripts.{script_for, kind_word, HasScript, NoScript, IsScriptOf, NoScriptOf};

use crate::kinds::kind_word;
use mdr_bound::Bound;
use mdr_core::{OutOfMemory, Program};
use mdr_due::{Due, Stage, Status, file, script_line};
use mdr_outside::{Shelf, ShelfSeen};
use mdr_script::{ScriptError, ScriptKind, bind, read_script};
use std::alloc::Global;

/// The largest script: 256 KiB.
const LONGEST_SCRIPT: u64 = 262_144;

/// The script that a text is for a program, or the first line that is refused, and why.
fn script_for(alloc: Global, program: &Program, bytes: &[u8]) -> Result<Bound, ScriptError>
    requires { HasFewNumbers program.now }
    ensures { Told result (script_for program.now bytes.now) }
{
    match read_script(alloc, bytes) {
        Ok(script) => bind(alloc, &script, program),
        Err(error) => Err(error),
    }
}

/// What is due for a line that is refused.
fn refused(alloc: Global, line: u32, kind: ScriptKind) -> Result<Due, OutOfMemory>
    ensures { IfOk result (λ due. (due.status ≡ status.ScriptRefused) × (due.text.items ≡ script_line line (kind_word kind))) }
{
    Ok(Due {
        status: Status::ScriptRefused,
        text: script_line(alloc, line, kind_word(kind))?,
    })
}

/// The script that a text is for a program, or what is due where it is refused.
pub fn judged(alloc: Global, program: &Program, bytes: &[u8]) -> Result<Stage<Bound>, OutOfMemory>
    requires { HasFewNumbers program.now }
    ensures { IfOk result (StageIs (HasScript program.now bytes.now) (NoScript program.now bytes.now)) }
{
    match script_for(alloc, program, bytes) {
        Ok(script) => Ok(Stage::Goes(script)),
        Err(ScriptError::Line(line, kind)) => {
            let due = refused(alloc, line, kind)?;
            Ok(Stage::Ends(due))
        }
        Err(ScriptError::OutOfMemory) => Err(OutOfMemory::passed_on()),
    }
}

/// Reads a script, and gives it for a program, or what is due where there is none.
pub fn script_of<S: Shelf>(
    alloc: Global,
    shelf: &mut S,
    program: &Program,
    name: &str,
) -> Result<Stage<Bound>, OutOfMemory>
    requires { HasFewNumbers program.now }
    ensures read { IfOk result (StageFrom (IsScriptOf (S.files shelf.old) program.now name.now) (NoScriptOf (S.files shelf.old) program.now name.now) (S.calls shelf.old) (S.calls shelf.new)) }
    ensures part { OnErr result (WasRead (S.files shelf.old) name.now longest_script (S.calls shelf.old) (S.calls shelf.new)) }
    ensures kept { S.files shelf.new ≡ S.files shelf.old }
    ensures cause { IfOk result (StageCause (⟦<S as ShelfSeen>⟧.side shelf.old) (⟦<S as ShelfSeen>⟧.side shelf.new)) }
    ensures faults_later { S.faults shelf.old ≤ S.faults shelf.new }
    ensures absent_later { S.absent shelf.old ≤ S.absent shelf.new }
    ensures long_later { S.long shelf.old ≤ S.long shelf.new }
    ensures unwritten_same { S.unwritten shelf.new ≡ S.unwritten shelf.old }
{
    let bytes = match file(alloc, shelf, name, LONGEST_SCRIPT) {
        Ok(Stage::Goes(bytes)) => bytes,
        Ok(Stage::Ends(due)) => return Ok(Stage::Ends(due)),
        Err(error) => return Err(error),
    };
    let script = judged(alloc, program, bytes.as_slice())?;
    Ok(script)
}
