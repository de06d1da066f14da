// The command that tells whether a transcript is that of a run.

ghost use Rattle.std.specs.Prelude.{◌≡◌, IfOk, OnErr};
ghost use Rattle.mdr_core.specs.Sound.{IsSound};
ghost use Rattle.mdr_due.specs.Reads.{WasRead};
ghost use Rattle.mdr_due.specs.Statuses.{Counts, HasReadCause, ReadCause};
ghost use Rattle.mdr_top.specs.Judged.{IsJudged};
ghost use Rattle.mdr_top.specs.Verifies.{longest_transcript, VerifiesRun, VerifiesOver, VerifiesOverPart, Verifies, VerifiesPart};

use crate::judging::judged;
use crate::scripts::script_of;
use crate::split_running::run_split;
use mdr_bound::Bound;
use mdr_core::OutOfMemory;
use mdr_due::{Due, Stage, file};
use mdr_far::LocalFar;
use mdr_outside::{Far, Shelf, ShelfSeen};
use mdr_slicer::source_of;
use mdr_source::Source;
use std::alloc::Global;

/// The budget of a run of which nothing else is said.
const TICKS: u64 = 1_000_000;

/// The largest transcript: 64 MiB.
const LONGEST_TRANSCRIPT: u64 = 67_108_864;

/// Runs a script over the two halves of a source, and holds bytes against the run.
fn judged_over(
    alloc: Global,
    source: &Source,
    script: &Bound,
    bytes: &[u8],
    far: &mut LocalFar,
) -> Result<Due, OutOfMemory>
    requires { IsSound source.now.program }
    ensures judged { IfOk result (λ due. IsJudged source.now script.now bytes.now due.status due.text.items) }
    ensures read { IfOk result (λ due. (before after : Counts) → HasReadCause before after due.status) }
{
    let report = run_split(alloc, source, script, TICKS, far)?;
    far.is_honest();
    let due = judged(alloc, bytes, far.exchanges(), report.text.as_slice())?;
    Ok(due)
}

/// What there is to say of bytes, where a script is run over a source.
fn judged_run(
    alloc: Global,
    source: &Source,
    script: &Bound,
    bytes: &[u8],
) -> Result<Due, OutOfMemory>
    requires { IsSound source.now.program }
    ensures judged { IfOk result (λ due. IsJudged source.now script.now bytes.now due.status due.text.items) }
    ensures read { IfOk result (λ due. (before after : Counts) → HasReadCause before after due.status) }
{
    let mut far = LocalFar::new();
    let due = judged_over(alloc, source, script, bytes, &mut far);
    drop(far);
    due
}

/// Reads a transcript, and judges it by the run of a script over a source.
fn verified_run<S: Shelf>(
    alloc: Global,
    shelf: &mut S,
    source: &Source,
    script: &Bound,
    name: &str,
) -> Result<Due, OutOfMemory>
    requires { IsSound source.now.program }
    ensures done { IfOk result (λ due. VerifiesRun (S.files shelf.old) source.now script.now name.now (S.calls shelf.old) (S.calls shelf.new) due.status due.text.items) }
    ensures part { OnErr result (WasRead (S.files shelf.old) name.now longest_transcript (S.calls shelf.old) (S.calls shelf.new)) }
    ensures kept { S.files shelf.new ≡ S.files shelf.old }
    ensures read { IfOk result (λ due. ReadCause (⟦<S as ShelfSeen>⟧.side shelf.old) (⟦<S as ShelfSeen>⟧.side shelf.new) due.status) }
{
    let bytes = match file(alloc, shelf, name, LONGEST_TRANSCRIPT) {
        Ok(Stage::Goes(bytes)) => bytes,
        Ok(Stage::Ends(due)) => return Ok(due),
        Err(error) => return Err(error),
    };
    judged_run(alloc, source, script, bytes.as_slice())
}

/// Reads a script and then a transcript, and judges the transcript.
fn verified_over<S: Shelf>(
    alloc: Global,
    shelf: &mut S,
    source: &Source,
    script_name: &str,
    name: &str,
) -> Result<Due, OutOfMemory>
    requires { IsSound source.now.program }
    ensures done { IfOk result (λ due. VerifiesOver (S.files shelf.old) source.now script_name.now name.now (S.calls shelf.old) (S.calls shelf.new) due.status due.text.items) }
    ensures part { OnErr result (VerifiesOverPart (S.files shelf.old) source.now script_name.now name.now (S.calls shelf.old) (S.calls shelf.new)) }
    ensures kept { S.files shelf.new ≡ S.files shelf.old }
    ensures read { IfOk result (λ due. ReadCause (⟦<S as ShelfSeen>⟧.side shelf.old) (⟦<S as ShelfSeen>⟧.side shelf.new) due.status) }
{
    let script = match script_of(alloc, shelf, &source.program, script_name) {
        Ok(Stage::Goes(script)) => script,
        Ok(Stage::Ends(due)) => return Ok(due),
        Err(error) => return Err(error),
    };
    let due = verified_run(alloc, shelf, source, &script, name);
    drop(script);
    due
}

/// Reads a source, a script and a transcript, and runs the script over the source's two halves, with a user half of its
/// own. Tells how many messages there were where the transcript is what is printed of that run, byte for byte, and else the
/// first line, message or answer in it that isn't right. Each file that is refused is told before the next is read.
pub fn verified<S: Shelf>(
    alloc: Global,
    shelf: &mut S,
    source_name: &str,
    script_name: &str,
    name: &str,
) -> Result<Due, OutOfMemory>
    ensures done { IfOk result (λ due. Verifies (S.files shelf.old) source_name.now script_name.now name.now (S.calls shelf.old) (S.calls shelf.new) due.status due.text.items) }
    ensures part { OnErr result (VerifiesPart (S.files shelf.old) source_name.now script_name.now name.now (S.calls shelf.old) (S.calls shelf.new)) }
    ensures kept { S.files shelf.new ≡ S.files shelf.old }
    ensures read { IfOk result (λ due. ReadCause (⟦<S as ShelfSeen>⟧.side shelf.old) (⟦<S as ShelfSeen>⟧.side shelf.new) due.status) }
{
    let source = match source_of(alloc, shelf, source_name) {
        Ok(Stage::Goes(source)) => source,
        Ok(Stage::Ends(due)) => return Ok(due),
        Err(error) => return Err(error),
    };
    let due = verified_over(alloc, shelf, &source, script_name, name);
    drop(source);
    due
}
