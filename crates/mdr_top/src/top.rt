// The top call.

ghost use Rattle.std.specs.Prelude.{◌≡◌, ◌≤◌, length, drop, map, string_bytes, ◌⊎◌, None};
ghost use Rattle.mdr_due.specs.Statuses.{ReadCause};
ghost use Rattle.mdr_outside.specs.Calls.{and_then};
ghost use Rattle.mdr_outside.specs.Count.{Rose};
ghost use Rattle.mdr_outside.specs.Sink.{Takes, wrote};
ghost use Rattle.mdr_outside.specs.declared.sink.SinkAnswer.TheVariants as sinks;
ghost use Rattle.mdr_due.specs.declared.status.Status.TheVariants as status;
ghost use Rattle.mdr_top.specs.Ends.{FailedLast};
ghost use Rattle.mdr_top.specs.Answers.{Prints};
ghost use Rattle.mdr_top.specs.Done.{Does};
ghost use Rattle.mdr_top.specs.Cuts.{WriteCause};
ghost use Rattle.mdr_top.specs.Headline.{MeansWhereHonest, Completes};
ghost use Rattle.mdr_top.specs.Comes.{Comes, IsExact, CutCompletes, MadeExactly, WholeCompletes};
ghost use Rattle.mdr_top.specs.Made.{MadeCompletes, MadeMeans};
ghost use Rattle.mdr_top.specs.Wholes.{WholeMeans};
ghost use Rattle.mdr_top.specs.Texts.{PrintsAsSplit, TextsMean};
ghost use Rattle.mdr_top.specs.Words.{command_of};
ghost use Rattle.mdr_top.specs.Written.{MeansAsWritten};
ghost use Rattle.mdr_top.specs.Writing.{Writes, TellsFailure};

use crate::answer::answered;
use crate::seen::Seen;
use mdr_due::Status;
use mdr_outside::{Far, Shelf, ShelfSeen, Sink, SinkAnswer, SinkSeen};
use std::alloc::Global;

/// Writes from a place of a text on.
fn write_from<O: Sink>(out: &mut O, text: &[u8], used: usize) -> SinkAnswer
    requires { used ≤ length text.now }
    ensures taken { Takes (O.written out.old) (O.written out.new) (drop used text.now) result }
    ensures called { O.calls out.new ≡ and_then (O.calls out.old) (wrote (drop used text.now) result) }
    ensures failed { result ≡ sinks.Failed → Rose (O.faults out.old) (O.faults out.new) }
    ensures faults_later { O.faults out.old ≤ O.faults out.new }
{
    out.write(&text[used..])
}

/// Writes a text piece by piece, and says whether the sink took all of it.
fn written<O: Sink>(out: &mut O, text: &[u8]) -> bool
    ensures { Writes (⟦<O as SinkSeen>⟧.side out.old) (⟦<O as SinkSeen>⟧.side out.new) text.now result }
{
    let mut used = 0;
    while used < text.len() {
        match write_from(out, text, used) {
            SinkAnswer::Ok(taken) => used += taken,
            SinkAnswer::Failed => return false,
        }
    }
    true
}

/// Does what the words say. All that `run` ensures follows from what this prints and from the causes.
fn printed<S: Shelf, O: Sink, F: Far>(
    alloc: Global,
    words: &Vec<String>,
    shelf: &mut S,
    out: &mut O,
    far: &mut F,
) -> Status
    ensures does { Does (map string_bytes words.now.items) (⟦<(S, O, F) as Seen>⟧.at (shelf.old, out.old, far.old)) (⟦<(S, O, F) as Seen>⟧.at (shelf.new, out.new, far.new)) result }
    ensures read_cause { ReadCause (⟦<S as ShelfSeen>⟧.side shelf.old) (⟦<S as ShelfSeen>⟧.side shelf.new) result }
    ensures far_cause { result ≡ status.FarFault → Rose (F.faults far.old) (F.faults far.new) }
    ensures write_cause { WriteCause (map string_bytes words.now.items) (⟦<(S, O, F) as Seen>⟧.at (shelf.old, out.old, far.old)) (⟦<(S, O, F) as Seen>⟧.at (shelf.new, out.new, far.new)) result }
{
    match answered(alloc, words.as_slice(), shelf, far) {
        Ok(due) => {
            if written(out, due.text.as_slice()) {
                due.status
            } else {
                Status::WriteFault
            }
        }
        Err(error) => Status::from(error),
    }
}

/// Does what the words say: reads a source from the shelf, and writes its texts to files, or reports on it, or runs a
/// script over it, on one memory or over its two halves, of which the user half runs in the far side; or runs one over the
/// halves that three texts are; or runs what a seed makes; or holds a transcript against a run; and prints what came of it,
/// or why there is nothing. Nothing is printed before all of it is made.
pub fn run<S: Shelf, O: Sink, F: Far>(
    alloc: Global,
    words: &Vec<String>,
    shelf: &mut S,
    out: &mut O,
    far: &mut F,
) -> Status
    ensures prints { Prints (map string_bytes words.now.items) (⟦<(S, O, F) as Seen>⟧.at (shelf.old, out.old, far.old)) (⟦<(S, O, F) as Seen>⟧.at (shelf.new, out.new, far.new)) result }
    ensures does { Does (map string_bytes words.now.items) (⟦<(S, O, F) as Seen>⟧.at (shelf.old, out.old, far.old)) (⟦<(S, O, F) as Seen>⟧.at (shelf.new, out.new, far.new)) result }
    ensures read_cause { ReadCause (⟦<S as ShelfSeen>⟧.side shelf.old) (⟦<S as ShelfSeen>⟧.side shelf.new) result }
    ensures far_cause { result ≡ status.FarFault → Rose (F.faults far.old) (F.faults far.new) }
    ensures far_exchange { result ≡ status.FarFault → FailedLast (F.loaded far.new) (F.exchanges far.new) }
    ensures write_cause { WriteCause (map string_bytes words.now.items) (⟦<(S, O, F) as Seen>⟧.at (shelf.old, out.old, far.old)) (⟦<(S, O, F) as Seen>⟧.at (shelf.new, out.new, far.new)) result }
    ensures failed_write { TellsFailure (O.calls out.old) (O.calls out.new) result }
    ensures meaning { MeansWhereHonest (map string_bytes words.now.items) (⟦<(S, O, F) as Seen>⟧.at (shelf.old, out.old, far.old)) (⟦<(S, O, F) as Seen>⟧.at (shelf.new, out.new, far.new)) result }
    ensures as_written { MeansAsWritten (map string_bytes words.now.items) (⟦<(S, O, F) as Seen>⟧.at (shelf.old, out.old, far.old)) (⟦<(S, O, F) as Seen>⟧.at (shelf.new, out.new, far.new)) result }
    ensures whole_meaning { WholeMeans (map string_bytes words.now.items) (⟦<(S, O, F) as Seen>⟧.at (shelf.old, out.old, far.old)) (⟦<(S, O, F) as Seen>⟧.at (shelf.new, out.new, far.new)) result }
    ensures made_meaning { MadeMeans (map string_bytes words.now.items) (⟦<(S, O, F) as Seen>⟧.at (shelf.old, out.old, far.old)) (⟦<(S, O, F) as Seen>⟧.at (shelf.new, out.new, far.new)) result }
    ensures texts_meaning { TextsMean (map string_bytes words.now.items) (⟦<(S, O, F) as Seen>⟧.at (shelf.old, out.old, far.old)) (⟦<(S, O, F) as Seen>⟧.at (shelf.new, out.new, far.new)) result }
    ensures as_split { PrintsAsSplit (map string_bytes words.now.items) (⟦<(S, O, F) as Seen>⟧.at (shelf.old, out.old, far.old)) (⟦<(S, O, F) as Seen>⟧.at (shelf.new, out.new, far.new)) result }
    ensures comes { Comes (map string_bytes words.now.items) (S.files shelf.old) (F.loaded far.new) (F.exchanges far.new) result }
    ensures exact { IsExact (map string_bytes words.now.items) (S.files shelf.old) result }
    ensures made_exact { MadeExactly (map string_bytes words.now.items) result }
    ensures usage { command_of (map string_bytes words.now.items) ≡ None → (result ≡ status.Usage) ⊎ ((result ≡ status.WriteFault) ⊎ (result ≡ status.OutOfMemory)) }
    ensures complete { Completes (map string_bytes words.now.items) (⟦<(S, O, F) as Seen>⟧.at (shelf.old, out.old, far.old)) (⟦<(S, O, F) as Seen>⟧.at (shelf.new, out.new, far.new)) result }
    ensures cut_complete { CutCompletes (map string_bytes words.now.items) (⟦<(S, O, F) as Seen>⟧.at (shelf.old, out.old, far.old)) (⟦<(S, O, F) as Seen>⟧.at (shelf.new, out.new, far.new)) result }
    ensures whole_complete { WholeCompletes (map string_bytes words.now.items) (⟦<(S, O, F) as Seen>⟧.at (shelf.old, out.old, far.old)) (⟦<(S, O, F) as Seen>⟧.at (shelf.new, out.new, far.new)) result }
    ensures made_complete { MadeCompletes (map string_bytes words.now.items) (⟦<(S, O, F) as Seen>⟧.at (shelf.old, out.old, far.old)) (⟦<(S, O, F) as Seen>⟧.at (shelf.new, out.new, far.new)) result }
{
    printed(alloc, words, shelf, out, far)
}
