// The run of a script over two halves, from their texts.

ghost use Rattle.std.specs.Prelude.{◌≡◌, ◌≢◌, IfOk, OnErr, map, option_map, string_bytes};
ghost use Rattle.mdr_due.specs.Statuses.{ReadCause};
ghost use Rattle.mdr_due.specs.declared.status.Status.TheVariants as status;
ghost use Rattle.mdr_top.specs.Names.{names_in};
ghost use Rattle.mdr_outside.specs.Count.{Rose};
ghost use Rattle.mdr_top.specs.Done.{DoneBy, PartBy};
ghost use Rattle.mdr_top.specs.Words.{AskForTexts, is_halves, texts_of};

use crate::files::TextFiles;
use crate::halves_running::halves_over;
use crate::lines::usage_line;
use crate::sides_seen::SidesSeen;
use crate::split_manner::SplitManner;
use crate::words::TICKS;
use mdr_core::OutOfMemory;
use mdr_due::{Due, Status};
use mdr_outside::{Far, Shelf, ShelfSeen};
use std::alloc::Global;

fn is_halves(run: &str, mode: &str) -> bool
    ensures { result ≡ is_halves run.now mode.now }
{
    run == "run" && mode == "halves"
}

/// The names of the texts and of the script, where the words are `run halves K U PLAN SCRIPT`.
fn texts_of(words: &[String]) -> Option<(TextFiles, &str)>
    ensures { option_map (λ x. (names_in x.0, x.1.now)) result ≡ texts_of (map string_bytes words.now) }
{
    match words {
        [run, mode, kernel, user, plan, script] if is_halves(run.as_str(), mode.as_str()) => {
            Some((
                TextFiles {
                    kernel: kernel.as_str(),
                    user: user.as_str(),
                    plan: plan.as_str(),
                },
                script.as_str(),
            ))
        }
        _ => None,
    }
}

/// What is due for words of which only a run from texts can be asked.
pub(crate) fn from_texts<S: Shelf, F: Far>(
    alloc: Global,
    words: &[String],
    shelf: &mut S,
    far: &mut F,
) -> Result<Due, OutOfMemory>
    ensures done { AskForTexts (map string_bytes words.now) → IfOk result (DoneBy (map string_bytes words.now) (⟦<(S, F) as SidesSeen>⟧.change (shelf.old, far.old) (shelf.new, far.new))) }
    ensures part { AskForTexts (map string_bytes words.now) → OnErr result (PartBy (map string_bytes words.now) (⟦<(S, F) as SidesSeen>⟧.change (shelf.old, far.old) (shelf.new, far.new))) }
    ensures read { IfOk result (λ due. ReadCause (⟦<S as ShelfSeen>⟧.side shelf.old) (⟦<S as ShelfSeen>⟧.side shelf.new) due.status) }
    ensures unwritten { IfOk result (λ due. due.status ≢ status.WriteFault) }
    ensures failed { IfOk result (λ due. due.status ≡ status.FarFault → Rose (F.faults far.old) (F.faults far.new)) }
{
    let Some((files, script_name)) = texts_of(words) else {
        return Ok(Due {
            status: Status::Usage,
            text: usage_line(alloc)?,
        });
    };
    let manner = SplitManner {
        ticks: TICKS,
        wire: false,
        region: false,
    };
    halves_over(alloc, shelf, far, files, script_name, manner)
}
