// The command that runs a script over two halves, from their texts.

ghost use Rattle.std.specs.Prelude.{◌≡◌, IfOk, OnErr};
ghost use Rattle.mdr_due.specs.declared.status.Status.TheVariants as status;
ghost use Rattle.mdr_outside.specs.Count.{Rose};
ghost use Rattle.mdr_top.specs.Gives.{ReadCauseBy};
ghost use Rattle.mdr_top.specs.Names.{names_in};
ghost use Rattle.mdr_top.specs.HalvesRuns.{HalvesRunsBy, HalvesPartBy};

use crate::files::TextFiles;
use crate::sides_seen::SidesSeen;
use crate::sources::source_in;
use crate::split_manner::SplitManner;
use crate::split_running::split_run_over;
use mdr_core::OutOfMemory;
use mdr_due::{Due, Stage};
use mdr_outside::{Far, Shelf};
use std::alloc::Global;

/// Reads the texts of two halves and of their plan and then a script, and runs the script over the halves: the kernel half
/// here, and the user half in the far side, which is loaded with its text and the plan's. Texts that are those of no source
/// are told before the script is read, and neither changes the far side.
pub fn halves_over<S: Shelf, F: Far>(
    alloc: Global,
    shelf: &mut S,
    far: &mut F,
    files: TextFiles,
    script_name: &str,
    manner: SplitManner,
) -> Result<Due, OutOfMemory>
    ensures done { IfOk result (HalvesRunsBy (names_in files.entry) script_name.now manner (⟦<(S, F) as SidesSeen>⟧.change (shelf.old, far.old) (shelf.new, far.new))) }
    ensures part { OnErr result (HalvesPartBy (names_in files.entry) script_name.now manner.ticks (⟦<(S, F) as SidesSeen>⟧.change (shelf.old, far.old) (shelf.new, far.new))) }
    ensures kept { S.files shelf.new ≡ S.files shelf.old }
    ensures read { IfOk result (ReadCauseBy (⟦<(S, F) as SidesSeen>⟧.change (shelf.old, far.old) (shelf.new, far.new))) }
    ensures failed { IfOk result (λ due. due.status ≡ status.FarFault → Rose (F.faults far.old) (F.faults far.new)) }
{
    let source = match source_in(alloc, shelf, files) {
        Ok(Stage::Goes(source)) => source,
        Ok(Stage::Ends(due)) => return Ok(due),
        Err(error) => return Err(error),
    };
    let due = split_run_over(alloc, shelf, far, &source, script_name, manner);
    drop(source);
    due
}
