// The next state of a run after an answer, or after none.

ghost use Rattle.std.specs.Prelude.{◌≡◌, IfOk};
ghost use Rattle.mdr_core.specs.Sound.{IsSound};
ghost use Rattle.mdr_split.specs.Kernel.{next};
ghost use Rattle.mdr_watch.specs.Watching.{IsFit, driver_in};
ghost use Rattle.mdr_turns.specs.Coming.{ComesTo, IsLeft, KeptFor, from_waiting};
ghost use Rattle.mdr_turns.specs.States.{StandsFor, kernel_of};

use crate::ending::left;
use crate::judged::{answered, refused};
use crate::replies::reply_of;
use crate::state::{Pending, Seen, Waiting};
use mdr_core::OutOfMemory;
use mdr_model::{Command, Fault, Message};
use mdr_watch::Watch;
use mdr_world::World;
use std::alloc::Global;

/// What an answer leads to: the next message, or the end. One that is no message, or no legal reply, ends the run, and
/// nothing of it is applied.
#[tactic(auto, unfolding(mdr_split::specs::Kernel::next))]
pub fn next<'a>(
    alloc: Global,
    watch: Watch<'a>,
    script: &[Command],
    waiting: Waiting<'a>,
    reading: Result<Message, Fault>,
) -> Result<Pending<'a>, OutOfMemory>
    requires sound { IsSound watch.program.now }
    requires fit { IsFit watch }
    requires stands { StandsFor watch waiting }
    ensures kept { IfOk result (KeptFor watch.entry) }
    ensures comes { IfOk result (λ p. ComesTo (driver_in watch.entry) p script.now (from_waiting (driver_in watch.entry) waiting.entry script.now (next (driver_in watch.entry) reading))) }
{
    match reading {
        Ok(message) => answered(alloc, watch, script, waiting, reply_of(message)),
        Err(fault) => Ok(refused(fault, waiting)),
    }
}

/// No answer came: the state in which the run waited for it.
pub fn unanswered<'a>(waiting: Waiting<'a>) -> World<'a>
    ensures left { IsLeft (kernel_of waiting.entry).world result.world }
    ensures program { result.program ≡ waiting.entry.seen.guarded.program }
{
    let Waiting {
        seen,
        ledger,
        open,
        behind,
    } = waiting;
    drop(ledger);
    drop(open);
    drop(behind);
    let Seen {
        guarded,
        memory,
        view,
        ..
    } = seen;
    drop(memory);
    drop(view);
    left(guarded)
}
