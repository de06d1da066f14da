// From one message of a run to its next.

ghost use Rattle.std.specs.Prelude.{◌≡◌, ◌≤◌, ◌+◌, IfOk, OnErr};
ghost use Rattle.mdr_core.specs.Sound.{IsSound};
ghost use Rattle.mdr_exchanges.specs.Calls.{Broke};
ghost use Rattle.mdr_model.specs.Text.{text};
ghost use Rattle.mdr_msg.specs.WellFormed.{IsMessage};
ghost use Rattle.mdr_near.specs.Turns.{BeginsSo, IsUnanswered, KeptBy, LeadsTo, Turned, messages_of};
ghost use Rattle.mdr_outside.specs.Calls.{Sends, and_then};
ghost use Rattle.mdr_outside.specs.Count.{Rose};
ghost use Rattle.mdr_outside.specs.Far.{IsLoaded};
ghost use Rattle.mdr_turns.specs.Coming.{KeptFor};
ghost use Rattle.mdr_turns.specs.States.{StandsFor};
ghost use Rattle.mdr_watch.specs.Watching.{IsFit, driver_in};

use crate::send::send;
use mdr_bound::Bound;
use mdr_core::OutOfMemory;
use mdr_model::{Fault, Message};
use mdr_outside::Far;
use mdr_turns::{Pending, Waiting, begun, next, unanswered};
use mdr_watch::Watch;
use mdr_world::World;
use std::alloc::Global;

/// What came of a message: the next state; or there was no answer, with the number of the message, and the run ends in
/// this world.
#[derive(Drop)]
pub(crate) enum Turn<'a> {
    Next(Pending<'a>),
    Unanswered(u64, World<'a>),
}

/// Where a run first waits, or that it is over.
pub(crate) fn first<'a>(
    alloc: Global,
    watch: Watch<'a>,
    script: &Bound,
    ticks: u64,
) -> Result<Pending<'a>, OutOfMemory>
    requires sound { IsSound watch.program.now }
    requires fit { IsFit watch }
    ensures kept { IfOk result (KeptFor watch.entry) }
    ensures comes { IfOk result (λ p. BeginsSo (driver_in watch.entry) script.now ticks p) }
{
    let world = World::new(alloc, watch.program, script, ticks)?;
    let pending = begun(alloc, watch, script.commands.as_slice(), world)?;
    Ok(pending)
}

/// Where a run waits after an answer, or that it is over.
fn later<'a>(
    alloc: Global,
    watch: Watch<'a>,
    script: &Bound,
    waiting: Waiting<'a>,
    reading: Result<Message, Fault>,
) -> Result<Pending<'a>, OutOfMemory>
    requires sound { IsSound watch.program.now }
    requires fit { IsFit watch }
    requires stands { StandsFor watch waiting }
    ensures kept { IfOk result (KeptFor watch.entry) }
    ensures comes { IfOk result (λ p. LeadsTo (driver_in watch.entry) script.now.commands waiting.entry reading p) }
{
    let pending = next(alloc, watch, script.commands.as_slice(), waiting, reading)?;
    Ok(pending)
}

/// Sends the message for which a run waits, and takes the answer.
pub(crate) fn turned<'a, F: Far>(
    alloc: Global,
    watch: Watch<'a>,
    script: &Bound,
    message: Message,
    waiting: Waiting<'a>,
    far: &mut F,
    messages: &mut u64,
) -> Result<Turn<'a>, OutOfMemory>
    requires sound { IsSound watch.program.now }
    requires fit { IsFit watch }
    requires stands { StandsFor watch waiting }
    requires loaded { IsLoaded (F.loaded far.old) }
    ensures kept { IfOk result (KeptBy watch.entry) }
    ensures turned { IfOk result (Turned (driver_in watch.entry) script.now.commands message waiting.entry (F.exchanges far.old) (F.exchanges far.new)) }
    ensures spelled { IfOk result (λ _. IsMessage message) }
    ensures called { IfOk result (λ _. F.calls far.new ≡ and_then (F.calls far.old) (Sends (text message))) }
    ensures counted { IfOk result (λ turn. messages.new ≡ messages.old + messages_of turn) }
    ensures broke { OnErr result (Broke message (F.calls far.old) (F.calls far.new) (F.exchanges far.old) (F.exchanges far.new) messages.old messages.new) }
    ensures loaded { F.loaded far.new ≡ F.loaded far.old }
    ensures failed { IfOk result (λ turn. IsUnanswered turn → Rose (F.faults far.old) (F.faults far.new)) }
    ensures faults_later { F.faults far.old ≤ F.faults far.new }
{
    match send(alloc, message, far, messages) {
        Ok(Some(reading)) => {
            let pending = later(alloc, watch, script, waiting, reading)?;
            Ok(Turn::Next(pending))
        }
        Ok(None) => {
            let number = waiting.exchanges();
            let world = unanswered(waiting);
            Ok(Turn::Unanswered(number, world))
        }
        Err(error) => {
            drop(waiting);
            Err(error)
        }
    }
}
