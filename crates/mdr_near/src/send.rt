// A message is sent, and its answer is read.

ghost use Rattle.std.specs.Prelude.{◌≡◌, ◌≤◌, ◌+◌, None, IfOk, OnErr};
ghost use Rattle.mdr_exchanges.specs.Calls.{Broke};
ghost use Rattle.mdr_model.specs.Text.{text};
ghost use Rattle.mdr_msg.specs.WellFormed.{IsMessage};
ghost use Rattle.mdr_near.specs.Turns.{Answered, had};
ghost use Rattle.mdr_outside.specs.Calls.{Sends, and_then};
ghost use Rattle.mdr_outside.specs.Count.{Rose};
ghost use Rattle.mdr_outside.specs.Far.{IsLoaded};

use mdr_core::{Limit, OutOfMemory, within};
use mdr_model::{Fault, Message};
use mdr_msg::{reading_of, spelled};
use mdr_outside::{DeliverAnswer, Far};
use std::alloc::Global;

/// The bytes of a message. That it has no spelling is want of memory.
fn bytes_of(alloc: Global, message: Message) -> Result<Vec<u8>, OutOfMemory>
    ensures written { IfOk result (λ bytes. bytes.items ≡ text message) }
    ensures spelled { IfOk result (λ _. IsMessage message) }
{
    spelled(alloc, &message)
}

/// Sends a message, counts it, and reads and counts the answer. Without an answer there is nothing to read.
pub(crate) fn send<F: Far>(
    alloc: Global,
    message: Message,
    far: &mut F,
    messages: &mut u64,
) -> Result<Option<Result<Message, Fault>>, OutOfMemory>
    requires { IsLoaded (F.loaded far.old) }
    ensures answered { IfOk result (Answered message (F.exchanges far.old) (F.exchanges far.new)) }
    ensures spelled { IfOk result (λ _. IsMessage message) }
    ensures called { IfOk result (λ _. F.calls far.new ≡ and_then (F.calls far.old) (Sends (text message))) }
    ensures counted { IfOk result (λ answer. messages.new ≡ messages.old + had answer) }
    ensures broke { OnErr result (Broke message (F.calls far.old) (F.calls far.new) (F.exchanges far.old) (F.exchanges far.new) messages.old messages.new) }
    ensures loaded { F.loaded far.new ≡ F.loaded far.old }
    ensures failed { IfOk result (λ answer. answer ≡ None → Rose (F.faults far.old) (F.faults far.new)) }
    ensures faults_later { F.faults far.old ≤ F.faults far.new }
{
    let bytes = bytes_of(alloc, message)?;
    within(*messages, Limit::Messages)?;
    let both = *messages + 2;
    *messages += 1;
    match far.deliver(alloc, bytes.as_slice()) {
        DeliverAnswer::Ok(reply) => {
            *messages = both;
            let reading = reading_of(alloc, reply.as_slice())?;
            Ok(Some(reading))
        }
        DeliverAnswer::Failed => Ok(None),
        DeliverAnswer::OutOfMemory => Err(OutOfMemory::passed_on()),
    }
}
