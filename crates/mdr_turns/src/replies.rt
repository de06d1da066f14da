// What a reply says.

ghost use Rattle.std.specs.Prelude.{◌≡◌, IfOk};
ghost use Rattle.mdr_events.specs.Values.{wires_of};
ghost use Rattle.mdr_model.specs.ReplyFaults.{reply_of};

use mdr_core::{Items, OutOfMemory, Value};
use mdr_kernel_memory::values_of;
use mdr_model::{Message, Reply, Wire};
use mdr_watch::Guarded;
use std::alloc::Global;

/// The reply that a message is, if its kind is awaited.
pub(crate) fn reply_of(message: Message) -> Option<Reply>
    ensures { result ≡ reply_of message }
{
    match message {
        Message::Reply(reply) => Some(reply),
        Message::Call(_) | Message::Back(_) | Message::Answer(_) | Message::Refuse(_) => None,
    }
}

/// The values that a reply names by these wires.
pub(crate) fn given(
    alloc: Global,
    guarded: &Guarded,
    wires: &[Wire],
) -> Result<Items<Value>, OutOfMemory>
    ensures { IfOk result (λ vs. wires_of vs ≡ wires.now) }
{
    values_of(alloc, guarded.world(), wires)
}
