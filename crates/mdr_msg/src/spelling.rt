// What both halves do with messages: bytes are read as one, and one is written as bytes.

ghost use Rattle.std.specs.Prelude.{◌≡◌, IfOk, Err};
ghost use Rattle.mdr_model.specs.Text.{text};
ghost use Rattle.mdr_model.specs.Reading.{reading_of};
ghost use Rattle.mdr_model.specs.Faults.{fault};
ghost use Rattle.mdr_msg.specs.WellFormed.{IsMessage};

use crate::encodable::can_encode;
use crate::error::MsgError;
use crate::reading::decode;
use crate::writing::encode;
use mdr_core::{Limit, OutOfMemory, RefuseKind};
use mdr_model::{Fault, Message};
use std::alloc::Global;

fn misread(kind: RefuseKind, number: u64) -> Result<Message, Fault>
    ensures { result ≡ Err (fault kind number) }
{
    Err(Fault { kind, number })
}

/// What bytes are as a message: the message, or why they are none.
pub fn reading_of(alloc: Global, bytes: &[u8]) -> Result<Result<Message, Fault>, OutOfMemory>
    ensures { IfOk result (λ r. r ≡ reading_of bytes.now) }
{
    match decode(alloc, bytes) {
        Ok(message) => Ok(Ok(message)),
        Err(MsgError::Short(at)) => Ok(misread(RefuseKind::Short, at)),
        Err(MsgError::Range(at)) => Ok(misread(RefuseKind::Range, at)),
        Err(MsgError::Padding(at)) => Ok(misread(RefuseKind::Padding, at)),
        Err(MsgError::Kind(at)) => Ok(misread(RefuseKind::Kind, at)),
        Err(MsgError::Trailing(at)) => Ok(misread(RefuseKind::Trailing, at)),
        Err(MsgError::OutOfMemory) => Err(OutOfMemory::passed_on()),
    }
}

/// The bytes of a message. One that can't be encoded (a list of 2^31 items or more, a number past its kind's range,
/// a lock) is want of memory.
pub fn spelled(alloc: Global, message: &Message) -> Result<Vec<u8>, OutOfMemory>
    ensures written { IfOk result (λ bytes. bytes.items ≡ text message.now) }
    ensures spelled { IfOk result (λ _. IsMessage message.now) }
{
    if can_encode(message) {
        encode(alloc, message)
    } else {
        Err(Limit::Items.past())
    }
}
