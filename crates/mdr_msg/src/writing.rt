// Writing messages: the kind, and the payload.

ghost use Rattle.std.specs.Prelude.{◌≡◌, ◌++◌, OnOk, IfOk};
ghost use Rattle.mdr_model.specs.Xdr.{four};
ghost use Rattle.mdr_model.specs.Text.{reply_text, text};
ghost use Rattle.mdr_msg.specs.Encoding.{CanEncode, CanPutReply};
ghost use Rattle.mdr_msg.specs.WellFormed.{IsMessage, IsReply};

use crate::item::Item;
use mdr_core::OutOfMemory;
use mdr_model::{Message, Reply};
use std::alloc::Global;

/// Writes a payload behind its kind.
fn put_payload<T: Item>(kind: u32, payload: &T, out: &mut Vec<u8>) -> Result<(), OutOfMemory>
    requires { T.can_be_put payload.now }
    ensures written { OnOk result (out.new.items ≡ out.old.items ++ (four kind ++ T.text payload.now)) }
    ensures spelled { OnOk result (T.has_spelling payload.now) }
{
    kind.put(out)?;
    payload.put(out)
}

#[tactic(auto, unfolding(mdr_model::specs::Text::reply_text))]
fn put_reply(reply: &Reply, out: &mut Vec<u8>) -> Result<(), OutOfMemory>
    requires { CanPutReply reply.now }
    ensures written { OnOk result (out.new.items ≡ out.old.items ++ reply_text reply.now) }
    ensures spelled { OnOk result (IsReply reply.now) }
{
    match reply {
        Reply::Return(returned) => put_payload(2, returned, out),
        Reply::Down(down) => put_payload(3, down, out),
        Reply::Ask(ask) => put_payload(5, ask, out),
        Reply::Stop(stop) => put_payload(7, stop, out),
    }
}

#[tactic(auto, unfolding(mdr_model::specs::Text::text))]
fn put_message(m: &Message, out: &mut Vec<u8>) -> Result<(), OutOfMemory>
    requires { CanEncode m.now }
    ensures written { OnOk result (out.new.items ≡ out.old.items ++ text m.now) }
    ensures spelled { OnOk result (IsMessage m.now) }
{
    match m {
        Message::Call(call) => put_payload(1, call, out),
        Message::Back(back) => put_payload(4, back, out),
        Message::Answer(answer) => put_payload(6, answer, out),
        Message::Reply(reply) => put_reply(reply, out),
        Message::Refuse(reason) => put_payload(8, reason, out),
    }
}

/// The one spelling of a message.
pub fn encode(alloc: Global, m: &Message) -> Result<Vec<u8>, OutOfMemory>
    // Each list has fewer than 2^31 items, each integer is in its kind's range, and no value is a lock.
    requires { CanEncode m.now }
    ensures written { IfOk result (λ bytes. bytes.items ≡ text m.now) }
    // What was written reads as the message.
    ensures spelled { IfOk result (λ _. IsMessage m.now) }
{
    let mut out = Vec::new(alloc);
    put_message(m, &mut out)?;
    Ok(out)
}
