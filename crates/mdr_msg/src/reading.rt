// Reading messages: the kind, and the payload.

ghost use Rattle.std.specs.Prelude.{◌≡◌, IfOk, Ok};
ghost use Rattle.mdr_model.specs.declared.message.Message.TheVariants as message;
ghost use Rattle.mdr_model.specs.declared.reply.Reply.TheVariants as replies;
ghost use Rattle.mdr_model.specs.Text.{text};
ghost use Rattle.mdr_msg.specs.WellFormed.{IsMessage};
ghost use Rattle.mdr_model.specs.Xdr.{four_at};
ghost use Rattle.mdr_model.specs.Reading.{answer_at, ask_at, back_at, call_at, down_at, made, message_at, message_by, reading_of, return_at, stop_at};
ghost use Rattle.mdr_msg.specs.Decoding.{Gives, Reads};

use crate::error::MsgError;
use crate::item::Item;
use mdr_model::{Answer, Ask, Back, Call, Down, Message, Reply, Return, Stop};
use mdr_xdr::Cursor;
use std::alloc::Global;

fn get_call(alloc: Global, bytes: &[u8], c: &mut Cursor) -> Result<Message, MsgError>
    ensures { Gives bytes.now c.old.at c.new.at result (made (λ call. message.Call call) call_at) }
{
    let call = Call::get(alloc, bytes, c)?;
    Ok(Message::Call(call))
}

fn get_return(alloc: Global, bytes: &[u8], c: &mut Cursor) -> Result<Message, MsgError>
    ensures { Gives bytes.now c.old.at c.new.at result (made (λ return. message.Reply (replies.Return return)) return_at) }
{
    let returned = Return::get(alloc, bytes, c)?;
    Ok(Message::Reply(Reply::Return(returned)))
}

fn get_down(alloc: Global, bytes: &[u8], c: &mut Cursor) -> Result<Message, MsgError>
    ensures { Gives bytes.now c.old.at c.new.at result (made (λ down. message.Reply (replies.Down down)) down_at) }
{
    let down = Down::get(alloc, bytes, c)?;
    Ok(Message::Reply(Reply::Down(down)))
}

fn get_back(alloc: Global, bytes: &[u8], c: &mut Cursor) -> Result<Message, MsgError>
    ensures { Gives bytes.now c.old.at c.new.at result (made (λ back. message.Back back) back_at) }
{
    let back = Back::get(alloc, bytes, c)?;
    Ok(Message::Back(back))
}

fn get_ask(alloc: Global, bytes: &[u8], c: &mut Cursor) -> Result<Message, MsgError>
    ensures { Gives bytes.now c.old.at c.new.at result (made (λ ask. message.Reply (replies.Ask ask)) ask_at) }
{
    let ask = Ask::get(alloc, bytes, c)?;
    Ok(Message::Reply(Reply::Ask(ask)))
}

fn get_answer(alloc: Global, bytes: &[u8], c: &mut Cursor) -> Result<Message, MsgError>
    ensures { Gives bytes.now c.old.at c.new.at result (made (λ answer. message.Answer answer) answer_at) }
{
    let answer = Answer::get(alloc, bytes, c)?;
    Ok(Message::Answer(answer))
}

fn get_stop(alloc: Global, bytes: &[u8], c: &mut Cursor) -> Result<Message, MsgError>
    ensures { Gives bytes.now c.old.at c.new.at result (made (λ stop. message.Reply (replies.Stop stop)) stop_at) }
{
    let stop = Stop::get(alloc, bytes, c)?;
    Ok(Message::Reply(Reply::Stop(stop)))
}

fn get_refuse(alloc: Global, bytes: &[u8], c: &mut Cursor) -> Result<Message, MsgError>
    ensures { Gives bytes.now c.old.at c.new.at result (made (λ reason. message.Refuse reason) four_at) }
{
    let reason = u32::get(alloc, bytes, c)?;
    Ok(Message::Refuse(reason))
}

/// Reads what follows a message's kind, which stands at an offset.
#[tactic(auto, unfolding(mdr_model::specs::Reading::message_by))]
fn get_kind(
    alloc: Global,
    kind: u32,
    at: u64,
    bytes: &[u8],
    c: &mut Cursor,
) -> Result<Message, MsgError>
    ensures { Gives bytes.now c.old.at c.new.at result (message_by kind at) }
{
    match kind {
        1 => get_call(alloc, bytes, c),
        2 => get_return(alloc, bytes, c),
        3 => get_down(alloc, bytes, c),
        4 => get_back(alloc, bytes, c),
        5 => get_ask(alloc, bytes, c),
        6 => get_answer(alloc, bytes, c),
        7 => get_stop(alloc, bytes, c),
        8 => get_refuse(alloc, bytes, c),
        _ => Err(MsgError::Kind(at)),
    }
}

#[tactic(auto, unfolding(mdr_model::specs::Reading::message_at))]
fn get_message(alloc: Global, bytes: &[u8], c: &mut Cursor) -> Result<Message, MsgError>
    ensures { Gives bytes.now c.old.at c.new.at result message_at }
{
    let at = c.at;
    let kind = u32::get(alloc, bytes, c)?;
    get_kind(alloc, kind, at, bytes, c)
}

#[tactic(auto, unfolding(mdr_model::specs::Reading::reading_of))]
fn whole(alloc: Global, bytes: &[u8]) -> Result<Message, MsgError>
    ensures { Reads result (reading_of bytes.now) }
{
    let mut c = Cursor { at: 0 };
    let m = get_message(alloc, bytes, &mut c)?;
    if c.at < bytes.len() as u64 {
        return Err(MsgError::Trailing(c.at));
    }
    Ok(m)
}

/// The message that the bytes spell, all of the bytes.
pub fn decode(alloc: Global, bytes: &[u8]) -> Result<Message, MsgError>
    // What is read is spelled so.
    ensures found { IfOk result (λ m. IsMessage m × (bytes.now ≡ text m)) }
    // What is spelled so is read, unless memory runs out.
    ensures only { (m : Message) → IsMessage m → bytes.now ≡ text m → Reads result (Ok m) }
    // Which fault it is.
    ensures exact { Reads result (reading_of bytes.now) }
{
    whole(alloc, bytes)
}
