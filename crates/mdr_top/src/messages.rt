// The lines that show the messages of a run.

ghost use Rattle.std.specs.Prelude.{◌≡◌, ◌++◌, OnOk, IfOk, decimal, true};
ghost use Rattle.mdr_top.specs.Messages.{bytes_line, answer_line, exchange_lines, lines_of, messages_by, messages_in, messages_shown, with_messages};

use mdr_core::{Items, OutOfMemory};
use mdr_due::{Due, put_bytes, put_newline, put_word};
use mdr_outside::Exchange;
use mdr_report::put_hex;
use std::alloc::Global;

/// A line of bytes, behind a mark that tells their direction.
fn put_bytes_line(out: &mut Vec<u8>, mark: &str, bytes: &[u8]) -> Result<(), OutOfMemory>
    ensures { OnOk result (out.new.items ≡ out.old.items ++ bytes_line mark.now bytes.now) }
{
    put_word(out, mark)?;
    put_hex(out, bytes)?;
    put_newline(out)
}

/// The line of an answer, where there was one.
fn put_answer(out: &mut Vec<u8>, got: &Option<Items<u8>>) -> Result<(), OutOfMemory>
    ensures { OnOk result (out.new.items ≡ out.old.items ++ answer_line got.now) }
{
    match got {
        Some(bytes) => put_bytes_line(out, "< ", bytes.as_slice()),
        None => Ok(()),
    }
}

/// The lines of a message and of the answer to it.
fn put_exchange(out: &mut Vec<u8>, exchange: &Exchange) -> Result<(), OutOfMemory>
    ensures { OnOk result (out.new.items ≡ out.old.items ++ exchange_lines exchange.now) }
{
    put_bytes_line(out, "> ", exchange.sent.as_slice())?;
    put_answer(out, &exchange.got)
}

/// The lines of exchanges.
#[tactic(auto, unfolding(crate::specs::Messages::lines_of))]
fn put_exchanges(out: &mut Vec<u8>, exchanges: &[Exchange]) -> Result<(), OutOfMemory>
    ensures { OnOk result (out.new.items ≡ out.old.items ++ lines_of exchanges.now) }
{
    for exchange in exchanges {
        put_exchange(out, exchange)?;
    }
    Ok(())
}

/// How many messages there were in an exchange.
fn messages_by(got: &Option<Items<u8>>) -> u8
    ensures { result ≡ messages_by got.now }
{
    match got {
        Some(_) => 2,
        None => 1,
    }
}

/// How many messages there were.
#[tactic(auto, unfolding(crate::specs::Messages::messages_in))]
pub fn messages_in(exchanges: &[Exchange]) -> u128
    ensures { result ≡ messages_in exchanges.now }
{
    let mut total: u128 = 0;
    for exchange in exchanges {
        total += messages_by(&exchange.got) as u128;
    }
    total
}

/// A number in decimal digits.
fn put_total(alloc: Global, out: &mut Vec<u8>, total: u128) -> Result<(), OutOfMemory>
    ensures { OnOk result (out.new.items ≡ out.old.items ++ decimal total) }
{
    let digits = total.to_string(alloc)?;
    put_word(out, digits.as_str())
}

/// The lines of exchanges, and the number of messages.
#[tactic(auto, unfolding(crate::specs::Messages::messages_shown))]
fn put_messages(alloc: Global, out: &mut Vec<u8>, exchanges: &[Exchange]) -> Result<(), OutOfMemory>
    ensures { OnOk result (out.new.items ≡ out.old.items ++ messages_shown exchanges.now) }
{
    put_exchanges(out, exchanges)?;
    put_word(out, "messages ")?;
    put_total(alloc, out, messages_in(exchanges))?;
    put_newline(out)
}

/// A report, and behind it the lines that show the messages.
pub fn report_with_messages(
    alloc: Global,
    report: &[u8],
    exchanges: &[Exchange],
) -> Result<Vec<u8>, OutOfMemory>
    ensures { IfOk result (λ text. text.items ≡ with_messages true exchanges.now report.now) }
{
    let mut out = Vec::new(alloc);
    put_bytes(&mut out, report)?;
    put_messages(alloc, &mut out, exchanges)?;
    Ok(out)
}

/// What is due, with the lines that show the messages behind its text.
fn with_lines(alloc: Global, due: Due, exchanges: &[Exchange]) -> Result<Due, OutOfMemory>
    ensures { IfOk result (λ all. (all.status ≡ due.status) × (all.text.items ≡ due.text.items ++ messages_shown exchanges.now)) }
{
    let mut all = due;
    put_messages(alloc, &mut all.text, exchanges)?;
    Ok(all)
}

/// What is due, with the lines that show the messages behind its text where they are asked for.
pub(crate) fn with_messages(
    alloc: Global,
    due: Due,
    wire: bool,
    exchanges: &[Exchange],
) -> Result<Due, OutOfMemory>
    ensures { IfOk result (λ all. (all.status ≡ due.status) × (all.text.items ≡ with_messages wire exchanges.now due.text.items)) }
{
    if wire {
        with_lines(alloc, due, exchanges)
    } else {
        Ok(due)
    }
}
