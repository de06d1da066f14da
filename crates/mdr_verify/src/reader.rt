// What was read of a transcript.

ghost use Rattle.std.specs.Prelude.{◌≡◌, ◌+◌, ◌∷◌, ◌++◌, [], length, IfOk, OnOk};
ghost use Rattle.std.specs.Str.{bytes_eq};
ghost use Rattle.mdr_verify.specs.Transcripts.{count_text};
ghost use Rattle.mdr_verify.specs.Lines.{line_at};
ghost use Rattle.mdr_verify.specs.Steps.{start, no_messages, after_report, after_count, after_other, after_by, after, Took};
ghost use Rattle.mdr_verify.specs.Steps.{is_zero, reopened, takes_sent, after_sent, takes_got, after_got, in_report, takes_count};

use crate::line::{Line, line_of};
use crate::put::{put_number, put_word};
use mdr_core::Items;
use mdr_script::Unread;
use std::alloc::{AllocError, Global};
use std::mem;

/// Which lines were read last.
#[derive(Clone, Copy)]
pub enum Stage {
    /// Lines of the report, or none.
    Report,
    /// A line that says that there is no message. It is the last of all, or one of the report.
    Zero,
    /// A message to the user half.
    Sent,
    /// An answer.
    Got,
    /// The number of messages.
    Done,
}

/// What was read of a transcript so far.
#[derive(Drop)]
pub struct Reader {
    pub stage: Stage,
    pub report: Items<u8>,
    pub sent: Items<Items<u8>>,
    pub got: Items<Items<u8>>,
}

/// The line is there, and its newline.
fn push_line(text: &mut Vec<u8>, line: &[u8]) -> Result<(), AllocError>
    ensures { OnOk result (text.new.items ≡ text.old.items ++ (line.now ++ 10 ∷ [])) }
{
    text.extend_from_slice(line)?;
    text.push(b'\n')?;
    Ok(())
}

fn with_line(text: Items<u8>, line: &[u8]) -> Result<Items<u8>, AllocError>
    ensures { IfOk result (λ new. new ≡ text ++ (line.now ++ 10 ∷ [])) }
{
    let mut text = text.into_vec();
    push_line(&mut text, line)?;
    Ok(Items::from_vec(text))
}

/// Adds a line. Where memory is wanting nothing is left.
fn add_line(alloc: Global, text: &mut Items<u8>, line: &[u8]) -> Result<(), AllocError>
    ensures { OnOk result (text.new ≡ text.old ++ (line.now ++ 10 ∷ [])) }
{
    let old = mem::replace(text, Items::new(alloc));
    *text = with_line(old, line)?;
    Ok(())
}

fn put_count(alloc: Global, text: &mut Vec<u8>, number: u128) -> Result<(), AllocError>
    ensures { OnOk result (text.new.items ≡ text.old.items ++ count_text number) }
{
    put_word(text, "messages ")?;
    put_number(alloc, text, number)
}

/// The number of messages, as the last line tells it.
fn count_text(alloc: Global, number: u128) -> Result<Vec<u8>, AllocError>
    ensures { IfOk result (λ text. text.items ≡ count_text number) }
{
    let mut text = Vec::new(alloc);
    put_count(alloc, &mut text, number)?;
    Ok(text)
}

fn is_no_messages(line: &[u8]) -> bool
    ensures { result ≡ bytes_eq line.now no_messages }
{
    line == b"messages 0".as_slice()
}

fn is_count(alloc: Global, line: &[u8], number: u128) -> Result<bool, AllocError>
    ensures { IfOk result (λ same. same ≡ bytes_eq line.now (count_text number)) }
{
    let text = count_text(alloc, number)?;
    Ok(line == text.as_slice())
}

fn is_zero(stage: Stage) -> bool
    ensures { result ≡ is_zero stage }
{
    match stage {
        Stage::Zero => true,
        Stage::Report | Stage::Sent | Stage::Got | Stage::Done => false,
    }
}

/// Whether a message may come next.
fn takes_sent(stage: Stage) -> bool
    ensures { result ≡ takes_sent stage }
{
    match stage {
        Stage::Report | Stage::Got => true,
        Stage::Zero | Stage::Sent | Stage::Done => false,
    }
}

/// Whether an answer may come next.
fn takes_got(stage: Stage) -> bool
    ensures { result ≡ takes_got stage }
{
    match stage {
        Stage::Sent => true,
        Stage::Report | Stage::Zero | Stage::Got | Stage::Done => false,
    }
}

/// Whether there was no message yet.
fn in_report(stage: Stage) -> bool
    ensures { result ≡ in_report stage }
{
    match stage {
        Stage::Report => true,
        Stage::Zero | Stage::Sent | Stage::Got | Stage::Done => false,
    }
}

/// Whether the number of messages may come next.
fn takes_count(stage: Stage) -> bool
    ensures { result ≡ takes_count stage }
{
    match stage {
        Stage::Sent | Stage::Got => true,
        Stage::Report | Stage::Zero | Stage::Done => false,
    }
}

impl Reader {
    /// Before the first line.
    pub fn new(alloc: Global) -> Reader
        ensures { result ≡ start }
    {
        Reader {
            stage: Stage::Report,
            report: Items::new(alloc),
            sent: Items::new(alloc),
            got: Items::new(alloc),
        }
    }

    /// A line that said that there is no message was one of the report, since there is a further one.
    fn reopen(&mut self, alloc: Global) -> Result<(), AllocError>
        ensures { OnOk result (self.new ≡ reopened self.old) }
    {
        if !is_zero(self.stage) {
            return Ok(());
        }
        add_line(alloc, &mut self.report, b"messages 0".as_slice())?;
        self.stage = Stage::Report;
        Ok(())
    }

    fn take_sent(&mut self, message: Items<u8>) -> Result<(), Unread>
        ensures { Took result (after_sent self.old message) self.new }
    {
        if !takes_sent(self.stage) {
            return Err(Unread::Refused);
        }
        self.sent.push(message)?;
        self.stage = Stage::Sent;
        Ok(())
    }

    fn take_got(&mut self, message: Items<u8>) -> Result<(), Unread>
        ensures { Took result (after_got self.old message) self.new }
    {
        if !takes_got(self.stage) {
            return Err(Unread::Refused);
        }
        self.got.push(message)?;
        self.stage = Stage::Got;
        Ok(())
    }

    fn take_report(&mut self, alloc: Global, line: &[u8]) -> Result<(), AllocError>
        ensures { OnOk result (self.new ≡ after_report self.old line.now) }
    {
        if is_no_messages(line) {
            self.stage = Stage::Zero;
            return Ok(());
        }
        add_line(alloc, &mut self.report, line)
    }

    fn count(&self) -> u128
        ensures { result ≡ length self.now.sent + length self.now.got }
    {
        self.sent.len() as u128 + self.got.len() as u128
    }

    fn take_count(&mut self, alloc: Global, line: &[u8]) -> Result<(), Unread>
        ensures { Took result (after_count self.old line.now) self.new }
    {
        if !is_count(alloc, line, self.count())? {
            return Err(Unread::Refused);
        }
        self.stage = Stage::Done;
        Ok(())
    }

    fn take_other(&mut self, alloc: Global, line: &[u8]) -> Result<(), Unread>
        ensures { Took result (after_other self.old line.now) self.new }
    {
        if in_report(self.stage) {
            self.take_report(alloc, line)?;
            return Ok(());
        }
        if takes_count(self.stage) {
            return self.take_count(alloc, line);
        }
        Err(Unread::Refused)
    }

    fn take(&mut self, alloc: Global, bytes: &[u8]) -> Result<(), Unread>
        ensures { Took result (after_by self.old (line_at bytes.now) bytes.now) self.new }
    {
        match line_of(alloc, bytes)? {
            Line::Sent(message) => self.take_sent(message),
            Line::Got(message) => self.take_got(message),
            Line::Other => self.take_other(alloc, bytes),
        }
    }

    /// Takes a line, if it can stand there.
    pub fn step(&mut self, alloc: Global, bytes: &[u8]) -> Result<(), Unread>
        ensures { Took result (after self.old bytes.now) self.new }
    {
        self.reopen(alloc)?;
        self.take(alloc, bytes)
    }
}
