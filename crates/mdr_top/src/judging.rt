// A transcript, held against a run.

ghost use Rattle.std.specs.Prelude.{◌≡◌, ◌↔◌, IfOk, IsTrue};
ghost use Rattle.mdr_top.specs.Judged.{Says, Differs, IsSaid};

use crate::lists::{answers_of, sent_of};
use crate::messages::{messages_in, report_with_messages};
use crate::saying::{misread, said};
use mdr_core::OutOfMemory;
use mdr_due::Due;
use mdr_outside::Exchange;
use mdr_verify::{Transcript, TranscriptError, Verdict, judge, read_transcript};
use std::alloc::Global;

/// The verdict over a transcript that was read.
fn compared(
    alloc: Global,
    transcript: &Transcript,
    exchanges: &[Exchange],
    report: &[u8],
) -> Result<Due, OutOfMemory>
    ensures { IfOk result (λ due. Says transcript.now exchanges.now report.now due.status due.text.items) }
{
    let sent = sent_of(alloc, exchanges)?;
    let answers = answers_of(alloc, exchanges)?;
    let verdict = judge(transcript, sent.as_slice(), answers.as_slice(), report);
    let due = said(alloc, verdict)?;
    Ok(due)
}

/// What there is to say of bytes that aren't what is printed of the run.
fn differing(
    alloc: Global,
    bytes: &[u8],
    exchanges: &[Exchange],
    report: &[u8],
) -> Result<Due, OutOfMemory>
    ensures { IfOk result (λ due. Differs bytes.now exchanges.now report.now due.status due.text.items) }
{
    match read_transcript(alloc, bytes) {
        Ok(transcript) => {
            let due = compared(alloc, &transcript, exchanges, report);
            drop(transcript);
            due
        }
        Err(TranscriptError::Form(number)) => misread(alloc, number),
        Err(TranscriptError::OutOfMemory) => Err(OutOfMemory::passed_on()),
    }
}

fn is_same(bytes: &[u8], others: &[u8]) -> bool
    ensures { IsTrue result ↔ (bytes.now ≡ others.now) }
{
    bytes == others
}

/// What there is to say of bytes, where the run had these exchanges and this report.
pub(crate) fn judged(
    alloc: Global,
    bytes: &[u8],
    exchanges: &[Exchange],
    report: &[u8],
) -> Result<Due, OutOfMemory>
    ensures { IfOk result (λ due. IsSaid bytes.now exchanges.now report.now due.status due.text.items) }
{
    let printed = report_with_messages(alloc, report, exchanges)?;
    if is_same(bytes, printed.as_slice()) {
        return said(alloc, Verdict::Yes(messages_in(exchanges)));
    }
    differing(alloc, bytes, exchanges, report)
}
