// Reading a transcript.

ghost use Rattle.std.specs.Prelude.{◌≡◌, ◌<◌, ◌^◌, length};
ghost use Rattle.mdr_verify.specs.Transcripts.{Transcribes};
ghost use Rattle.mdr_verify.specs.Steps.{is_whole};
ghost use Rattle.mdr_verify.specs.Reading.{Ends};

use crate::reader::{Reader, Stage};
use crate::split::split_line;
use crate::transcript::{Transcript, TranscriptError};
use mdr_script::Unread;
use std::alloc::Global;

fn is_whole(stage: Stage) -> bool
    ensures { result ≡ is_whole stage }
{
    match stage {
        Stage::Zero | Stage::Done => true,
        Stage::Report | Stage::Sent | Stage::Got => false,
    }
}

/// The transcript, where its last line was read.
fn finish(reader: Reader, number: u128) -> Result<Transcript, TranscriptError>
    ensures { Ends reader number result }
{
    if is_whole(reader.stage) {
        Ok(Transcript {
            report: reader.report,
            sent: reader.sent,
            got: reader.got,
        })
    } else {
        Err(TranscriptError::Form(number))
    }
}

fn read_lines(alloc: Global, bytes: &[u8]) -> Result<Transcript, TranscriptError>
    requires { length bytes.now < 2 ^ 64 }
    ensures { Transcribes bytes.now result }
{
    let mut reader = Reader::new(alloc);
    let mut number = 1u128;
    let mut rest = bytes;
    while !rest.is_empty() {
        let Some((line, after)) = split_line(rest) else {
            return Err(TranscriptError::Form(number));
        };
        match reader.step(alloc, line) {
            Ok(()) => {}
            Err(Unread::Refused) => return Err(TranscriptError::Form(number)),
            Err(Unread::OutOfMemory) => return Err(TranscriptError::OutOfMemory),
        }
        number += 1;
        rest = after;
    }
    finish(reader, number)
}

/// The transcript that the bytes are, or the number of the first line with which no transcript goes on.
pub fn read_transcript(alloc: Global, bytes: &[u8]) -> Result<Transcript, TranscriptError>
    ensures { Transcribes bytes.now result }
{
    let _fits = bytes.len();
    read_lines(alloc, bytes)
}
