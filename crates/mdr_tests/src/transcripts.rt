// Transcripts that are read and judged, and texts that are none, against values from outside.

use mdr_core::OutOfMemory;
use mdr_verify::{Transcript, TranscriptError, Verdict, judge, read_transcript, verdict_text};
use std::alloc::Global;

/// Texts, and the lines with which no transcript goes on.
const FAULTS: &[(&str, u128)] = &[
    ("", 1),
    ("messages 0", 1),
    ("abc", 1),
    ("abc\n", 2),
    ("< aa\n", 1),
    ("x\n> aa\n> bb\n", 3),
    ("x\n> aA\n< bb\nmessages 1\n", 3),
    ("x\n> aa\n<  bb\nmessages 2\n", 3),
    ("x\n> aa\n<\n", 3),
    ("x\n> aa\r\n", 3),
    ("x\n> aa\n< bb\nmessages 02\n", 4),
    ("x\n> aa\n< bb\nmessages 3\n", 4),
    ("x\n> aa\n< bb\nmessages 2\n\n", 5),
    ("x\n> aa\n< bb\nmessages 2\nx", 5),
];

/// Transcripts, their reports, and how many messages and answers they have.
const TRANSCRIPTS: &[(&str, &str, usize, usize)] = &[
    ("messages 0\n", "", 0, 0),
    ("messages 0\nmessages 0\n", "messages 0\n", 0, 0),
    ("x\n>\nmessages 0\n", "x\n>\n", 0, 0),
    ("> \nmessages 1\n", "", 1, 0),
    ("messages 0\n> aa\nmessages 1\n", "messages 0\n", 1, 0),
    ("x\n> 00ff\n< 0a\n> 1b\nmessages 3\n", "x\n", 2, 1),
];

/// What a text says, what is due as another one tells it, and what is to be said.
const VERDICTS: &[(&str, &str, &str)] = &[
    (
        "x\n> aa\n< bb\nmessages 2\n",
        "x\n> aa\n< bb\nmessages 2\n",
        "verified 2\n",
    ),
    (
        "x\n> aa\n< bb\nmessages 2\n",
        "x\n> ab\n< bb\nmessages 2\n",
        "differs kernel 1\n",
    ),
    (
        "x\n> aa\n< bb\nmessages 2\n",
        "x\n> aa\n< bc\nmessages 2\n",
        "differs user 2\n",
    ),
    (
        "x\n> aa\nmessages 1\n",
        "x\n> aa\n< bb\nmessages 2\n",
        "differs user 2\n",
    ),
    (
        "x\n> aa\n< bb\nmessages 2\n",
        "x\n> aa\n< bb\n> cc\nmessages 3\n",
        "differs kernel 3\n",
    ),
    (
        "x\ny\n> aa\n< bb\nmessages 2\n",
        "x\nz\n> aa\n< bb\nmessages 2\n",
        "differs report 2\n",
    ),
];

fn is_fault(alloc: Global, row: &(&str, u128)) -> bool {
    let read = read_transcript(alloc, row.0.as_bytes());
    let same = match &read {
        Err(TranscriptError::Form(number)) => *number == row.1,
        _ => false,
    };
    drop(read);
    same
}

fn has_parts(transcript: &Transcript, row: &(&str, &str, usize, usize)) -> bool {
    transcript.report.as_slice() == row.1.as_bytes()
        && transcript.sent.len() == row.2
        && transcript.got.len() == row.3
}

fn is_transcript(alloc: Global, row: &(&str, &str, usize, usize)) -> bool {
    let read = read_transcript(alloc, row.0.as_bytes());
    let same = match &read {
        Ok(transcript) => has_parts(transcript, row),
        Err(_) => false,
    };
    drop(read);
    same
}

fn judged(said: &Transcript, due: &Transcript) -> Verdict {
    judge(
        said,
        due.sent.as_slice(),
        due.got.as_slice(),
        due.report.as_slice(),
    )
}

fn is_said(alloc: Global, verdict: Verdict, text: &str) -> Result<bool, OutOfMemory> {
    let said = verdict_text(alloc, verdict)?;
    Ok(said.as_slice() == text.as_bytes())
}

fn is_judged(alloc: Global, row: &(&str, &str, &str)) -> bool {
    let said = read_transcript(alloc, row.0.as_bytes());
    let due = read_transcript(alloc, row.1.as_bytes());
    let same = match (&said, &due) {
        (Ok(said), Ok(due)) => is_said(alloc, judged(said, due), row.2).unwrap_or(false),
        _ => false,
    };
    drop(said);
    drop(due);
    same
}

#[test]
fn first_lines_of_no_transcript(rt: HostRuntime) {
    for row in FAULTS {
        assert!(rt; is_fault(rt.alloc(), row), "not so: {row:?}");
    }
}

#[test]
fn transcripts_are_read(rt: HostRuntime) {
    for row in TRANSCRIPTS {
        assert!(rt; is_transcript(rt.alloc(), row), "not so: {row:?}");
    }
}

#[test]
fn transcripts_are_judged(rt: HostRuntime) {
    for row in VERDICTS {
        assert!(rt; is_judged(rt.alloc(), row), "not so: {row:?}");
    }
}
