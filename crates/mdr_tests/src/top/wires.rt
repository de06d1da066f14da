// The messages and the layout of runs over far sides that give the answers that they were told to give, shown behind the
// reports.

use super::answers::{FIRST, answers_of};
use super::{expect_run, shelf_of};
use mdr_outside::{DeliverAnswer, LoadAnswer, LyingFar};
use mdr_top::Status;
use std::alloc::{AllocError, Global};
use std::process::Abort;
use std::test::Fail;

/// The words of a run whose messages are shown, and its layout.
const WIRED: &[&str] = &[
    "run",
    "split",
    "bump.c",
    "open.script",
    "--region",
    "--wire",
];

/// The answer to the texts, the replies, and the status and the text of the run, in pieces.
type Row = (
    LoadAnswer,
    &'static [&'static [u32]],
    Status,
    &'static [&'static str],
);

/// The line of the run's first message.
const CALL: &str =
    "> 00000001000000010000000000000000000f4240000000000000000000000000000000010000000000000000000000000000000100000000\n";

/// Where the replies are used up the far side fails. A message without an answer is shown and counted, an answer that is
/// refused too; where nothing was loaded there is none, and the layout is that of the driver's one global.
const RUNS: &[Row] = &[
    (
        LoadAnswer::Failed,
        &[],
        Status::FarFault,
        &["far fault 0\nticks 0\nlive 1\nobj 1 u32 x1: 0\nmessages 0\nregion 1 1\n"],
    ),
    (
        LoadAnswer::Refused(1),
        &[],
        Status::Marshal,
        &["refused 0 Load 0\nticks 0\nlive 1\nobj 1 u32 x1: 0\nmessages 0\nregion 1 1\n"],
    ),
    (
        LoadAnswer::Ok,
        &[],
        Status::FarFault,
        &[
            "call open\nfar fault 1\nticks 0\nlive 1\nobj 1 u32 x1: 0\n",
            CALL,
            "messages 1\nregion 1 1\n",
        ],
    ),
    (
        LoadAnswer::Ok,
        &[FIRST],
        Status::FarFault,
        &[
            "call open\nfar fault 2\nticks 2\nlive 1\nobj 1 u32 x1: 1\n",
            CALL,
            "< 000000030000000000000001000000010000000100000001000000000000000000000000\n",
            "> 0000000400000000000f423e0000000c0000000000000000000000010000000000000000000000000000000100000001000000000000000000000000000000010000000200000001\n",
            "messages 3\nregion 1 1\n",
        ],
    ),
    (
        LoadAnswer::Ok,
        &[&[9]],
        Status::Marshal,
        &[
            "call open\nrefused 1 Kind 0\nticks 0\nlive 1\nobj 1 u32 x1: 0\n",
            CALL,
            "< 00000009\n",
            "messages 2\nregion 1 1\n",
        ],
    ),
];

/// Runs the driver over a far side.
fn expect_over(
    rt: &impl Abort,
    alloc: Global,
    far: &mut LyingFar,
    status: Status,
    text: &str,
) -> Result<(), Fail> {
    let mut shelf = shelf_of(rt, alloc, "call open\n", &[])?;
    let told = expect_run(rt, alloc, WIRED, &mut shelf, far, status, text);
    drop(shelf);
    told
}

/// A text of pieces.
fn joined(alloc: Global, pieces: &[&str]) -> Result<String, AllocError> {
    let mut text = String::new(alloc);
    for piece in pieces {
        text.push_str(piece)?;
    }
    Ok(text)
}

fn expect(
    rt: &impl Abort,
    alloc: Global,
    replies: Vec<DeliverAnswer>,
    row: &Row,
    text: &str,
) -> Result<(), Fail> {
    let mut far = LyingFar::new(alloc, row.0, replies);
    let told = expect_over(rt, alloc, &mut far, row.2, text);
    drop(far);
    told
}

fn expect_wired(rt: &impl Abort, alloc: Global, row: &Row) -> Result<(), Fail> {
    let text = joined(alloc, row.3)?;
    let replies = answers_of(alloc, row.1)?;
    expect(rt, alloc, replies, row, text.as_str())
}

#[test]
fn messages_are_shown_whatever_the_far_side_answers(rt: HostRuntime) -> Result<(), Fail> {
    for row in RUNS {
        expect_wired(&rt, rt.alloc(), row)?;
    }
    Ok(())
}
