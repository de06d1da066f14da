// Far sides that give the answers that they were told to give. Numbers are words of four bytes.

use super::{REPORT, RUN, expect_run, shelf_of};
use mdr_core::Items;
use mdr_outside::{DeliverAnswer, LoadAnswer, LyingFar};
use mdr_top::Status;
use std::alloc::{AllocError, Global};
use std::process::Abort;
use std::test::Fail;

/// In the driver's run the user half first calls a function of the kernel half.
pub(super) const FIRST: &[u32] = &[3, 0, 1, 1, 1, 1, 0, 0, 0];

/// Then it asks for a register to be written.
const SECOND: &[u32] = &[5, 0, 1, 1, 2, 5, 2, 2, 1, 2, 4, 0, 0, 0];

/// It calls again.
const THIRD: &[u32] = &[3, 0, 1, 1, 3, 1, 0, 0, 0];

/// And it returns.
const FOURTH: &[u32] = &[2, 0, 0, 12, 0];

/// With no tick spent it asks for a register to be read.
const READ: &[u32] = &[5, 0, 0, 1, 2, 4, 1, 2, 7, 0, 0, 0];

/// It asks for an object of a local.
const ENTER: &[u32] = &[5, 0, 0, 1, 0, 13, 0, 1, 2, 0, 1, 0, 0];

/// The first with 5 for the global.
const FIVE: &[u32] = &[3, 0, 1, 1, 1, 1, 0, 0, 1, 0, 0, 0, 1, 2, 5];

/// The last lines where nothing was applied.
const UNCHANGED: &str = "ticks 0\nlive 1\nobj 1 u32 x1: 0\n";

/// First replies that are refused, most of them the honest one with a change.
const REFUSED: &[(&[u32], &str)] = &[
    (&[], "Short 0"),
    (&[9], "Kind 0"),
    // the message that it replies to
    (
        &[1, 1, 0, 0, 1_000_000, 0, 0, 0, 1, 0, 0, 0, 1, 0],
        "NotAwaited 0",
    ),
    (&[3, 0, 1_000_001, 1, 1, 1, 0, 0, 0], "TooManyTicks 0"),
    // a function of the kernel half, and a statement behind the last
    (&[3, 0, 1, 0, 1, 1, 0, 0, 0], "BadPlace 0"),
    (&[3, 0, 1, 1, 4, 1, 0, 0, 0], "BadPlace 0"),
    (&[3, 0, 1, 1, 1, 0, 0, 0, 0], "BadDepth 0"),
    (&[3, 0, 1, 1, 1, 256, 0, 0, 0], "BadDepth 0"),
    (&[3, 0, 1, 1, 1, 1, 1, 0, 0], "NoStub 0"),
    (&[3, 0, 1, 1, 1, 1, 0, 1, 2, 0, 0], "BadArgs 0"),
    (&[2, 0, 0, 2, 0, 0], "BadResult 0"),
    // the stop of a service, and the end of a budget that isn't used up
    (&[7, 0, 0, 11, 1, 1, 0], "BadStop 0"),
    (&[7, 0, 1, 16, 1, 1, 0], "BadStop 0"),
    // no service, an object without cells, and a read that has a shape
    (&[5, 0, 0, 1, 1, 15, 0, 0, 0, 0], "BadService 0"),
    (&[5, 0, 0, 1, 1, 13, 0, 1, 2, 0, 0, 0, 0], "BadService 0"),
    (
        &[5, 0, 0, 1, 2, 4, 1, 2, 7, 1, 2, 0, 1, 0, 0],
        "BadService 0",
    ),
    // an argument too few
    (&[5, 0, 0, 1, 2, 5, 1, 2, 1, 0, 0, 0], "BadArgs 1"),
    // a run twice, one of a block that isn't there, and one of two cells
    (
        &[
            3, 0, 1, 1, 1, 1, 0, 0, 2, 0, 0, 0, 1, 2, 5, 0, 0, 0, 1, 2, 5,
        ],
        "RunOrder 1",
    ),
    (
        &[3, 0, 1, 1, 1, 1, 0, 0, 1, 0, 7, 0, 1, 2, 0],
        "OutsideSet 0",
    ),
    (
        &[3, 0, 1, 1, 1, 1, 0, 0, 1, 0, 0, 0, 2, 2, 0, 2, 0],
        "OutsideSet 0",
    ),
    // for the global a pointer to no block, one past its block, and no number
    (
        &[3, 0, 1, 1, 1, 1, 0, 0, 1, 0, 0, 0, 1, 9, 0, 9, 0, 2, 1, 0],
        "UnknownSerial 0",
    ),
    (
        &[3, 0, 1, 1, 1, 1, 0, 0, 1, 0, 0, 0, 1, 9, 0, 0, 1, 2, 1, 0],
        "BadView 0",
    ),
    (&[3, 0, 1, 1, 1, 1, 0, 0, 1, 0, 0, 0, 1, 6, 0], "BadValue 0"),
];

/// Runs of several replies. Where these are used up the far side fails.
const ENDS: &[(&[&[u32]], Status, &str)] = &[
    (
        &[],
        Status::FarFault,
        "call open\nfar fault 1\nticks 0\nlive 1\nobj 1 u32 x1: 0\n",
    ),
    (
        &[FIRST],
        Status::FarFault,
        "call open\nfar fault 2\nticks 2\nlive 1\nobj 1 u32 x1: 1\n",
    ),
    (
        &[FIRST, SECOND],
        Status::FarFault,
        "call open\nW 4 1\nfar fault 3\nticks 3\nlive 1\nobj 1 u32 x1: 1\n",
    ),
    (
        &[FIRST, SECOND, THIRD],
        Status::FarFault,
        "call open\nW 4 1\nfar fault 4\nticks 5\nlive 1\nobj 1 u32 x1: 2\n",
    ),
    (&[FIRST, SECOND, THIRD, FOURTH], Status::Done, REPORT),
    (
        &[FIVE],
        Status::FarFault,
        "call open\nfar fault 2\nticks 2\nlive 1\nobj 1 u32 x1: 6\n",
    ),
    (
        &[READ, READ, READ],
        Status::Marshal,
        "call open\nR 7 0\nR 7 0\nrefused 3 NotAwaited 0\nticks 0\nlive 1\nobj 1 u32 x1: 0\n",
    ),
    (
        &[ENTER, FOURTH],
        Status::Marshal,
        "call open\nrefused 2 StillEntered 0\nticks 0\nlive 2\nobj 1 u32 x1: 0\n",
    ),
];

/// The bytes of numbers, four each.
fn bytes_of(alloc: Global, numbers: &[u32]) -> Result<Vec<u8>, AllocError> {
    let mut bytes = Vec::new(alloc);
    for number in numbers {
        bytes.extend_from_slice(&number.to_be_bytes())?;
    }
    Ok(bytes)
}

/// These replies as answers.
pub(super) fn answers_of(
    alloc: Global,
    replies: &[&[u32]],
) -> Result<Vec<DeliverAnswer>, AllocError> {
    let mut answers = Vec::new(alloc);
    for reply in replies {
        answers.push(DeliverAnswer::Ok(Items::from_vec(bytes_of(alloc, reply)?)))?;
    }
    Ok(answers)
}

/// Runs the driver over a far side.
fn expect_over(
    rt: &impl Abort,
    alloc: Global,
    far: &mut LyingFar,
    status: Status,
    text: &str,
) -> Result<(), Fail> {
    let mut shelf = shelf_of(rt, alloc, "call open\n", &[])?;
    let told = expect_run(rt, alloc, RUN, &mut shelf, far, status, text);
    drop(shelf);
    told
}

fn expect(
    rt: &impl Abort,
    alloc: Global,
    load: LoadAnswer,
    replies: Vec<DeliverAnswer>,
    status: Status,
    text: &str,
) -> Result<(), Fail> {
    let mut far = LyingFar::new(alloc, load, replies);
    let told = expect_over(rt, alloc, &mut far, status, text);
    drop(far);
    told
}

fn one_answer(alloc: Global, reply: &[u8]) -> Result<Vec<DeliverAnswer>, AllocError> {
    let mut answers = Vec::new(alloc);
    answers.push(DeliverAnswer::Ok(Items::from_slice(alloc, reply)?))?;
    Ok(answers)
}

/// The first reply is refused for this cause.
fn expect_refused(rt: &impl Abort, alloc: Global, reply: &[u8], cause: &str) -> Result<(), Fail> {
    let text = format!(in alloc; "call open\nrefused 1 {cause}\n{UNCHANGED}")?;
    let answers = one_answer(alloc, reply)?;
    expect(
        rt,
        alloc,
        LoadAnswer::Ok,
        answers,
        Status::Marshal,
        text.as_str(),
    )
}

fn expect_numbers_refused(
    rt: &impl Abort,
    alloc: Global,
    reply: &[u32],
    cause: &str,
) -> Result<(), Fail> {
    let reply = bytes_of(alloc, reply)?;
    expect_refused(rt, alloc, reply.as_slice(), cause)
}

#[test]
fn a_refused_reply_is_reported_and_nothing_of_it_is_applied(rt: HostRuntime) -> Result<(), Fail> {
    for (reply, cause) in REFUSED {
        expect_numbers_refused(&rt, rt.alloc(), reply, cause)?;
    }
    Ok(())
}

fn a_byte_less(alloc: Global) -> Result<Vec<u8>, AllocError> {
    let mut bytes = bytes_of(alloc, FIRST)?;
    let _last = bytes.pop();
    Ok(bytes)
}

fn a_byte_more(alloc: Global) -> Result<Vec<u8>, AllocError> {
    let mut bytes = bytes_of(alloc, FIRST)?;
    bytes.push(0)?;
    Ok(bytes)
}

#[test]
fn a_reply_with_a_byte_less_or_more_is_refused(rt: HostRuntime) -> Result<(), Fail> {
    expect_refused(&rt, rt.alloc(), &a_byte_less(rt.alloc())?, "Short 32")?;
    expect_refused(&rt, rt.alloc(), &a_byte_more(rt.alloc())?, "Trailing 36")
}

fn expect_end(
    rt: &impl Abort,
    alloc: Global,
    replies: &[&[u32]],
    status: Status,
    text: &str,
) -> Result<(), Fail> {
    let answers = answers_of(alloc, replies)?;
    expect(rt, alloc, LoadAnswer::Ok, answers, status, text)
}

#[test]
fn a_run_ends_where_the_replies_end_or_are_too_many(rt: HostRuntime) -> Result<(), Fail> {
    for (replies, status, text) in ENDS {
        expect_end(&rt, rt.alloc(), replies, *status, text)?;
    }
    Ok(())
}

/// Answers to the texts, and what comes of them.
const LOADS: &[(LoadAnswer, Status, &str)] = &[
    (
        LoadAnswer::Refused(1),
        Status::Marshal,
        "refused 0 Load 0\nticks 0\nlive 1\nobj 1 u32 x1: 0\n",
    ),
    (
        LoadAnswer::Refused(2),
        Status::Marshal,
        "refused 0 Load 0\nticks 0\nlive 1\nobj 1 u32 x1: 0\n",
    ),
    (
        LoadAnswer::Failed,
        Status::FarFault,
        "far fault 0\nticks 0\nlive 1\nobj 1 u32 x1: 0\n",
    ),
];

#[test]
fn texts_that_are_not_loaded_are_reported(rt: HostRuntime) -> Result<(), Fail> {
    for (load, status, text) in LOADS {
        let none = Vec::new(rt.alloc());
        expect(&rt, rt.alloc(), *load, none, *status, text)?;
    }
    Ok(())
}
