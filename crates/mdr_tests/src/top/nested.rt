// Runs in which code of the kernel half calls back, over far sides that give the answers that they were told to give.
// Numbers are words of four bytes.

use super::answers::answers_of;
use super::callbacks::{FIRE as DRIVER, shelf_of};
use super::expect_run;
use mdr_core::Items;
use mdr_outside::{DeliverAnswer, LoadAnswer, LyingFar};
use mdr_top::Status;
use std::alloc::{AllocError, Global};
use std::process::Abort;
use std::test::Fail;

/// Honestly `go` sets the pointer and calls `fire`.
const FIRE: &[u32] = &[3, 0, 2, 2, 2, 1, 1, 1, 2, 1, 1, 0, 2, 0, 1, 11, 0];

/// The same with 254 functions active, and with 255: the one that it calls back would be the 257th.
const FIRE_DEEP: &[u32] = &[3, 0, 2, 2, 2, 254, 1, 1, 2, 1, 1, 0, 2, 0, 1, 11, 0];

const FIRE_DEEPEST: &[u32] = &[3, 0, 2, 2, 2, 255, 1, 1, 2, 1, 1, 0, 2, 0, 1, 11, 0];

/// What was called back calls `fire` in its turn, with 255 functions active.
const FIRE_AGAIN: &[u32] = &[3, 0, 0, 0, 1, 255, 1, 1, 2, 9, 0];

/// It calls `fire` with as many functions active as when it was called itself, and with one more, after a tick.
const FIRE_AS_DEEP: &[u32] = &[3, 0, 1, 0, 2, 2, 1, 1, 2, 5, 0];

const FIRE_DEEPER: &[u32] = &[3, 0, 1, 0, 2, 3, 1, 1, 2, 5, 0];

/// It asks for a register to be read.
const READ: &[u32] = &[5, 0, 0, 0, 2, 4, 1, 2, 7, 0, 0, 0];

/// A function returns.
const RETURN: &[u32] = &[2, 0, 0, 12, 0];

/// One that set the sum, which both may touch, and one that took the pointer away, which `go` alone may.
const RETURN_SUM: &[u32] = &[2, 0, 0, 12, 1, 0, 1, 0, 1, 2, 7];

const RETURN_POINTER: &[u32] = &[2, 0, 0, 12, 1, 0, 2, 0, 1, 8];

/// What was called back stops.
const STOP: &[u32] = &[7, 0, 0, 1, 0, 1, 0];

/// It gives a number, which it hasn't, and more ticks than are left; and `fire` itself calls down.
const RETURN_NUMBER: &[u32] = &[2, 0, 0, 2, 5, 0];

const RETURN_LATE: &[u32] = &[2, 0, 1_000_000, 12, 0];

const FROM_BELOW: &[u32] = &[3, 0, 0, 1, 1, 3, 1, 1, 2, 9, 0];

/// An object of a local of `go` is born. It dies by `go` itself, and by what was called back.
const ENTER: &[u32] = &[5, 0, 0, 2, 0, 13, 0, 1, 2, 0, 1, 0, 0];

const LEAVE: &[u32] = &[5, 0, 0, 2, 0, 14, 1, 9, 0, 3, 0, 2, 1, 0, 0, 0, 0];

const LEAVE_WITHIN: &[u32] = &[5, 0, 0, 0, 0, 14, 1, 9, 0, 3, 0, 2, 1, 0, 0, 0, 0];

/// An object of a local of what was called back.
const ENTER_WITHIN: &[u32] = &[5, 0, 0, 0, 1, 13, 0, 1, 2, 0, 1, 0, 0];

/// What is left where `fire` was called once, called back and didn't go on.
const CALLED: &str =
    "live 3\nobj 1 struct job x1: 0\nobj 2 u32 x1: 0\nobj 3 fn(void;u32) x1: &done\n";

/// And where it went on.
const FIRED: &str =
    "live 3\nobj 1 struct job x1: 1\nobj 2 u32 x1: 0\nobj 3 fn(void;u32) x1: &done\n";

/// The replies, the status, how the run ends, its ticks and what is left. Where the replies are used up the far side fails.
type Row = (
    &'static [&'static [u32]],
    Status,
    &'static str,
    u32,
    &'static str,
);

const ROWS: &[Row] = &[
    // the set of what was called back is its own, and the one around it has its own behind the return
    (
        &[FIRE, RETURN_POINTER],
        Status::Marshal,
        "refused 2 OutsideSet 0",
        3,
        CALLED,
    ),
    (
        &[FIRE, RETURN_SUM, RETURN_POINTER],
        Status::Done,
        "ret none\nend ok",
        4,
        "live 3\nobj 1 struct job x1: 1\nobj 2 u32 x1: 7\nobj 3 fn(void;u32) x1: null\n",
    ),
    (
        &[FIRE, STOP],
        Status::Stopped,
        "stop Null at done 1",
        3,
        CALLED,
    ),
    (
        &[FIRE, RETURN_NUMBER],
        Status::Marshal,
        "refused 2 BadResult 0",
        3,
        CALLED,
    ),
    (
        &[FIRE, RETURN_LATE],
        Status::Marshal,
        "refused 2 TooManyTicks 0",
        3,
        CALLED,
    ),
    (
        &[FIRE, FROM_BELOW],
        Status::Marshal,
        "refused 2 BadPlace 0",
        3,
        CALLED,
    ),
    // objects die in the call in which they were born
    (
        &[ENTER, FIRE, LEAVE_WITHIN],
        Status::Marshal,
        "refused 3 BadService 0",
        3,
        "live 4\nobj 1 struct job x1: 0\nobj 2 u32 x1: 0\nobj 3 fn(void;u32) x1: &done\n",
    ),
    (
        &[ENTER, FIRE, RETURN, RETURN],
        Status::Marshal,
        "refused 4 StillEntered 0",
        4,
        "live 4\nobj 1 struct job x1: 1\nobj 2 u32 x1: 0\nobj 3 fn(void;u32) x1: &done\n",
    ),
    (
        &[ENTER, FIRE, RETURN, LEAVE, RETURN],
        Status::Done,
        "ret none\nend ok",
        4,
        FIRED,
    ),
    (
        &[FIRE, ENTER_WITHIN, RETURN],
        Status::Marshal,
        "refused 3 StillEntered 0",
        3,
        "live 4\nobj 1 struct job x1: 0\nobj 2 u32 x1: 0\nobj 3 fn(void;u32) x1: &done\n",
    ),
    // with three ticks and a command 26 messages may go before those that end the two open calls
    (
        &[
            FIRE, READ, READ, READ, READ, READ, READ, READ, READ, READ, READ, READ, READ, READ,
        ],
        Status::Marshal,
        "R 7 0\nR 7 0\nR 7 0\nR 7 0\nR 7 0\nR 7 0\nR 7 0\nR 7 0\nR 7 0\nR 7 0\nR 7 0\nR 7 0\nrefused 14 NotAwaited 0",
        3,
        CALLED,
    ),
    // calls within calls
    (
        &[FIRE, RETURN, RETURN],
        Status::Done,
        "ret none\nend ok",
        4,
        FIRED,
    ),
    (
        &[FIRE, FIRE_AS_DEEP],
        Status::Marshal,
        "refused 2 BadDepth 0",
        3,
        CALLED,
    ),
    (
        &[FIRE, FIRE_DEEPER],
        Status::FarFault,
        "far fault 3",
        5,
        CALLED,
    ),
    (
        &[FIRE, FIRE_DEEPER, RETURN, RETURN],
        Status::FarFault,
        "far fault 5",
        7,
        "live 3\nobj 1 struct job x1: 2\nobj 2 u32 x1: 0\nobj 3 fn(void;u32) x1: &done\n",
    ),
    // the last depths
    (
        &[FIRE_DEEPEST],
        Status::Stopped,
        "stop Depth at fire 1",
        3,
        CALLED,
    ),
    (
        &[FIRE_DEEP, FIRE_AGAIN],
        Status::Marshal,
        "refused 2 BadDepth 0",
        3,
        CALLED,
    ),
    (
        &[FIRE_DEEP, RETURN, RETURN],
        Status::Done,
        "ret none\nend ok",
        4,
        FIRED,
    ),
];

/// The report of a run.
fn report_of(alloc: Global, end: &str, ticks: u32, left: &str) -> Result<String, AllocError> {
    format!(in alloc; "call go\n{end}\nticks {ticks}\n{left}")
}

/// Runs the driver over a far side.
fn expect_over(
    rt: &impl Abort,
    alloc: Global,
    far: &mut LyingFar,
    status: Status,
    text: &str,
) -> Result<(), Fail> {
    let mut shelf = shelf_of(rt, alloc, DRIVER, "call go\n")?;
    let words = &["run", "split", "driver.c", "driver.script"];
    let told = expect_run(rt, alloc, words, &mut shelf, far, status, text);
    drop(shelf);
    told
}

fn expect_end(
    rt: &impl Abort,
    alloc: Global,
    answers: Vec<DeliverAnswer>,
    status: Status,
    text: &str,
) -> Result<(), Fail> {
    let mut far = LyingFar::new(alloc, LoadAnswer::Ok, answers);
    let told = expect_over(rt, alloc, &mut far, status, text);
    drop(far);
    told
}

fn expect_row(rt: &impl Abort, alloc: Global, row: &Row) -> Result<(), Fail> {
    let text = report_of(alloc, row.2, row.3, row.4)?;
    let answers = answers_of(alloc, row.0)?;
    expect_end(rt, alloc, answers, row.1, text.as_str())
}

#[test]
fn replies_of_what_was_called_back_are_judged_by_its_own_call(rt: HostRuntime) -> Result<(), Fail> {
    for row in ROWS {
        expect_row(&rt, rt.alloc(), row)?;
    }
    Ok(())
}

/// A reply in which `fire` is called with so many functions active.
fn fire_at(alloc: Global, depth: u32) -> Result<DeliverAnswer, AllocError> {
    let mut bytes = Vec::new(alloc);
    for number in [3, 0, 0, 0, 1, depth, 1, 1, 2, 9, 0] {
        bytes.extend_from_slice(&number.to_be_bytes())?;
    }
    Ok(DeliverAnswer::Ok(Items::from_vec(bytes)))
}

/// `fire` is called so often, each time by what it called back before, without a tick of user code.
fn chain_of(alloc: Global, calls: u8) -> Result<Vec<DeliverAnswer>, AllocError> {
    let mut answers = answers_of(alloc, &[FIRE])?;
    for k in 1..calls {
        answers.push(fire_at(alloc, 2 * (k as u32) + 1)?)?;
    }
    Ok(answers)
}

/// How often it is called, the status, how the run ends, and its ticks: one for each `kcall`, and two before the first.
type Chain = (u8, Status, &'static str, u32);

const CHAINS: &[Chain] = &[
    (26, Status::FarFault, "far fault 27", 28),
    (127, Status::FarFault, "far fault 128", 129),
    (128, Status::Stopped, "stop Depth at fire 1", 130),
];

fn expect_chain(rt: &impl Abort, alloc: Global, row: &Chain) -> Result<(), Fail> {
    let text = report_of(alloc, row.2, row.3, CALLED)?;
    expect_end(rt, alloc, chain_of(alloc, row.0)?, row.1, text.as_str())
}

#[test]
fn calls_back_within_one_another_end_where_256_functions_are_active(
    rt: HostRuntime,
) -> Result<(), Fail> {
    for row in CHAINS {
        expect_chain(&rt, rt.alloc(), row)?;
    }
    Ok(())
}
