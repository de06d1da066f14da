// Messages to the user half, and its replies, as bytes from outside.

mod nested;

use crate::expect::expect;
use crate::hex::bytes_of;
use mdr_far::{LoadError, LocalFar, UserHalf};
use mdr_outside::{DeliverAnswer, Far, LoadAnswer};
use std::alloc::Global;
use std::process::Abort;
use std::test::Fail;

/// A user half that calls a function of the kernel half twice, and writes a register between.
const BUMP: &str =
    "u32 count;\n__remote void bump(void);\nvoid open(void) {\n\tbump();\n\twritel(count, 4);\n\tbump();\n}\n";

/// One that sets what the kernel half sets back.
const RESET: &str =
    "u32 count;\n__remote void bump(void);\nvoid open(void) {\n\tcount = 1;\n\tbump();\n\twritel(count, 0);\n}\n";

/// The plan of both.
const PLAN: &str =
    "plan 1\ntype 0 u8\ntype 1 u16\ntype 2 u32\ntype 3 u64\ntype 4 s8\ntype 5 s16\ntype 6 s32\ntype 7 s64\ntype 8 combolock_t\nfunction 0 bump kernel root\nfunction 1 open user\ndown 0\nup 1\nkey 1 global 0\nend\n";

const CALL: &str =
    "00000001000000010000000000000000000f4240000000000000000000000000000000010000000000000000000000000000000100000000";

const ANSWER: &str = "00000006000000000000000000000000";

const DOWN: &str = "000000030000000000000001000000010000000100000001000000000000000000000000";

/// The messages of the run of `BUMP`, each with its reply.
pub(crate) const BUMP_RUN: &[(&str, &str)] = &[
    (CALL, DOWN),
    (
        "0000000400000000000f423e0000000c0000000000000000000000010000000000000000000000000000000100000001000000000000000000000000000000010000000200000001",
        "0000000500000000000000010000000100000002000000050000000200000002000000010000000200000004000000000000000000000000",
    ),
    (
        ANSWER,
        "000000030000000000000001000000010000000300000001000000000000000000000000",
    ),
    (
        "0000000400000000000f423b0000000c0000000000000000000000010000000000000000000000000000000100000001000000000000000000000000000000010000000200000002",
        "0000000200000000000000000000000c00000000",
    ),
];

/// Those of `RESET`. The change of the first reply was set back by the second message.
const RESET_RUN: &[(&str, &str)] = &[
    (
        CALL,
        "000000030000000000000002000000010000000200000001000000000000000000000001000000000000000000000000000000010000000200000001",
    ),
    (
        "0000000400000000000f423d0000000c0000000000000000000000010000000000000000000000000000000100000001000000000000000000000000000000010000000200000000",
        "0000000500000000000000010000000100000003000000050000000200000002000000000000000200000000000000000000000000000000",
    ),
    (ANSWER, "0000000200000000000000000000000c00000000"),
];

fn loaded(alloc: Global, user: &str, plan: &str) -> Result<UserHalf, Fail> {
    match UserHalf::load(alloc, user.as_bytes(), plan.as_bytes()) {
        Ok(half) => Ok(half),
        Err(_) => Err("the texts are those of a user half".into()),
    }
}

fn half_of(alloc: Global) -> Result<UserHalf, Fail> {
    loaded(alloc, BUMP, PLAN)
}

fn reply_to(alloc: Global, half: &mut UserHalf, sent: &str) -> Result<Vec<u8>, Fail> {
    let message = bytes_of(alloc, sent)?;
    match half.deliver(alloc, &message) {
        Ok(reply) => Ok(reply),
        Err(_) => Err("memory was wanting".into()),
    }
}

/// A message gets this reply.
fn expect_reply(
    rt: &impl Abort,
    alloc: Global,
    half: &mut UserHalf,
    sent: &str,
    reply: &str,
) -> Result<(), Fail> {
    let expected = bytes_of(alloc, reply)?;
    let got = reply_to(alloc, half, sent)?;
    expect(rt, got.as_slice() == expected.as_slice(), &sent);
    Ok(())
}

/// Messages get these replies.
fn expect_replies(
    rt: &impl Abort,
    alloc: Global,
    half: &mut UserHalf,
    rows: &[(&str, &str)],
) -> Result<(), Fail> {
    for (sent, reply) in rows {
        expect_reply(rt, alloc, half, sent, reply)?;
    }
    Ok(())
}

fn is_reply(answer: DeliverAnswer, reply: &[u8]) -> bool {
    match &answer {
        DeliverAnswer::Ok(got) => got.as_slice() == reply,
        _ => false,
    }
}

/// A run over a far side, through the bound under which it is used.
fn run_over<F: Far>(
    far: &mut F,
    alloc: Global,
    rt: &impl Abort,
    user: &str,
    run: &[(&str, &str)],
) -> Result<(), Fail> {
    let answer = far.load(alloc, user.as_bytes(), PLAN.as_bytes());
    let is_ok = answer == LoadAnswer::Ok;
    assert!(rt; is_ok);
    for (sent, reply) in run {
        let expected = bytes_of(alloc, reply)?;
        let message = bytes_of(alloc, sent)?;
        let holds = is_reply(far.deliver(alloc, &message), &expected);
        expect(rt, holds, sent);
    }
    assert_eq!(rt; far.exchanges().len(), run.len());
    Ok(())
}

fn both_runs_over<F: Far>(far: &mut F, alloc: Global, rt: &impl Abort) -> Result<(), Fail> {
    run_over(far, alloc, rt, BUMP, BUMP_RUN)?;
    run_over(far, alloc, rt, RESET, RESET_RUN)
}

#[test]
fn the_replies_of_a_run(rt: HostRuntime) -> Result<(), Fail> {
    let mut far = LocalFar::new();
    let told = both_runs_over(&mut far, rt.alloc(), &rt);
    drop(far);
    told
}

/// What is refused before each message of a run.
const REFUSED: &[(&str, &str)] = &[
    // no message
    ("", "0000000800000001"),
    ("0000000900000001", "0000000800000001"),
    ("000000060000000000000000000000", "0000000800000001"),
    // a message of no kind that it gets
    ("0000000800000002", "0000000800000002"),
    (DOWN, "0000000800000002"),
    // an upcall of a `__critical` function, one of no function, and one with 257 functions active
    (
        "00000001000000000000000000000000000f4240000000000000000000000000000000010000000000000000000000000000000100000000",
        "0000000800000003",
    ),
    (
        "00000001000000070000000000000000000f4240000000000000000000000000000000010000000000000000000000000000000100000000",
        "0000000800000003",
    ),
    (
        "00000001000000010000010000000000000f4240000000000000000000000000000000010000000000000000000000000000000100000000",
        "0000000800000003",
    ),
    // cells that aren't there, and the death of a global
    (
        "00000001000000010000000000000000000f4240000000000000000000000000000000010000000000000000000000000000000200000000",
        "0000000800000003",
    ),
    (
        "00000001000000010000000000000000000f424000000000000000010000000000000000000000000000000000000000",
        "0000000800000003",
    ),
];

/// While a service's answer is awaited no upcall is. Else one is: nothing is open, or a downcall, in which the kernel half
/// may call back.
fn refusal_while(is_asked: bool, refusal: &str) -> &str {
    if is_asked && refusal == "0000000800000003" {
        "0000000800000002"
    } else {
        refusal
    }
}

fn expect_refused(
    rt: &impl Abort,
    alloc: Global,
    half: &mut UserHalf,
    is_asked: bool,
) -> Result<(), Fail> {
    for (sent, refusal) in REFUSED {
        expect_reply(rt, alloc, half, sent, refusal_while(is_asked, refusal))?;
    }
    Ok(())
}

fn expect_run_between(rt: &impl Abort, alloc: Global, half: &mut UserHalf) -> Result<(), Fail> {
    for (sent, reply) in BUMP_RUN {
        expect_refused(rt, alloc, half, *sent == ANSWER)?;
        expect_reply(rt, alloc, half, sent, reply)?;
    }
    expect_reply(rt, alloc, half, ANSWER, "0000000800000002")
}

#[test]
fn a_refusal_changes_nothing(rt: HostRuntime) -> Result<(), Fail> {
    let mut half = half_of(rt.alloc())?;
    let told = expect_run_between(&rt, rt.alloc(), &mut half);
    drop(half);
    told
}

/// While a downcall of depth 1 is awaited: an upcall of its own depth, and a deeper one.
const BUMP_WITHIN: &[(&str, &str)] = &[
    (CALL, DOWN),
    (
        "00000001000000010000000100000000000f4240000000000000000000000000000000010000000000000000000000000000000100000000",
        "0000000800000003",
    ),
    (
        "00000001000000010000000200000000000f4240000000000000000000000000000000010000000000000000000000000000000100000000",
        "000000030000000000000001000000010000000100000003000000000000000000000000",
    ),
    // the inner downcall is back, and the inner function writes a register
    (
        "0000000400000000000f423e0000000c0000000000000000000000010000000000000000000000000000000100000001000000000000000000000000000000010000000200000001",
        "0000000500000000000000010000000100000002000000050000000200000002000000010000000200000004000000000000000000000000",
    ),
];

#[test]
fn an_upcall_comes_in_a_downcall_where_it_is_deeper(rt: HostRuntime) -> Result<(), Fail> {
    expect_from_a_new_half(&rt, rt.alloc(), BUMP_WITHIN)
}

/// The last message gets the reply that it gets as the first.
const BEGUN: &[(&str, &str)] = &[
    // what isn't awaited
    (ANSWER, "0000000800000002"),
    // a call without its last byte
    (
        "00000001000000010000000000000000000f42400000000000000000000000000000000100000000000000000000000000000001000000",
        "0000000800000001",
    ),
    // a call of a `__critical` function
    (
        "00000001000000000000000000000000000f4240000000000000000000000000000000010000000000000000000000000000000100000000",
        "0000000800000003",
    ),
    // a visible block, and a pointer to one, that isn't there
    (
        "00000001000000010000000000000000000f4240000000000000000000000000000000010000000000000003000000000000000100000000",
        "0000000800000003",
    ),
    (
        "00000001000000010000000000000000000f42400000000000000000000000000000000100000000000000000000000000000001000000010000000000000000000000000000000100000009000000000000000300000000000000020000000100000000",
        "0000000800000003",
    ),
    (CALL, DOWN),
];

/// A call of which the budget is used up, and one behind it.
const WANTING: &[(&str, &str)] = &[
    (
        "0000000100000001000000000000000000000000000000000000000000000000000000010000000000000000000000000000000100000000",
        "00000007000000000000000000000010000000010000000100000000",
    ),
    (CALL, DOWN),
];

fn expect_from_a_new_half(
    rt: &impl Abort,
    alloc: Global,
    rows: &[(&str, &str)],
) -> Result<(), Fail> {
    let mut half = half_of(alloc)?;
    let told = expect_replies(rt, alloc, &mut half, rows);
    drop(half);
    told
}

#[test]
fn a_run_begins_behind_refused_messages_or_a_tick_that_is_wanting(
    rt: HostRuntime,
) -> Result<(), Fail> {
    for rows in [BEGUN, WANTING] {
        expect_from_a_new_half(&rt, rt.alloc(), rows)?;
    }
    Ok(())
}

/// A half whose function has an object of a local, while it calls the kernel half.
const OBJECT: &str =
    "u32 got;\n__remote void bump(void);\nvoid f(void) {\n\tu32 x;\n\tu32 *p;\n\tp = &x;\n\tbump();\n\tgot = *p;\n}\n";

const OBJECT_PLAN: &str =
    "plan 1\ntype 0 u8\ntype 1 u16\ntype 2 u32\ntype 3 u64\ntype 4 s8\ntype 5 s16\ntype 6 s32\ntype 7 s64\ntype 8 combolock_t\ntype 9 u32 *\nfunction 0 bump kernel root\nfunction 1 f user\ndown 0\nup 1\nkey 1 global 0\nkey 1 elem 2\nend\n";

/// The answer to its `enter` has a block beside the object, 5. That one dies neither with the return of the downcall nor with
/// the answer to the `leave` of the object nor with the next call.
const BLOCK_BESIDE: &[(&str, &str)] = &[
    (
        CALL,
        "00000005000000000000000100000001000000000000000d00000000000000010000000200000000000000010000000000000000",
    ),
    (
        "000000060000000100000009000000000000000100000000000000020000000100000000000000000000000200000000000000010000000200000002000000010000000000000005000000020000000200000001",
        "000000030000000000000003000000010000000400000001000000000000000000000000",
    ),
    (
        "0000000400000000000f423b0000000c0000000100000000000000050000000000000002000000000000000000000000000000010000000000000001000000000000000100000001000000000000000000000000000000010000000200000001",
        "0000000800000003",
    ),
    (
        "0000000400000000000f423b0000000c000000000000000000000002000000000000000000000000000000010000000000000001000000000000000100000001000000000000000000000000000000010000000200000001",
        "00000005000000000000000100000001000000000000000e0000000100000009000000000000000100000000000000020000000100000000000000000000000000000001000000000000000000000000000000010000000200000000",
    ),
    (
        "0000000600000000000000020000000000000001000000000000000500000000",
        "0000000800000003",
    ),
    (
        "000000060000000000000001000000000000000100000000",
        "0000000200000000000000000000000c00000000",
    ),
    (
        "00000001000000010000000000000000000f423a0000000000000001000000000000000500000000000000010000000000000000000000000000000100000000",
        "0000000800000003",
    ),
    (
        CALL,
        "00000005000000000000000100000001000000000000000d00000000000000010000000200000000000000010000000000000000",
    ),
];

/// A half whose code stops while its object lives.
const STOPPING: &str =
    "u32 got;\nvoid f(void) {\n\tu32 x;\n\tu32 *p;\n\tu32 *q;\n\tp = &x;\n\tq = NULL;\n\tgot = *q;\n}\n";

const STOPPING_PLAN: &str =
    "plan 1\ntype 0 u8\ntype 1 u16\ntype 2 u32\ntype 3 u64\ntype 4 s8\ntype 5 s16\ntype 6 s32\ntype 7 s64\ntype 8 combolock_t\ntype 9 u32 *\nfunction 0 f user\nup 0\nkey 0 global 0\nkey 0 elem 2\nend\n";

/// A call behind the stop lets the object die, and one doesn't.
const BEHIND_A_STOP: &[(&str, &str)] = &[
    (
        "00000001000000000000000000000000000f4240000000000000000000000000000000010000000000000000000000000000000100000000",
        "00000005000000000000000100000000000000000000000d00000000000000010000000200000000000000010000000000000000",
    ),
    (
        "00000006000000010000000900000000000000010000000000000002000000010000000000000000000000010000000000000001000000020000000200000001",
        "00000007000000000000000500000001000000000000000600000000",
    ),
    (
        "00000001000000000000000000000000000f423a0000000000000001000000000000000100000000000000010000000000000000000000000000000100000000",
        "0000000800000003",
    ),
    (
        "00000001000000000000000000000000000f423a000000000000000000000000000000010000000000000000000000000000000100000000",
        "00000005000000000000000100000000000000000000000d00000000000000010000000200000000000000010000000000000000",
    ),
];

/// The texts of a user half and of its plan, and messages with their replies.
type Exchanged = (
    &'static str,
    &'static str,
    &'static [(&'static str, &'static str)],
);

const ENTERED: &[Exchanged] = &[
    (OBJECT, OBJECT_PLAN, BLOCK_BESIDE),
    (STOPPING, STOPPING_PLAN, BEHIND_A_STOP),
];

fn expect_exchanged(rt: &impl Abort, alloc: Global, row: &Exchanged) -> Result<(), Fail> {
    let mut half = loaded(alloc, row.0, row.1)?;
    let told = expect_replies(rt, alloc, &mut half, row.2);
    drop(half);
    told
}

#[test]
fn what_came_with_an_enter_dies_with_the_leave_that_names_it(rt: HostRuntime) -> Result<(), Fail> {
    for row in ENTERED {
        expect_exchanged(&rt, rt.alloc(), row)?;
    }
    Ok(())
}

/// Texts of a user half and of a plan, and which of the two is refused. The plan is judged first.
type Misfit = (&'static str, &'static str, LoadError, u32);

const MISFITS: &[Misfit] = &[
    ("u32", PLAN, LoadError::Source, 2),
    ("\u{1}", PLAN, LoadError::Source, 2),
    ("void f(void){g();}", PLAN, LoadError::Source, 2),
    ("u32 a; u32 a;", PLAN, LoadError::Source, 2),
    (BUMP, "", LoadError::Plan, 1),
    (BUMP, "plan 1\nend", LoadError::Plan, 1),
    (BUMP, "plan 1\ntype 0 u16\nend\n", LoadError::Plan, 1),
    ("u32", "", LoadError::Plan, 1),
];

fn is_refused(alloc: Global, row: &Misfit) -> bool {
    let loaded = UserHalf::load(alloc, row.0.as_bytes(), row.1.as_bytes());
    let is_refused = matches!(&loaded, Err(error) if *error == row.2);
    drop(loaded);
    is_refused
}

fn is_not_loaded(alloc: Global, row: &Misfit) -> bool {
    let mut far = LocalFar::new();
    let answer = far.load(alloc, row.0.as_bytes(), row.1.as_bytes());
    let is_empty = far.exchanges().is_empty();
    drop(far);
    answer == LoadAnswer::Refused(row.3) && is_empty
}

#[test]
fn texts_that_do_not_fit_are_refused(rt: HostRuntime) {
    for row in MISFITS {
        expect(&rt, is_refused(rt.alloc(), row), row);
        expect(&rt, is_not_loaded(rt.alloc(), row), row);
    }
}

/// A user half that walks three nodes in a ring, of which it is told in one message.
const RING: &[&str] = &[
    "struct node {\n\tu32 v;\n\tstruct node *next;\n};\nstruct node *head;\nstruct node *mid;\n",
    "__remote void make(void);\nvoid walk(void) {\n\tstruct node *p;\n\tp = head;\n\tp->v += 10;\n\tp = p->next;\n",
    "\twhile (p != head) {\n\t\tp->v += 10;\n\t\tp = p->next;\n\t}\n\tmid->v += 100;\n}\n",
];

const RING_PLAN: &[&str] = &[
    "plan 1\ntype 0 u8\ntype 1 u16\ntype 2 u32\ntype 3 u64\ntype 4 s8\ntype 5 s16\ntype 6 s32\ntype 7 s64\n",
    "type 8 combolock_t\ntype 9 struct node\ntype 10 struct node *\nfunction 0 make kernel root\n",
    "function 1 walk user\nup 1\nkey 1 global 0\nkey 1 global 1\nkey 1 field 0 0\nkey 1 field 0 1\nend\n",
];

const RING_CALL: &[&str] = &[
    "00000001000000010000000000000000000f4232000000000000000000000003000000000000000200000001000000090000000100000000",
    "0000000300000001000000090000000100000000000000040000000100000009000000010000000500000000000000000000000000000001",
    "0000000000000001000000000000000100000000000000020000000000000002000000000000000300000000000000020000000000000004",
    "0000000000000002000000050000000000000000000000000000000100000009000000000000000200000000000000090000000100000000",
    "0000000000000001000000000000000100000009000000000000000300000000000000090000000100000000000000000000000200000000",
    "0000000200000002000000010000000900000000000000030000000000000009000000010000000000000000000000030000000000000002",
    "0000000200000002000000090000000000000004000000000000000900000001000000000000000000000004000000000000000200000002",
    "0000000300000009000000000000000200000000000000090000000100000000",
];

const RING_RETURN: &[&str] = &[
    "00000002000000000000000c0000000c0000000300000000000000020000000000000001000000020000000b000000000000000300000000",
    "00000001000000020000007000000000000000040000000000000001000000020000000d",
];

fn joined(alloc: Global, pieces: &[&str]) -> Result<String, Fail> {
    let mut text = String::new(alloc);
    for piece in pieces {
        text.push_str(piece)?;
    }
    Ok(text)
}

fn has_layout(half: &UserHalf, used: u64, top: u64) -> bool {
    match half.layout() {
        Some(places) => places.0 == used && places.1 == top,
        None => false,
    }
}

fn has_pair(half: &UserHalf, serial: u64) -> bool {
    match half.pairs() {
        Some(pairs) => pairs.user_of(serial).is_some(),
        None => false,
    }
}

fn expect_ring(rt: &impl Abort, alloc: Global, half: &mut UserHalf) -> Result<(), Fail> {
    let has_globals = has_layout(half, 2, 2) && has_pair(half, 1);
    let has_nodes = has_pair(half, 2);
    assert!(rt; has_globals);
    assert!(rt; !has_nodes);
    let call = joined(alloc, RING_CALL)?;
    let answer = joined(alloc, RING_RETURN)?;
    expect_reply(rt, alloc, half, call.as_str(), answer.as_str())?;
    let has_all = has_layout(half, 8, 8) && has_pair(half, 4);
    assert!(rt; has_all);
    Ok(())
}

#[test]
fn the_user_half_has_places_and_pairs_of_its_own(rt: HostRuntime) -> Result<(), Fail> {
    let user = joined(rt.alloc(), RING)?;
    let plan = joined(rt.alloc(), RING_PLAN)?;
    let mut half = loaded(rt.alloc(), user.as_str(), plan.as_str())?;
    let told = expect_ring(&rt, rt.alloc(), &mut half);
    drop(half);
    told
}
