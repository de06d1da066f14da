// The far side that gives the answers that it was told to give.

use crate::expect::expect;
use mdr_core::Items;
use mdr_outside::{DeliverAnswer, Exchange, Far, LoadAnswer, LyingFar};
use std::alloc::{AllocError, Global};
use std::process::Abort;
use std::test::Fail;

/// An answer to a message.
#[derive(Clone, Copy)]
enum Answer {
    Reply(&'static [u8]),
    Failed,
    OutOfMemory,
}

fn told(alloc: Global, answer: Answer) -> Result<DeliverAnswer, AllocError> {
    match answer {
        Answer::Reply(bytes) => Ok(DeliverAnswer::Ok(Items::from_slice(alloc, bytes)?)),
        Answer::Failed => Ok(DeliverAnswer::Failed),
        Answer::OutOfMemory => Ok(DeliverAnswer::OutOfMemory),
    }
}

/// A far side that is told to give these answers.
fn far_of(alloc: Global, answers: &[Answer]) -> Result<LyingFar, AllocError> {
    let mut replies = Vec::new(alloc);
    for answer in answers {
        replies.push(told(alloc, *answer)?)?;
    }
    Ok(LyingFar::new(alloc, LoadAnswer::Ok, replies))
}

fn is_answer(got: DeliverAnswer, answer: Answer) -> bool {
    match (&got, answer) {
        (DeliverAnswer::Ok(reply), Answer::Reply(bytes)) => reply.as_slice() == bytes,
        (DeliverAnswer::Failed, Answer::Failed) => true,
        (DeliverAnswer::OutOfMemory, Answer::OutOfMemory) => true,
        _ => false,
    }
}

/// An exchange's number, its message, and its reply where there was one.
type Kept = (usize, &'static [u8], Option<&'static [u8]>);

fn is_got(got: &Option<Items<u8>>, reply: Option<&[u8]>) -> bool {
    match (got, reply) {
        (Some(got), Some(reply)) => got.as_slice() == reply,
        (None, None) => true,
        _ => false,
    }
}

pub(crate) fn is_exchange(exchange: Option<&Exchange>, sent: &[u8], got: Option<&[u8]>) -> bool {
    match exchange {
        Some(exchange) => exchange.sent.as_slice() == sent && is_got(&exchange.got, got),
        None => false,
    }
}

fn expect_exchanges(rt: &impl Abort, exchanges: &[Exchange], rows: &[Kept]) {
    assert_eq!(rt; exchanges.len(), rows.len());
    for (at, sent, got) in rows {
        expect(rt, is_exchange(exchanges.get(*at), sent, *got), at);
    }
}

fn load_into<F: Far>(far: &mut F, alloc: Global) -> LoadAnswer {
    far.load(alloc, b"user", b"plan")
}

/// A load gets this answer, and no exchange is kept after it.
fn loads_anew(far: &mut LyingFar, alloc: Global, answer: LoadAnswer) -> bool {
    load_into(far, alloc) == answer && far.exchanges().is_empty()
}

/// The answers to three messages after a load.
fn expect_answers<F: Far>(rt: &impl Abort, alloc: Global, far: &mut F, answers: [Answer; 3]) {
    let is_ok = far.load(alloc, b"user", b"plan") == LoadAnswer::Ok;
    assert!(rt; is_ok);
    let [first, second, third] = answers;
    assert!(rt; is_answer(far.deliver(alloc, b"a"), first));
    assert!(rt; is_answer(far.deliver(alloc, b"b"), second));
    assert!(rt; is_answer(far.deliver(alloc, b"c"), third));
}

/// The answers to three messages, and the exchanges after them. Another load forgets these.
fn expect_kept(
    rt: &impl Abort,
    alloc: Global,
    far: &mut LyingFar,
    answers: [Answer; 3],
    rows: &[Kept],
) {
    expect_answers(rt, alloc, far, answers);
    expect_exchanges(rt, far.exchanges(), rows);
    assert!(rt; loads_anew(far, alloc, LoadAnswer::Ok));
}

/// Two replies, and the answers to three messages.
const TWO: &[Answer] = &[Answer::Reply(b"one"), Answer::Reply(b"")];

const TWO_GIVEN: [Answer; 3] = [Answer::Reply(b"one"), Answer::Reply(b""), Answer::Failed];

const TWO_KEPT: &[Kept] = &[
    (0, b"a", Some(b"one")),
    (1, b"b", Some(b"")),
    (2, b"c", None),
];

#[test]
fn fails_at_the_third_of_two_replies(rt: HostRuntime) -> Result<(), Fail> {
    let alloc = rt.alloc();
    let mut far = far_of(alloc, TWO)?;
    expect_kept(&rt, alloc, &mut far, TWO_GIVEN, TWO_KEPT);
    drop(far);
    Ok(())
}

const WANTING: [Answer; 3] = [Answer::Failed, Answer::OutOfMemory, Answer::Reply(b"three")];

const WANTING_KEPT: &[Kept] = &[(0, b"a", None), (1, b"c", Some(b"three"))];

#[test]
fn keeps_no_exchange_where_memory_is_wanting(rt: HostRuntime) -> Result<(), Fail> {
    let alloc = rt.alloc();
    let mut far = far_of(alloc, &WANTING)?;
    expect_kept(&rt, alloc, &mut far, WANTING, WANTING_KEPT);
    drop(far);
    Ok(())
}

/// Two loads that get one answer.
fn loads_twice(alloc: Global, answer: LoadAnswer) -> bool {
    let mut far = LyingFar::new(alloc, answer, Vec::new(alloc));
    let once = loads_anew(&mut far, alloc, answer);
    let twice = loads_anew(&mut far, alloc, answer);
    drop(far);
    once && twice
}

const LOADS: &[LoadAnswer] = &[
    LoadAnswer::Ok,
    LoadAnswer::Refused(2),
    LoadAnswer::Failed,
    LoadAnswer::OutOfMemory,
];

#[test]
fn answers_each_load_the_same(rt: HostRuntime) {
    for answer in LOADS {
        expect(&rt, loads_twice(rt.alloc(), *answer), answer);
    }
}
