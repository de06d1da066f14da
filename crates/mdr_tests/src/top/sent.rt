// What a run sends to the far side, and what this replies.

use super::{REPORT, RUN, expect_run, shelf_of};
use crate::expect::expect;
use crate::hex::bytes_of;
use crate::outside::far::is_exchange;
use crate::user::BUMP_RUN;
use mdr_far::LocalFar;
use mdr_outside::{Exchange, Far};
use mdr_top::Status;
use std::alloc::Global;
use std::process::Abort;
use std::test::Fail;

/// A script, the report of its run, and the messages that are sent with the replies.
type Sent = (
    &'static str,
    &'static str,
    &'static [(&'static str, &'static str)],
);

/// Each run loads the far side anew.
const RUNS: &[Sent] = &[
    ("call open\n", REPORT, BUMP_RUN),
    ("", "end ok\nticks 0\nlive 1\nobj 1 u32 x1: 0\n", &[]),
];

fn expect_exchange(
    rt: &impl Abort,
    alloc: Global,
    exchange: Option<&Exchange>,
    row: &(&str, &str),
) -> Result<(), Fail> {
    let sent = bytes_of(alloc, row.0)?;
    let reply = bytes_of(alloc, row.1)?;
    let holds = is_exchange(exchange, sent.as_slice(), Some(reply.as_slice()));
    expect(rt, holds, row);
    Ok(())
}

fn expect_exchanges(
    rt: &impl Abort,
    alloc: Global,
    exchanges: &[Exchange],
    rows: &[(&str, &str)],
) -> Result<(), Fail> {
    assert_eq!(rt; exchanges.len(), rows.len());
    for (at, row) in rows.iter().enumerate() {
        expect_exchange(rt, alloc, exchanges.get(at), row)?;
    }
    Ok(())
}

fn expect_sent(rt: &impl Abort, alloc: Global, far: &mut LocalFar, row: &Sent) -> Result<(), Fail> {
    let (script, text, rows) = row;
    let mut shelf = shelf_of(rt, alloc, script, &[])?;
    let told = expect_run(rt, alloc, RUN, &mut shelf, far, Status::Done, text);
    drop(shelf);
    told?;
    expect_exchanges(rt, alloc, far.exchanges(), rows)
}

fn expect_runs(rt: &impl Abort, alloc: Global, far: &mut LocalFar) -> Result<(), Fail> {
    for row in RUNS {
        expect_sent(rt, alloc, far, row)?;
    }
    Ok(())
}

#[test]
fn the_messages_of_a_run_and_their_replies(rt: HostRuntime) -> Result<(), Fail> {
    let mut far = LocalFar::new();
    let told = expect_runs(&rt, rt.alloc(), &mut far);
    drop(far);
    told
}
