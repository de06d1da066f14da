// A message with many runs, to measure by: time goes with the number of bytes.

use super::written;
use mdr_core::{Items, Kind};
use mdr_msg::{Message, Reply, Return, Run, Wire, decode};
use std::alloc::Global;
use std::process::Abort;
use std::test::Fail;

const RUNS: u64 = 100_000;

fn run(alloc: Global, serial: u64) -> Result<Run, Fail> {
    let mut values = Items::new(alloc);
    values.push(Wire::Int(Kind::U32, 7))?;
    Ok(Run {
        serial,
        first: 0,
        values,
    })
}

fn many_runs(alloc: Global) -> Result<Message, Fail> {
    let mut runs = Items::new(alloc);
    for serial in 0..RUNS {
        runs.push(run(alloc, serial)?)?;
    }
    Ok(Message::Reply(Reply::Return(Return {
        ticks: 1,
        result: Wire::NoValue,
        runs,
    })))
}

fn is_message(alloc: Global, bytes: &[u8]) -> bool {
    let read = decode(alloc, bytes);
    let is_ok = read.is_ok();
    drop(read);
    is_ok
}

fn expect_large(rt: &impl Abort, alloc: Global, bytes: &[u8]) {
    assert_eq!(rt; bytes.len(), 2_400_020);
    assert!(rt; is_message(alloc, bytes));
}

fn many_bytes(alloc: Global) -> Result<Vec<u8>, Fail> {
    let message = many_runs(alloc)?;
    let bytes = written(alloc, &message);
    drop(message);
    bytes
}

#[test]
fn a_message_of_many_runs_is_written_and_read(rt: HostRuntime) -> Result<(), Fail> {
    let bytes = many_bytes(rt.alloc())?;
    expect_large(&rt, rt.alloc(), bytes.as_slice());
    Ok(())
}
