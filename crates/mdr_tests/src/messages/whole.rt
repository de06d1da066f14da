// Messages from outside, read and written.

use super::written;
use crate::hex::bytes_of;
use mdr_core::Items;
use mdr_msg::{Message, Reply, Return, Wire, decode};
use std::alloc::Global;
use std::process::Abort;
use std::test::Fail;

/// The eight messages of a run in which a user-half function calls one of the kernel half twice, and asks for a write
/// of a register between.
const RUN: &[(&str, &str)] = &[
    (
        "00000001000000010000000000000000000f4240000000000000000000000000000000010000000000000000000000000000000100000000",
        "Call(Call { func: 1, depth: 0, rest: 1000000, args: Items { items: [] }, told: Told { deaths: Items { items: [] }, news: Items { items: [] }, view: Items { items: [SetRun { serial: 0, first: 0, len: 1 }] }, runs: Items { items: [] } } })",
    ),
    (
        "000000030000000000000001000000010000000100000001000000000000000000000000",
        "Reply(Down(Down { ticks: 1, at: At { func: 1, stmt: 1 }, depth: 1, func: 0, args: Items { items: [] }, runs: Items { items: [] } }))",
    ),
    (
        "0000000400000000000f423e0000000c0000000000000000000000010000000000000000000000000000000100000001000000000000000000000000000000010000000200000001",
        "Back(Back { rest: 999998, result: NoValue, told: Told { deaths: Items { items: [] }, news: Items { items: [] }, view: Items { items: [SetRun { serial: 0, first: 0, len: 1 }] }, runs: Items { items: [Run { serial: 0, first: 0, values: Items { items: [Int(U32, 1)] } }] } } })",
    ),
    (
        "0000000500000000000000010000000100000002000000050000000200000002000000010000000200000004000000000000000000000000",
        "Reply(Ask(Ask { ticks: 1, at: At { func: 1, stmt: 2 }, service: 5, args: Items { items: [Int(U32, 1), Int(U32, 4)] }, shapes: Items { items: [] }, bytes: Items { items: [] }, runs: Items { items: [] } }))",
    ),
    (
        "00000006000000000000000000000000",
        "Answer(Answer { results: Items { items: [] }, deaths: Items { items: [] }, news: Items { items: [] } })",
    ),
    (
        "000000030000000000000001000000010000000300000001000000000000000000000000",
        "Reply(Down(Down { ticks: 1, at: At { func: 1, stmt: 3 }, depth: 1, func: 0, args: Items { items: [] }, runs: Items { items: [] } }))",
    ),
    (
        "0000000400000000000f423b0000000c0000000000000000000000010000000000000000000000000000000100000001000000000000000000000000000000010000000200000002",
        "Back(Back { rest: 999995, result: NoValue, told: Told { deaths: Items { items: [] }, news: Items { items: [] }, view: Items { items: [SetRun { serial: 0, first: 0, len: 1 }] }, runs: Items { items: [Run { serial: 0, first: 0, values: Items { items: [Int(U32, 2)] } }] } } })",
    ),
    (
        "0000000200000000000000000000000c00000000",
        "Reply(Return(Return { ticks: 0, result: NoValue, runs: Items { items: [] } }))",
    ),
];

/// Other messages, with a value of every tag.
const OTHERS: &[(&str, &str)] = &[
    (
        "000000060000000d00000000000000ff000000010000010200000002ffffffff00000003000000000000000100000004ffffffff00000005ffff800000000006fffffffe00000007fffffffffffffffe00000008000000090000000000000005000000010000000200000003000000040000000a0000000b000000070000000c000000020000000000000004000000000000000600000001000000000000000700000001000000030000000a",
        "Answer(Answer { results: Items { items: [Int(U8, 255), Int(U16, 258), Int(U32, 4294967295), Int(U64, 1), Int(S8, -1), Int(S16, -32768), Int(S32, -2), Int(S64, -2), Null, Ptr(WireView { serial: 5, first: 1, ty: 2, count: 3, index: 4 }), Dead, Fn(7), NoValue] }, deaths: Items { items: [4, 6] }, news: Items { items: [New { serial: 7, kind: Heap, ty: 3, count: 10 }] } })",
    ),
    (
        "0000000500000000000000000000000100000002000000010000000000000001000000030000000000000001000000036162630000000000",
        "Reply(Ask(Ask { ticks: 0, at: At { func: 1, stmt: 2 }, service: 1, args: Items { items: [] }, shapes: Items { items: [Shape64 { ty: 3, count: 1 }] }, bytes: Items { items: [97, 98, 99] }, runs: Items { items: [] } }))",
    ),
    (
        "00000007000000000000000200000004000000010000000200000000",
        "Reply(Stop(Stop { ticks: 2, stop: 4, at: At { func: 1, stmt: 2 }, runs: Items { items: [] } }))",
    ),
    ("0000000800000002", "Refuse(2)"),
];

fn is_shown(alloc: Global, m: &Message, text: &str) -> Result<bool, Fail> {
    let shown = format!(in alloc; "{m:?}")?;
    Ok(shown.as_str() == text)
}

fn is_written(alloc: Global, m: &Message, bytes: &[u8]) -> Result<bool, Fail> {
    let written = written(alloc, m)?;
    Ok(written.as_slice() == bytes)
}

fn expect_message(
    rt: &impl Abort,
    alloc: Global,
    m: &Message,
    bytes: &[u8],
    text: &str,
) -> Result<(), Fail> {
    assert!(rt; is_shown(alloc, m, text)?, "{text}");
    assert!(rt; is_written(alloc, m, bytes)?, "{text}");
    Ok(())
}

/// Bytes are read as the message that is shown so, and it is written as the same bytes.
fn expect_read(rt: &impl Abort, alloc: Global, hex: &str, text: &str) -> Result<(), Fail> {
    let bytes = bytes_of(alloc, hex)?;
    match decode(alloc, &bytes) {
        Ok(m) => {
            let told = expect_message(rt, alloc, &m, bytes.as_slice(), text);
            drop(m);
            told
        }
        Err(_) => Err("the bytes are a message".into()),
    }
}

#[test]
fn the_messages_of_a_run(rt: HostRuntime) -> Result<(), Fail> {
    for (hex, text) in RUN {
        expect_read(&rt, rt.alloc(), hex, text)?;
    }
    Ok(())
}

#[test]
fn other_messages(rt: HostRuntime) -> Result<(), Fail> {
    for (hex, text) in OTHERS {
        expect_read(&rt, rt.alloc(), hex, text)?;
    }
    Ok(())
}

fn returned(alloc: Global) -> Result<Vec<u8>, Fail> {
    let m = Message::Reply(Reply::Return(Return {
        ticks: 0,
        result: Wire::NoValue,
        runs: Items::new(alloc),
    }));
    let bytes = written(alloc, &m);
    drop(m);
    bytes
}

#[test]
fn a_message_is_written(rt: HostRuntime) -> Result<(), Fail> {
    let alloc = rt.alloc();
    let bytes = bytes_of(alloc, "0000000200000000000000000000000c00000000")?;
    let written = returned(alloc)?;
    assert_eq!(rt; written.as_slice(), bytes.as_slice());
    Ok(())
}
