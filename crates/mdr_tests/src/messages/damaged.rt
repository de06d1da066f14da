// Bytes that are no message, each with its fault.

use crate::expect::expect;
use crate::hex::bytes_of;
use mdr_msg::{MsgError, decode};
use std::alloc::{AllocError, Global};
use std::test::Fail;

/// A Back with a run of one value, and an Ask with three opaque bytes and their padding.
const BACK: &str =
    "0000000400000000000f423e0000000c0000000000000000000000010000000000000000000000000000000100000001000000000000000000000000000000010000000200000001";

const ASK: &str =
    "0000000500000000000000010000000100000002000000060000000000000000000000036162630000000000";

fn fault_of(alloc: Global, bytes: &[u8]) -> Option<MsgError> {
    decode(alloc, bytes).err()
}

/// Where each item of the Back begins.
const ITEMS: &[usize] = &[0, 4, 12, 16, 20, 24, 28, 36, 40, 44, 48, 56, 60, 64, 68];

/// Where the item begins that is cut at this length.
fn begin_of(len: usize) -> usize {
    let mut begin = 0;
    for at in ITEMS {
        if *at <= len {
            begin = *at;
        }
    }
    begin
}

fn is_short(alloc: Global, bytes: &[u8]) -> bool {
    fault_of(alloc, bytes) == Some(MsgError::Short(begin_of(bytes.len()) as u64))
}

#[test]
fn a_message_that_is_cut_is_short(rt: HostRuntime) -> Result<(), Fail> {
    let bytes = bytes_of(rt.alloc(), BACK)?;
    for len in 0..bytes.len() {
        assert!(rt; is_short(rt.alloc(), &bytes[..len]), "cut at {len}");
    }
    Ok(())
}

/// A message, the place of a byte and what it becomes, and the fault.
type Damage = (&'static str, &'static str, usize, u8, MsgError);

const DAMAGES: &[Damage] = &[
    ("no kind", BACK, 3, 9, MsgError::Kind(0)),
    ("kind 0", BACK, 3, 0, MsgError::Kind(0)),
    ("a tag over its range", BACK, 15, 13, MsgError::Kind(12)),
    ("a tag of another byte", BACK, 12, 1, MsgError::Kind(12)),
    (
        "a list longer than the rest",
        BACK,
        63,
        2,
        MsgError::Short(72),
    ),
    (
        "a list far longer than the rest",
        BACK,
        60,
        255,
        MsgError::Short(72),
    ),
    ("padding", ASK, 39, 1, MsgError::Padding(39)),
    (
        "opaque bytes longer than the rest",
        ASK,
        35,
        9,
        MsgError::Short(36),
    ),
];

fn damaged(alloc: Global, hex: &str, at: usize, byte: u8) -> Result<Vec<u8>, AllocError> {
    let mut bytes = bytes_of(alloc, hex)?;
    if let Some(place) = bytes.get_mut(at) {
        *place = byte;
    }
    Ok(bytes)
}

fn is_damage(alloc: Global, row: &Damage) -> Result<bool, AllocError> {
    let (_, hex, at, byte, fault) = row;
    let bytes = damaged(alloc, hex, *at, *byte)?;
    Ok(fault_of(alloc, &bytes) == Some(*fault))
}

#[test]
fn a_damaged_message_has_its_fault(rt: HostRuntime) -> Result<(), Fail> {
    for row in DAMAGES {
        expect(&rt, is_damage(rt.alloc(), row)?, row);
    }
    Ok(())
}

const OTHERS: &[(&str, &str, MsgError)] = &[
    ("a byte added", "000000080000000100", MsgError::Trailing(8)),
    (
        "a u8 over 255",
        "00000006000000010000000000000100",
        MsgError::Range(12),
    ),
    (
        "an s8 below -128",
        "000000060000000100000004ffffff7f",
        MsgError::Range(12),
    ),
    (
        "a kind of birth over 2",
        "000000060000000000000000000000010000000000000001000000030000000100000001",
        MsgError::Range(24),
    ),
    ("nothing", "", MsgError::Short(0)),
];

fn is_fault(alloc: Global, row: &(&str, &str, MsgError)) -> Result<bool, AllocError> {
    let (_, hex, fault) = row;
    let bytes = bytes_of(alloc, hex)?;
    Ok(fault_of(alloc, &bytes) == Some(*fault))
}

#[test]
fn other_damage(rt: HostRuntime) -> Result<(), Fail> {
    for row in OTHERS {
        expect(&rt, is_fault(rt.alloc(), row)?, row);
    }
    Ok(())
}
