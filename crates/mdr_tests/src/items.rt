// Items of RFC 4506 from outside, and each fault at its offset.

use crate::expect::expect;
use mdr_core::Kind;
use mdr_xdr::{Cursor, XdrError, get, get_opaque, put, put_opaque};
use std::alloc::Global;
use std::test::Fail;

fn written(alloc: Global, kind: Kind, n: i128) -> Result<Vec<u8>, Fail> {
    let mut out = Vec::new(alloc);
    if !kind.contains(n) {
        return Err("the number is out of range".into());
    }
    match put(kind, n, &mut out) {
        Ok(()) => Ok(out),
        Err(_) => Err("memory was wanting".into()),
    }
}

/// A number of a kind, and its bytes.
type Number = (Kind, i128, &'static [u8]);

fn is_written(alloc: Global, row: &Number) -> Result<bool, Fail> {
    let (kind, n, bytes) = row;
    let out = written(alloc, *kind, *n)?;
    Ok(out.as_slice() == *bytes)
}

fn is_read(row: &Number) -> bool {
    let (kind, n, bytes) = row;
    let mut c = Cursor { at: 0 };
    get(*kind, bytes, &mut c) == Ok(*n) && c.at == bytes.len() as u64
}

const NUMBERS: &[Number] = &[
    (Kind::U16, 258, &[0, 0, 1, 2]),
    (Kind::S8, -1, &[255, 255, 255, 255]),
    (Kind::S16, -2, &[255, 255, 255, 254]),
    (Kind::U32, 4_294_967_295, &[255, 255, 255, 255]),
    (Kind::S64, -259, &[255, 255, 255, 255, 255, 255, 254, 253]),
    (Kind::U64, 1_000_000, &[0, 0, 0, 0, 0, 15, 66, 64]),
];

#[test]
fn numbers_are_written_and_read(rt: HostRuntime) -> Result<(), Fail> {
    for row in NUMBERS {
        expect(&rt, is_written(rt.alloc(), row)?, row);
        expect(&rt, is_read(row), row);
    }
    Ok(())
}

fn opaque(alloc: Global) -> Result<Vec<u8>, Fail> {
    let mut out = Vec::new(alloc);
    match put_opaque(b"abc", &mut out) {
        Ok(()) => Ok(out),
        Err(_) => Err("memory was wanting".into()),
    }
}

fn is_opaque(bytes: &[u8], content: &[u8]) -> bool {
    let mut c = Cursor { at: 0 };
    match get_opaque(bytes, &mut c) {
        Ok(found) => found == content && c.at == bytes.len() as u64,
        Err(_) => false,
    }
}

#[test]
fn opaque_bytes_are_written_and_read(rt: HostRuntime) -> Result<(), Fail> {
    let out = opaque(rt.alloc())?;
    assert!(rt; out.as_slice() == b"\0\0\0\x03abc\0".as_slice());
    assert!(rt; is_opaque(&out, b"abc"));
    Ok(())
}

/// Where the cursor stands, the bytes, and the fault of the number there.
type NumberFault = (u64, Kind, &'static [u8], XdrError);

const NUMBER_FAULTS: &[NumberFault] = &[
    (4, Kind::U8, &[0, 0, 0, 1, 0, 0, 1, 0], XdrError::Range(4)),
    (4, Kind::U64, &[0; 11], XdrError::Short(4)),
    (9, Kind::S32, &[0; 8], XdrError::Short(9)),
    (0, Kind::U8, &[0, 0, 1, 0], XdrError::Range(0)),
];

fn is_number_fault(row: &NumberFault) -> bool {
    let (at, kind, bytes, fault) = row;
    let mut c = Cursor { at: *at };
    get(*kind, bytes, &mut c) == Err(*fault) && c.at == *at
}

/// Where the cursor stands, the bytes, and the fault of the opaque bytes there.
type OpaqueFault = (u64, &'static [u8], XdrError);

const OPAQUE_FAULTS: &[OpaqueFault] = &[
    (4, &[0, 0, 0, 0, 0, 0], XdrError::Short(4)),
    (4, b"####\0\0\0\x03abc", XdrError::Short(8)),
    (4, b"####\0\0\0\x01a\0\0\x01", XdrError::Padding(11)),
    (0, b"\0\0\0\x03abc\x01", XdrError::Padding(7)),
];

fn is_opaque_fault(row: &OpaqueFault) -> bool {
    let (at, bytes, fault) = row;
    let mut c = Cursor { at: *at };
    get_opaque(bytes, &mut c).err() == Some(*fault) && c.at == *at
}

#[test]
fn a_fault_names_its_offset_and_the_cursor_stays(rt: HostRuntime) {
    for row in NUMBER_FAULTS {
        expect(&rt, is_number_fault(row), row);
    }
    for row in OPAQUE_FAULTS {
        expect(&rt, is_opaque_fault(row), row);
    }
}
