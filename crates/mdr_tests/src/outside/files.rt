// The adapters over real files, in the folder where the test runs.

use super::shelf::{Read, Written, expect_reads, is_written};
use super::sink::{Piece, expect_pieces};
use crate::expect::expect;
use mdr_outside::{FolderShelf, OutSink, SinkAnswer, WriteAnswer};
use std::alloc::AllocGlobal;
use std::fs::Files;
use std::process::Abort;
use std::test::Fail;
use std::{fs, io};

const WRITES: &[Written] = &[
    ("shelf.txt", b"123456", WriteAnswer::Ok),
    ("shelf.txt", b"12345", WriteAnswer::Ok),
    ("absent/a.txt", b"1", WriteAnswer::Failed),
];

const READS: &[Read] = &[
    ("absent.txt", 10, "missing", b""),
    ("shelf.txt", 4, "too large", b""),
    ("shelf.txt", 5, "ok", b"12345"),
    ("shelf.txt", u64::MAX, "ok", b"12345"),
    (".", 10, "failed", b""),
    ("no\0name", 10, "failed", b""),
];

fn writes_and_reads<R: Abort + AllocGlobal + Files>(rt: &R) {
    let mut shelf = FolderShelf::new(rt);
    for write in WRITES {
        expect(rt, is_written(rt.alloc(), &mut shelf, write), write);
    }
    expect_reads(rt, rt.alloc(), &mut shelf, READS);
}

#[test]
fn reads_and_writes_files(rt: HostRuntime) -> Result<(), Fail> {
    writes_and_reads(&rt);
    fs::remove_file(&rt, "shelf.txt")?;
    Ok(())
}

const LINES: &[Piece] = &[
    (b"one\n", SinkAnswer::Ok(4)),
    (b"", SinkAnswer::Ok(0)),
    (b"two\n", SinkAnswer::Ok(4)),
];

const THREE: &[Piece] = &[(b"three\n", SinkAnswer::Failed)];

/// A file that is made takes lines, and one that is open to be read doesn't.
fn writes_lines<R: Abort + Files>(rt: &R) -> Result<(), Fail> {
    let made = fs::create(rt, "out.txt")?;
    expect_pieces(rt, &mut OutSink::new(made), LINES);
    let open = fs::open(rt, "out.txt")?;
    expect_pieces(rt, &mut OutSink::new(open), THREE);
    Ok(())
}

fn are_lines(rt: &HostRuntime) -> Result<bool, Fail> {
    let bytes = fs::read(rt, "out.txt")?;
    Ok(bytes.as_slice() == b"one\ntwo\n".as_slice())
}

const WRITTEN: &[Piece] = &[(b"written\n", SinkAnswer::Ok(8))];

#[test]
fn writes_out(rt: HostRuntime) -> Result<(), Fail> {
    writes_lines(&rt)?;
    assert!(rt; are_lines(&rt)?);
    expect_pieces(&rt, &mut OutSink::new(io::writer(&rt)), WRITTEN);
    fs::remove_file(&rt, "out.txt")?;
    Ok(())
}
