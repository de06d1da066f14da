// The shelf in memory.

use crate::expect::expect;
use mdr_outside::{MapShelf, ReadAnswer, Shelf, WriteAnswer};
use std::alloc::{AllocError, AllocGlobal, Global};
use std::process::Abort;
use std::test::Fail;

fn word_of(answer: &ReadAnswer) -> &'static str {
    match answer {
        ReadAnswer::Ok(_) => "ok",
        ReadAnswer::Missing => "missing",
        ReadAnswer::TooLarge => "too large",
        ReadAnswer::Failed => "failed",
        ReadAnswer::OutOfMemory => "out of memory",
    }
}

fn bytes_of(answer: &ReadAnswer) -> &[u8] {
    match answer {
        ReadAnswer::Ok(bytes) => bytes.as_slice(),
        _ => &[],
    }
}

/// A read's name and limit, and the word and the bytes of its answer.
pub(crate) type Read = (&'static str, u64, &'static str, &'static [u8]);

fn is_answer(answer: ReadAnswer, word: &str, bytes: &[u8]) -> bool {
    word_of(&answer) == word && bytes_of(&answer) == bytes
}

pub(crate) fn is_read<S: Shelf>(alloc: Global, shelf: &mut S, read: &Read) -> bool {
    let (name, limit, word, bytes) = read;
    is_answer(shelf.read(alloc, name, *limit), word, bytes)
}

pub(super) fn expect_reads<S: Shelf>(rt: &impl Abort, alloc: Global, shelf: &mut S, rows: &[Read]) {
    for read in rows {
        expect(rt, is_read(alloc, shelf, read), read);
    }
}

/// A write's name and bytes, and its answer.
pub(super) type Written = (&'static str, &'static [u8], WriteAnswer);

pub(super) fn is_written<S: Shelf>(alloc: Global, shelf: &mut S, write: &Written) -> bool {
    let (name, bytes, answer) = write;
    shelf.write(alloc, name, bytes) == *answer
}

fn file(alloc: Global, name: &str, bytes: &[u8]) -> Result<(String, Vec<u8>), AllocError> {
    let name = String::from_str(alloc, name)?;
    Ok((name, Vec::from_slice(alloc, bytes)?))
}

pub(crate) fn files_of(
    alloc: Global,
    rows: &[(&str, &[u8])],
) -> Result<Vec<(String, Vec<u8>)>, AllocError> {
    let mut files = Vec::new(alloc);
    for (name, bytes) in rows {
        files.push(file(alloc, name, bytes)?)?;
    }
    Ok(files)
}

pub(crate) fn shelf_of(
    rt: &impl Abort,
    files: Vec<(String, Vec<u8>)>,
    fails: Vec<u64>,
) -> MapShelf {
    assert!(rt; MapShelf::can_hold(&files));
    MapShelf::new(files, fails)
}

/// A shelf with the files `five` and `empty`, whose calls with these numbers fail.
fn two_files<R: Abort + AllocGlobal>(rt: &R, fails: &[u64]) -> Result<MapShelf, AllocError> {
    let alloc = rt.alloc();
    let fails = Vec::from_slice(alloc, fails)?;
    let files = files_of(alloc, &[("five", b"12345"), ("empty", b"")])?;
    Ok(shelf_of(rt, files, fails))
}

const READS: &[Read] = &[
    ("absent", 10, "missing", b""),
    ("five", 4, "too large", b""),
    ("five", 5, "ok", b"12345"),
    ("five", u64::MAX, "ok", b"12345"),
    ("empty", 0, "ok", b""),
    ("", 10, "missing", b""),
    ("five", 5, "failed", b""),
    ("five", 5, "ok", b"12345"),
];

#[test]
fn reads(rt: HostRuntime) -> Result<(), Fail> {
    let mut shelf = two_files(&rt, &[7])?;
    expect_reads(&rt, rt.alloc(), &mut shelf, READS);
    drop(shelf);
    Ok(())
}

/// A write, and the files `five` and `new` after it.
type Change = (Written, &'static [u8], Option<&'static [u8]>);

const CHANGES: &[Change] = &[
    (("five", b"6", WriteAnswer::Ok), b"6", None),
    (("five", b"77", WriteAnswer::Failed), b"6", None),
    (("new", b"888", WriteAnswer::Ok), b"6", Some(b"888")),
    (("new", b"9", WriteAnswer::Failed), b"6", Some(b"888")),
    (("five", b"", WriteAnswer::Ok), b"", Some(b"888")),
];

fn is_file(file: Option<&[u8]>, bytes: Option<&[u8]>) -> bool {
    match (file, bytes) {
        (Some(file), Some(bytes)) => file == bytes,
        (None, None) => true,
        _ => false,
    }
}

fn is_change(alloc: Global, shelf: &mut MapShelf, change: &Change) -> bool {
    let (write, five, new) = change;
    is_written(alloc, shelf, write)
        && is_file(shelf.file("five"), Some(five))
        && is_file(shelf.file("empty"), Some(b""))
        && is_file(shelf.file("new"), *new)
}

#[test]
fn writes(rt: HostRuntime) -> Result<(), Fail> {
    let mut shelf = two_files(&rt, &[2, 4])?;
    for change in CHANGES {
        expect(&rt, is_change(rt.alloc(), &mut shelf, change), change);
    }
    drop(shelf);
    Ok(())
}

const FIVE: Read = ("five", 5, "ok", b"12345");

const REFUSED: Written = ("five", b"6", WriteAnswer::Failed);

const NO_FIVE: Read = ("five", 5, "failed", b"");

const WRITTEN: Written = ("five", b"6", WriteAnswer::Ok);

const SIX: Read = ("five", 5, "ok", b"6");

fn are_counted(alloc: Global, shelf: &mut MapShelf) -> bool {
    is_read(alloc, shelf, &FIVE)
        && is_written(alloc, shelf, &REFUSED)
        && is_read(alloc, shelf, &NO_FIVE)
        && is_written(alloc, shelf, &WRITTEN)
        && is_read(alloc, shelf, &SIX)
}

#[test]
fn counts_reads_and_writes_together(rt: HostRuntime) -> Result<(), Fail> {
    let mut shelf = two_files(&rt, &[2, 3])?;
    let holds = are_counted(rt.alloc(), &mut shelf);
    drop(shelf);
    assert!(rt; holds);
    Ok(())
}

fn can_hold(alloc: Global, rows: &[(&str, &[u8])]) -> Result<bool, AllocError> {
    let files = files_of(alloc, rows)?;
    Ok(MapShelf::can_hold(&files))
}

#[test]
fn refuses_a_name_that_stands_twice(rt: HostRuntime) -> Result<(), Fail> {
    let alloc = rt.alloc();
    assert!(rt; can_hold(alloc, &[("a", b"1"), ("b", b"2")])?);
    assert!(rt; !can_hold(alloc, &[("a", b"1"), ("b", b"2"), ("a", b"3")])?);
    Ok(())
}
