// Runs of the top call over files and output in memory.

mod answers;
mod callbacks;
mod cuts;
mod files;
mod nested;
mod output;
mod seeds;
mod sent;
mod wires;

use crate::outside::shelf;
use mdr_far::LocalFar;
use mdr_outside::{Far, MapShelf, VecSink};
use mdr_top::{Status, run};
use std::alloc::{AllocError, Global};
use std::process::Abort;
use std::test::Fail;

/// A driver whose function in the user half calls one in the kernel half twice, and writes a register between.
const BUMP: &str =
    "u32 count; __critical void bump(void){count=count+1;} void open(void){bump(); writel(count,4); bump();}";

/// The words of a run of the shelf's files.
const RUN: &[&str] = &["run", "split", "bump.c", "open.script"];

/// The report of the driver's first run.
const REPORT: &str = "call open\nW 4 1\nret none\nend ok\nticks 5\nlive 1\nobj 1 u32 x1: 2\n";

fn words_of(alloc: Global, words: &[&str]) -> Result<Vec<String>, AllocError> {
    let mut out = Vec::new(alloc);
    for word in words {
        out.push(String::from_str(alloc, word)?)?;
    }
    Ok(out)
}

/// A shelf with the driver and a script, whose calls with these numbers fail.
fn shelf_of(
    rt: &impl Abort,
    alloc: Global,
    script: &str,
    fails: &[u64],
) -> Result<MapShelf, AllocError> {
    let fails = Vec::from_slice(alloc, fails)?;
    let rows = [
        ("bump.c", BUMP.as_bytes()),
        ("open.script", script.as_bytes()),
    ];
    let files = shelf::files_of(alloc, &rows)?;
    Ok(shelf::shelf_of(rt, files, fails))
}

fn ends<F: Far>(
    alloc: Global,
    words: &Vec<String>,
    shelf: &mut MapShelf,
    out: &mut VecSink,
    far: &mut F,
    status: Status,
    text: &str,
) -> bool {
    let ended = run(alloc, words, shelf, out, far);
    ended == status && out.bytes() == text.as_bytes()
}

/// Runs the words, and compares the status and what was printed.
fn expect_printed<F: Far>(
    rt: &impl Abort,
    alloc: Global,
    words: &[&str],
    shelf: &mut MapShelf,
    out: &mut VecSink,
    far: &mut F,
    status: Status,
    text: &str,
) -> Result<(), Fail> {
    let words = words_of(alloc, words)?;
    assert!(rt;
        ends(alloc, &words, shelf, out, far, status, text),
        "before {text}"
    );
    Ok(())
}

/// Runs the words over an output that takes a few bytes at once.
fn expect_run<F: Far>(
    rt: &impl Abort,
    alloc: Global,
    words: &[&str],
    shelf: &mut MapShelf,
    far: &mut F,
    status: Status,
    text: &str,
) -> Result<(), Fail> {
    let mut out = VecSink::new(alloc, 4000, 7, Vec::new(alloc))?;
    let told = expect_printed(rt, alloc, words, shelf, &mut out, far, status, text);
    drop(out);
    told
}

/// Runs the words with the user half in the same process.
fn expect_run_here(
    rt: &impl Abort,
    alloc: Global,
    words: &[&str],
    shelf: &mut MapShelf,
    status: Status,
    text: &str,
) -> Result<(), Fail> {
    let mut far = LocalFar::new();
    let told = expect_run(rt, alloc, words, shelf, &mut far, status, text);
    drop(far);
    told
}
