// Files that cannot be read.

use super::{REPORT, expect_run_here, shelf_of};
use mdr_top::Status;
use std::alloc::Global;
use std::process::Abort;
use std::test::Fail;

/// The names of the source and of the script, which calls of the shelf fail, and what comes of it.
type Files = (
    &'static str,
    &'static str,
    &'static [u64],
    Status,
    &'static str,
);

const FILES: &[Files] = &[
    (
        "none.c",
        "open.script",
        &[],
        Status::Missing,
        "missing none.c\n",
    ),
    ("bump.c", "none", &[], Status::Missing, "missing none\n"),
    (
        "bump.c",
        "open.script",
        &[1],
        Status::ReadFault,
        "read fault bump.c\n",
    ),
    (
        "bump.c",
        "open.script",
        &[2],
        Status::ReadFault,
        "read fault open.script\n",
    ),
    ("bump.c", "open.script", &[3], Status::Done, REPORT),
];

fn expect_files(rt: &impl Abort, alloc: Global, row: &Files) -> Result<(), Fail> {
    let (source, script, fails, status, text) = row;
    let mut shelf = shelf_of(rt, alloc, "call open", fails)?;
    let words = ["run", "split", *source, *script];
    let told = expect_run_here(rt, alloc, &words, &mut shelf, *status, text);
    drop(shelf);
    told
}

#[test]
fn files_that_cannot_be_read_are_named(rt: HostRuntime) -> Result<(), Fail> {
    for row in FILES {
        expect_files(&rt, rt.alloc(), row)?;
    }
    Ok(())
}
