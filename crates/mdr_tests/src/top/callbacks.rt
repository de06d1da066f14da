// Runs in which code of the kernel half calls back into the user half.

use super::expect_run_here;
use crate::outside::shelf;
use mdr_outside::MapShelf;
use mdr_top::Status;
use std::alloc::{AllocError, Global};
use std::process::Abort;
use std::test::Fail;

/// User code calls a function of the kernel half twice, which calls it back each time.
pub(super) const FIRE: &str =
    "struct job {u32 n;}; struct job j; u32 log; void (*cb)(u32); void done(u32 x){log=log*10+x; writel(x,3);} __critical void fire(u32 x){kcall(cb,x); j.n+=1;} void go(void){cb=done; fire(1); fire(2); log+=j.n;}";

/// The lines of its messages: in each call of the kernel half the user half is called, and asks for a write.
const FIRE_LINES: &str =
    "> 00000001000000020000000000000000000f42400000000000000000000000000000000300000000000000000000000000000001000000000000000100000000000000010000000000000002000000000000000100000000
< 0000000300000000000000020000000200000002000000010000000100000001000000020000000100000001000000000000000200000000000000010000000b00000000
> 00000001000000000000000200000000000f423d0000000100000002000000010000000000000000000000010000000000000001000000000000000100000000
< 0000000500000000000000020000000000000002000000050000000200000002000000010000000200000003000000000000000000000001000000000000000100000000000000010000000200000001
> 00000006000000000000000000000000
< 0000000200000000000000000000000c00000000
> 0000000400000000000f423a0000000c00000000000000000000000300000000000000000000000000000001000000000000000100000000000000010000000000000002000000000000000100000001000000000000000000000000000000010000000200000001
< 0000000300000000000000010000000200000003000000010000000100000001000000020000000200000000
> 00000001000000000000000200000000000f42380000000100000002000000020000000000000000000000010000000000000001000000000000000100000000
< 000000050000000000000002000000000000000200000005000000020000000200000002000000020000000300000000000000000000000100000000000000010000000000000001000000020000000c
> 00000006000000000000000000000000
< 0000000200000000000000000000000c00000000
> 0000000400000000000f42350000000c00000000000000000000000300000000000000000000000000000001000000000000000100000000000000010000000000000002000000000000000100000001000000000000000000000000000000010000000200000002
< 0000000200000000000000010000000c0000000100000000000000010000000000000001000000020000000e
messages 14
";

/// An interrupt handler calls back.
const HANDLER: &str =
    "u32 n; void usr(u32 x){n=n+x;} __critical void h(void){n=n+1; kcall(usr,1);} __critical void reg(void){request_irq(h); writel(1,0); n=n+10;}";

/// Code that holds a lock that spins calls back.
const LOCKED: &str =
    "combolock_t m; void cb(u32 x){} __critical void bad(void){combolock(&m); kcall(cb,1);}";

/// A driver, a script, the status and the report of its run, and the lines of its messages.
type Row = (
    &'static str,
    &'static str,
    Status,
    &'static str,
    &'static str,
);

/// Code that may not wait stops where it calls back, before any message.
const RUNS: &[Row] = &[
    (
        FIRE,
        "call go\n",
        Status::Done,
        "call go\nW 3 1\nW 3 2\nret none\nend ok\nticks 12\nlive 3\nobj 1 struct job x1: 2\nobj 2 u32 x1: 14\nobj 3 fn(void;u32) x1: &done\n",
        FIRE_LINES,
    ),
    (
        HANDLER,
        "on write 0 do raise\ncall reg\n",
        Status::Stopped,
        "call reg\nW 0 1\nirq h\nstop Atomic at h 2\nticks 4\nlive 1\nobj 1 u32 x1: 1\n",
        "messages 0\n",
    ),
    (
        LOCKED,
        "call bad\n",
        Status::Stopped,
        "call bad\nstop Atomic at bad 2\nticks 2\nlive 1\nobj 1 combolock_t x1: held\n",
        "messages 0\n",
    ),
];

/// The words of a run in two halves whose messages are shown.
const SPLIT: &[&str] = &["run", "split", "driver.c", "driver.script", "--wire"];

/// Those of the same run on one memory.
const WATCHED: &[&str] = &["run", "whole", "driver.c", "driver.script", "--watch"];

/// A shelf with a driver and a script.
pub(super) fn shelf_of(
    rt: &impl Abort,
    alloc: Global,
    driver: &str,
    script: &str,
) -> Result<MapShelf, AllocError> {
    let rows = [
        ("driver.c", driver.as_bytes()),
        ("driver.script", script.as_bytes()),
    ];
    let files = shelf::files_of(alloc, &rows)?;
    Ok(shelf::shelf_of(rt, files, Vec::new(alloc)))
}

fn expect_text(
    rt: &impl Abort,
    alloc: Global,
    words: &[&str],
    row: &Row,
    text: &str,
) -> Result<(), Fail> {
    let mut shelf = shelf_of(rt, alloc, row.0, row.1)?;
    let told = expect_run_here(rt, alloc, words, &mut shelf, row.2, text);
    drop(shelf);
    told
}

/// The run in two halves is reported as that on one memory.
fn expect_both(rt: &impl Abort, alloc: Global, row: &Row) -> Result<(), Fail> {
    let (_, _, _, report, lines) = row;
    let text = format!(in alloc; "{report}{lines}")?;
    expect_text(rt, alloc, SPLIT, row, text.as_str())?;
    expect_text(rt, alloc, WATCHED, row, report)
}

#[test]
fn code_of_the_kernel_half_calls_back(rt: HostRuntime) -> Result<(), Fail> {
    for row in RUNS {
        expect_both(&rt, rt.alloc(), row)?;
    }
    Ok(())
}
