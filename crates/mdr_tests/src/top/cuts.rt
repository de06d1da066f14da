// Texts that cannot be written.

use super::{expect_run_here, shelf_of};
use crate::outside::shelf::{Read, is_read};
use mdr_outside::MapShelf;
use mdr_top::Status;
use std::alloc::Global;
use std::process::Abort;
use std::test::Fail;

/// The kernel half's file, which is there.
const KERNEL: Read = (
    "bump.c.k.c",
    1000,
    "ok",
    b"u32 count;\n__critical void bump(void) {\n\tcount = count + 1;\n}\n__remote void open(void);\n",
);

fn expect_cut(rt: &impl Abort, alloc: Global, shelf: &mut MapShelf) -> Result<(), Fail> {
    let words = ["split", "bump.c"];
    let text = "write fault bump.c.u.c\n";
    expect_run_here(rt, alloc, &words, shelf, Status::WriteFault, text)?;
    assert!(rt; is_read(alloc, shelf, &KERNEL));
    Ok(())
}

#[test]
fn a_text_that_cannot_be_written_is_named(rt: HostRuntime) -> Result<(), Fail> {
    let mut shelf = shelf_of(&rt, rt.alloc(), "", &[3])?;
    let told = expect_cut(&rt, rt.alloc(), &mut shelf);
    drop(shelf);
    told
}
