// Outputs that take little or nothing.

use super::{REPORT, RUN, expect_printed, shelf_of};
use mdr_far::LocalFar;
use mdr_outside::VecSink;
use mdr_top::Status;
use std::alloc::Global;
use std::process::Abort;
use std::test::Fail;

/// The room of an output, the most bytes that it takes at once, which of its calls fail, and what comes of it.
type Output = (usize, usize, &'static [u64], Status, &'static str);

const OUTPUTS: &[Output] = &[
    (71, 1, &[], Status::Done, REPORT),
    (71, 71, &[], Status::Done, REPORT),
    (20, 3, &[], Status::WriteFault, "call open\nW 4 1\nret "),
    (71, 3, &[1], Status::WriteFault, ""),
    (71, 3, &[4], Status::WriteFault, "call open"),
];

fn expect_into(
    rt: &impl Abort,
    alloc: Global,
    out: &mut VecSink,
    status: Status,
    text: &str,
) -> Result<(), Fail> {
    let mut shelf = shelf_of(rt, alloc, "call open", &[])?;
    let mut far = LocalFar::new();
    let told = expect_printed(rt, alloc, RUN, &mut shelf, out, &mut far, status, text);
    drop(far);
    drop(shelf);
    told
}

fn expect_output(rt: &impl Abort, alloc: Global, row: &Output) -> Result<(), Fail> {
    let (room, most, fails, status, text) = row;
    assert!(rt; 0 < *most);
    let fails = Vec::from_slice(alloc, fails)?;
    let mut out = VecSink::new(alloc, *room, *most, fails)?;
    let told = expect_into(rt, alloc, &mut out, *status, text);
    drop(out);
    told
}

#[test]
fn an_output_takes_pieces_or_is_a_write_fault(rt: HostRuntime) -> Result<(), Fail> {
    for row in OUTPUTS {
        expect_output(&rt, rt.alloc(), row)?;
    }
    Ok(())
}
