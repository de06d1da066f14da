// Inputs that a seed makes, over far sides that give the answers that they were told to give.

use super::{expect_run, shelf_of};
use mdr_outside::{LoadAnswer, LyingFar};
use mdr_top::Status;
use std::alloc::Global;
use std::process::Abort;
use std::test::Fail;

/// The words of a run of what a seed makes.
const SEED: &[&str] = &["gen", "1", "1"];

/// The answer to the texts, and the status and the text of the run.
type Row = (LoadAnswer, Status, &'static str);

/// A run that doesn't end by itself is reported. The far side has no replies.
const RUNS: &[Row] = &[
    (
        LoadAnswer::Failed,
        Status::FarFault,
        "far fault 0\nticks 0\nlive 3\nobj 1 struct node * x1: null\nobj 2 u32 x1: 0\nobj 3 u32 x1: 0\n",
    ),
    (
        LoadAnswer::Refused(1),
        Status::Marshal,
        "refused 0 Load 0\nticks 0\nlive 3\nobj 1 struct node * x1: null\nobj 2 u32 x1: 0\nobj 3 u32 x1: 0\n",
    ),
    (
        LoadAnswer::Ok,
        Status::FarFault,
        "call walk\nfar fault 1\nticks 0\nlive 3\nobj 1 struct node * x1: null\nobj 2 u32 x1: 0\nobj 3 u32 x1: 0\n",
    ),
];

/// Runs what a seed makes over a far side.
fn expect_over(rt: &impl Abort, alloc: Global, far: &mut LyingFar, row: &Row) -> Result<(), Fail> {
    let mut shelf = shelf_of(rt, alloc, "", &[])?;
    let told = expect_run(rt, alloc, SEED, &mut shelf, far, row.1, row.2);
    drop(shelf);
    told
}

fn expect_reported(rt: &impl Abort, alloc: Global, row: &Row) -> Result<(), Fail> {
    let mut far = LyingFar::new(alloc, row.0, Vec::new(alloc));
    let told = expect_over(rt, alloc, &mut far, row);
    drop(far);
    told
}

#[test]
fn what_a_seed_makes_is_reported_where_it_does_not_end_by_itself(
    rt: HostRuntime,
) -> Result<(), Fail> {
    for row in RUNS {
        expect_reported(&rt, rt.alloc(), row)?;
    }
    Ok(())
}
