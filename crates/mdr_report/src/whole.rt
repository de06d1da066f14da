// The report of a whole driver's run.

ghost use Rattle.std.specs.Prelude.{◌≡◌, ◌++◌, OnOk, IfOk};
ghost use Rattle.mdr_plain.specs.Report.{report};

use crate::event::put_end;
use crate::text::put_counts;
use crate::whole_event::put_whole_events;
use crate::whole_object::put_whole_objects;
use mdr_core::{Items, OutOfMemory, Program};
use mdr_plain::Outcome;
use std::alloc::{AllocError, Global};

#[tactic(auto, unfolding(mdr_plain::specs::Report::report))]
fn put_whole(
    alloc: Global,
    out: &mut Vec<u8>,
    program: &Program,
    outcome: &Outcome,
) -> Result<(), AllocError>
    ensures { OnOk result (out.new.items ≡ out.old.items ++ report program.now outcome.now) }
{
    put_whole_events(alloc, out, program, outcome.events.as_slice())?;
    put_end(alloc, out, program, &outcome.end)?;
    put_counts(alloc, out, outcome.ticks, outcome.live)?;
    put_whole_objects(alloc, out, program, outcome.objects.as_slice())
}

/// The bytes of the report of a run in which every body is entered: a line for each event in order, the end, the ticks,
/// the live blocks, and a line for each object. Every line ends in a newline. A number that names nothing of the program
/// shows no name.
pub fn report_whole(
    alloc: Global,
    program: &Program,
    outcome: &Outcome,
) -> Result<Items<u8>, OutOfMemory>
    ensures { IfOk result (λ bytes. bytes ≡ report program.now outcome.now) }
{
    let mut out = Vec::new(alloc);
    match put_whole(alloc, &mut out, program, outcome) {
        Ok(()) => Ok(Items::from_vec(out)),
        Err(error) => Err(error.into()),
    }
}
