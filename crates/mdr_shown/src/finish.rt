// What a run that ended so shows.

ghost use Rattle.std.specs.Prelude.{◌≡◌, IfOk};
ghost use Rattle.mdr_plain.specs.Outcome.{outcome_of};

use crate::objects::all_objects;
use mdr_core::OutOfMemory;
use mdr_model::End;
use mdr_plain::Outcome;
use mdr_world::World;
use std::alloc::Global;

/// What is shown of a run that ended so in this world, whose events are taken. Objects are numbered from 1: the globals in
/// order, and then each live block where the scan of the objects' cells meets it first. Numbers that are too large are
/// answered as want of memory.
#[tactic(auto, unfolding(mdr_plain::specs::Outcome::outcome_of))]
pub fn outcome(alloc: Global, world: &mut World, end: End) -> Result<Outcome, OutOfMemory>
    ensures { IfOk result (λ o. o ≡ outcome_of world.old.program (record { end = end; world = world.old.world })) }
{
    let objects = all_objects(alloc, world)?;
    let ticks = world.ticks();
    let live = world.live();
    Ok(Outcome {
        events: world.take_events(alloc),
        end,
        ticks,
        live,
        objects,
    })
}
