// The run of a script on one memory, while user code is held to its annotations.

ghost use Rattle.std.specs.Prelude.{◌≡◌, IfOk, length};
ghost use Rattle.mdr_core.specs.Sound.{IsSound};
ghost use Rattle.mdr_plain.specs.Outcome.{outcome_of};
ghost use Rattle.mdr_plain.specs.Scripts.{finish};
ghost use Rattle.mdr_watched.specs.Watched.{watched};
ghost use Rattle.mdr_whole.specs.Ending.{end_of};
ghost use Rattle.mdr_watch.specs.Watching.{HaveBodies};

use crate::commands::{Did, do_commands};
use crate::watch::Watch;
use mdr_bound::Bound;
use mdr_core::{OutOfMemory, Plan, Program};
use mdr_model::End;
use mdr_plain::Outcome;
use mdr_shown::outcome;
use mdr_whole::Worked;
use mdr_world::World;
use std::alloc::Global;

fn end_of(worked: Worked) -> End
    ensures { result ≡ end_of worked }
{
    match worked {
        Worked::Done => End::Ok,
        Worked::Stopped(kind, at) => End::Stop(kind, at),
    }
}

/// What a run shows that ended so.
fn shown_of(alloc: Global, did: Did) -> Result<Outcome, OutOfMemory>
    ensures { IfOk result (λ o. o ≡ outcome_of did.entry.world.program (finish (end_of did.entry.worked) did.entry.world.world)) }
{
    let Did { worked, world } = did;
    let mut world = world;
    let shown = outcome(alloc, &mut world, end_of(worked));
    drop(world);
    shown
}

/// Runs a script for a driver on one memory, with so many ticks, while its user half is held to what the plan lets it touch,
/// and gives what the run shows. Code of the kernel half may call functions of the user half.
#[tactic(auto, unfolding(mdr_watched::specs::Watched::watched_of))]
pub fn run_watched(
    alloc: Global,
    program: &Program,
    plan: &Plan,
    script: &Bound,
    ticks: u64,
) -> Result<Outcome, OutOfMemory>
    requires sound { IsSound program.now }
    requires fit { length plan.now.halves ≡ length program.now.funcs }
    requires bodies { HaveBodies program.now }
    ensures { IfOk result (λ o. o ≡ outcome_of program.now (watched program.now plan.now script.now ticks)) }
{
    let watch = Watch { program, plan };
    let world = World::new(alloc, program, script, ticks)?;
    let did = do_commands(alloc, watch, world, script.commands.as_slice())?;
    let shown = shown_of(alloc, did)?;
    Ok(shown)
}
