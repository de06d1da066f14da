// The run of a script on one memory.

ghost use Rattle.std.specs.Prelude.{◌≡◌, IfOk, OnOk};
ghost use Rattle.mdr_core.specs.Sound.{IsSound};
ghost use Rattle.mdr_plain.specs.Outcome.{outcome_of};
ghost use Rattle.mdr_meaning.specs.Bodies.{whole_side};
ghost use Rattle.mdr_plain.specs.Plain.{does, plain, whole};
ghost use Rattle.mdr_plain.specs.Scripts.{commands};
ghost use Rattle.mdr_whole.specs.Ending.{end_of, finished};

use crate::code::Code;
use crate::commands::do_commands;
use crate::ending::Worked;
use mdr_bound::Bound;
use mdr_core::{OutOfMemory, Program};
use mdr_exec::Side;
use mdr_model::{Command, End};
use mdr_plain::Outcome;
use mdr_shown::outcome;
use mdr_world::World;
use std::alloc::Global;

fn end_of(worked: Worked) -> End
    ensures { result ≡ end_of worked }
{
    match worked {
        Worked::Done => End::Ok,
        Worked::Stopped(kind, at) => End::Stop(kind, at),
    }
}

/// Does the commands of a script in a world, with a driver's whole code, and gives what the run shows.
#[tactic(auto, unfolding(mdr_meaning::specs::Bodies::whole_side))]
fn shown_of(
    alloc: Global,
    program: &Program,
    script: &[Command],
    world: &mut World,
) -> Result<Outcome, OutOfMemory>
    requires sound { IsSound program.now }
    requires same { world.old.program ≡ program.now }
    ensures { IfOk result (λ o. o ≡ outcome_of program.now (commands (does (whole program.now (whole_side program.now))) script.now world.old.world)) }
{
    let code = Code {
        program,
        halves: &[],
        side: Side::Whole,
    };
    let worked = do_commands(alloc, code, world, script)?;
    let shown = outcome(alloc, world, end_of(worked))?;
    Ok(shown)
}

/// Runs a script for a driver's whole code, on one memory, with so many ticks, and gives what the run shows.
#[tactic(auto, unfolding(mdr_plain::specs::Plain::plain_of, mdr_meaning::specs::Bodies::whole_side))]
pub fn run_whole(
    alloc: Global,
    program: &Program,
    script: &Bound,
    ticks: u64,
) -> Result<Outcome, OutOfMemory>
    requires { IsSound program.now }
    ensures { IfOk result (λ o. o ≡ outcome_of program.now (plain program.now script.now ticks)) }
{
    let mut world = World::new(alloc, program, script, ticks)?;
    let shown = shown_of(alloc, program, script.commands.as_slice(), &mut world);
    drop(world);
    shown
}
