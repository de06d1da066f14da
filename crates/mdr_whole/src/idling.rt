// Ticks in which no code runs.

ghost use Rattle.std.specs.Prelude.{◌≡◌, ◌≤◌, ◌-◌, IfOk, None, OnOk};
ghost use Rattle.mdr_core.specs.Sound.{IsSound};
ghost use Rattle.mdr_plain.specs.Running.{KernelCode, interrupts};
ghost use Rattle.mdr_plain.specs.Scripts.{idle};
ghost use Rattle.mdr_plain.specs.World.{done, ticked};
ghost use Rattle.mdr_runs.specs.Scripts.{idle_tick};
ghost use Rattle.mdr_whole.specs.Ending.{worked_as};
ghost use Rattle.mdr_whole.specs.Going.{driver_code};

use crate::code::Code;
use crate::ending::Worked;
use crate::interrupts::interrupt;
use mdr_core::{OutOfMemory, StopKind};
use mdr_world::World;
use std::alloc::Global;

/// A tick that no code needs, if one is left.
fn pass(world: &mut World) -> Worked
    ensures kept { world.new.program ≡ world.old.program }
    ensures worked { worked_as result world.new.world ≡ ticked None world.old.world done }
{
    if world.tick() {
        return Worked::Done;
    }
    Worked::Stopped(StopKind::Ticks, None)
}

/// One tick, and what is tried before it.
fn idle_tick(alloc: Global, code: Code, world: &mut World) -> Result<Worked, OutOfMemory>
    requires sound { IsSound code.program.now }
    requires same { world.old.program ≡ code.program.now }
    ensures kept { OnOk result (world.new.program ≡ code.entry.program.now) }
    ensures worked { IfOk result (λ e. worked_as e world.new.world ≡ idle_tick (interrupts (driver_code code.entry)) world.old.world) }
{
    let tried = interrupt(alloc, code, world, 0)?;
    match tried {
        Worked::Done => Ok(pass(world)),
        Worked::Stopped(kind, at) => Ok(Worked::Stopped(kind, at)),
    }
}

/// Those of so many ticks pass at once before which no interrupt is due. It gives how many there were.
fn pass_calm(world: &mut World, ticks: u64) -> u64
    ensures kept { world.new.program ≡ world.old.program }
    ensures few { result ≤ ticks }
    ensures passed { (kernel : KernelCode) → idle (interrupts kernel) (ticks - result) world.new.world ≡ idle (interrupts kernel) ticks world.old.world }
{
    let most = ticks.min(world.rest());
    let calm = world.calm_ticks(most);
    world.count(calm);
    calm
}

/// So many ticks pass: at once where no interrupt is due before them, and else one by one.
pub fn idle(alloc: Global, code: Code, world: &mut World, ticks: u64) -> Result<Worked, OutOfMemory>
    requires sound { IsSound code.program.now }
    requires same { world.old.program ≡ code.program.now }
    ensures kept { OnOk result (world.new.program ≡ code.entry.program.now) }
    ensures worked { IfOk result (λ e. worked_as e world.new.world ≡ idle (interrupts (driver_code code.entry)) ticks world.old.world) }
{
    let mut passed = 0;
    while passed < ticks {
        let calm = pass_calm(world, ticks - passed);
        passed += calm;
        if calm == 0 {
            let worked = idle_tick(alloc, code, world)?;
            match worked {
                Worked::Done => passed += 1,
                Worked::Stopped(kind, at) => return Ok(Worked::Stopped(kind, at)),
            }
        }
    }
    Ok(Worked::Done)
}
