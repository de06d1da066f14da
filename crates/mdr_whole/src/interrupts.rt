// Interrupts are taken.

ghost use Rattle.std.specs.Prelude.{◌≡◌, Some, IfOk, OnOk};
ghost use Rattle.mdr_core.specs.Sound.{IsSound};
ghost use Rattle.mdr_plain.specs.Running.{handled, interrupts};
ghost use Rattle.mdr_whole.specs.Ending.{worked_as};
ghost use Rattle.mdr_whole.specs.Going.{driver_code};

use crate::before::{Before, Nothing};
use crate::calls::call;
use crate::code::Code;
use crate::ending::{Gave, Worked};
use mdr_core::OutOfMemory;
use mdr_world::World;
use std::alloc::Global;

/// A handler runs to its end, with nothing tried before its ticks.
fn handle(
    alloc: Global,
    code: Code,
    world: &mut World,
    handler: u32,
    depth: u32,
) -> Result<Worked, OutOfMemory>
    requires sound { IsSound code.program.now }
    requires same { world.old.program ≡ code.program.now }
    ensures kept { OnOk result (world.new.program ≡ code.entry.program.now) }
    ensures worked { IfOk result (λ e. worked_as e world.new.world ≡ handled (driver_code code.entry) depth (Some handler) world.old.world) }
{
    world.enter_irq(handler)?;
    let gave = call::<Nothing>(alloc, code, world, handler, &[], depth)?;
    match gave {
        Gave::Value(_) => {
            world.leave_irq();
            Ok(Worked::Done)
        }
        Gave::Stopped(kind, at) => Ok(Worked::Stopped(kind, at)),
    }
}

/// Where an interrupt is due, its handler runs.
#[tactic(auto, unfolding(mdr_plain::specs::Running::interrupts))]
pub fn interrupt(
    alloc: Global,
    code: Code,
    world: &mut World,
    depth: u32,
) -> Result<Worked, OutOfMemory>
    requires sound { IsSound code.program.now }
    requires same { world.old.program ≡ code.program.now }
    ensures kept { OnOk result (world.new.program ≡ code.entry.program.now) }
    ensures worked { IfOk result (λ e. worked_as e world.new.world ≡ interrupts (driver_code code.entry) depth world.old.world) }
{
    match world.due() {
        Some(handler) => handle(alloc, code, world, handler, depth),
        None => Ok(Worked::Done),
    }
}

/// The interrupt rule is tried: before the ticks of code that no interrupt called.
pub struct Interrupts;

impl Before for Interrupts {
    ghost use Rattle.std.specs.Prelude.{true};

    ghost tries = { true };

    fn attempt(
        alloc: Global,
        code: Code,
        world: &mut World,
        depth: u32,
    ) -> Result<Worked, OutOfMemory> {
        interrupt(alloc, code, world, depth)
    }
}
