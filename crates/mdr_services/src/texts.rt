// Texts and bytes: `printk`, `deliver`.

ghost use Rattle.std.specs.Prelude.{◌≡◌, IfOk, OnOk};
ghost use Rattle.mdr_core.specs.declared.place.At.{At as Place};
ghost use Rattle.mdr_plain.specs.declared.outcome.Happened.TheVariants as happened;
ghost use Rattle.mdr_plain.specs.Services.{gives_none};
ghost use Rattle.mdr_plain.specs.World.{noted};
ghost use Rattle.mdr_services.specs.Serving.{served_as};

use crate::answer::{Served, nothing};
use mdr_core::{Items, OutOfMemory};
use mdr_plain::Happened;
use mdr_world::World;
use std::alloc::Global;

/// Prints a text.
pub(crate) fn print(alloc: Global, world: &mut World, text: &[u8]) -> Result<Served, OutOfMemory>
    ensures kept { OnOk result (world.new.program ≡ world.old.program) }
    ensures served { IfOk result (λ s. (at : Place) → served_as s at world.new.world ≡ gives_none (noted (happened.Log text.now) world.old.world)) }
{
    let copy = Items::from_slice(alloc, text)?;
    world.note(Happened::Log(copy))?;
    Ok(nothing(alloc))
}

/// Delivers bytes.
pub(crate) fn deliver(alloc: Global, world: &mut World, bytes: &[u8]) -> Result<Served, OutOfMemory>
    ensures kept { OnOk result (world.new.program ≡ world.old.program) }
    ensures served { IfOk result (λ s. (at : Place) → served_as s at world.new.world ≡ gives_none (noted (happened.Deliver bytes.now) world.old.world)) }
{
    let copy = Items::from_slice(alloc, bytes)?;
    world.note(Happened::Deliver(copy))?;
    Ok(nothing(alloc))
}
