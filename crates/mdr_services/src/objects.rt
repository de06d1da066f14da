// Objects of locals of the user half.

ghost use Rattle.std.specs.Prelude.{◌≡◌, IfOk, OnOk};
ghost use Rattle.mdr_core.specs.declared.place.At.{At as Place};
ghost use Rattle.mdr_events.specs.Values.{wires_of};
ghost use Rattle.mdr_model.specs.declared.message.BirthKind.TheVariants as kind;
ghost use Rattle.mdr_plain.specs.Services.{as_served, gives_none};
ghost use Rattle.mdr_plain.specs.Storage.{births, deaths};
ghost use Rattle.mdr_services.specs.Serving.{served_as};

use crate::answer::{Served, nothing};
use mdr_core::{OutOfMemory, Value};
use mdr_events::Memory;
use mdr_meaning::Shape64;
use mdr_model::BirthKind;
use mdr_world::World;
use std::alloc::Global;

/// Objects are born, and their pointers given.
pub(crate) fn enter(
    alloc: Global,
    world: &mut World,
    shapes: &[Shape64],
) -> Result<Served, OutOfMemory>
    ensures kept { OnOk result (world.new.program ≡ world.old.program) }
    ensures served { IfOk result (λ s. (at : Place) → served_as s at world.new.world ≡ as_served (births world.old.program kind.Auto shapes.now world.old.world)) }
{
    let pointers = world.born(alloc, BirthKind::Auto, shapes)?;
    Ok(Served::Done(pointers))
}

/// What pointers name dies.
pub(crate) fn leave(alloc: Global, world: &mut World, pointers: &[Value]) -> Served
    ensures kept { world.new.program ≡ world.old.program }
    ensures served { (at : Place) → served_as result at world.new.world ≡ gives_none (deaths (wires_of pointers.now) world.old.world) }
{
    world.death(pointers);
    nothing(alloc)
}
