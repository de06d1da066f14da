// The handler of interrupts: `request_irq`, `free_irq`.

ghost use Rattle.std.specs.Prelude.{◌≡◌, IfOk, None, OnOk};
ghost use Rattle.mdr_core.specs.declared.place.At.{At as Place};
ghost use Rattle.mdr_meaning.specs.Values.{wire_of};
ghost use Rattle.mdr_plain.specs.Services.{gives_none, requested, with_handler};
ghost use Rattle.mdr_services.specs.Serving.{served_as};

use crate::answer::{Served, nothing, one};
use crate::arguments::function_named;
use mdr_core::{Kind, OutOfMemory, Value};
use mdr_world::World;
use std::alloc::Global;

/// Registers a function as the handler, where there is none.
pub(crate) fn request(
    alloc: Global,
    world: &mut World,
    function: Value,
) -> Result<Served, OutOfMemory>
    ensures kept { OnOk result (world.new.program ≡ world.old.program) }
    ensures served { IfOk result (λ s. (at : Place) → served_as s at world.new.world ≡ requested world.old.world.kept.handler (wire_of function) world.old.world) }
{
    match world.handler() {
        Some(_) => {
            let busy = one(alloc, Value::Int(Kind::S32, -16))?;
            Ok(busy)
        }
        None => {
            world.set_handler(function_named(function));
            let registered = one(alloc, Value::Int(Kind::S32, 0))?;
            Ok(registered)
        }
    }
}

/// Takes the handler away.
pub(crate) fn release(alloc: Global, world: &mut World) -> Served
    ensures kept { world.new.program ≡ world.old.program }
    ensures served { (at : Place) → served_as result at world.new.world ≡ gives_none (with_handler None world.old.world) }
{
    world.set_handler(None);
    nothing(alloc)
}
