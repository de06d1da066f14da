// Allocations: `kzalloc`, `kcalloc`.

ghost use Rattle.std.specs.Prelude.{◌≡◌, ◌||◌, ◌∷◌, [], IfOk, OnOk};
ghost use Rattle.mdr_core.specs.declared.place.At.{At as Place};
ghost use Rattle.mdr_core.specs.Layout.{chosen};
ghost use Rattle.mdr_meaning.specs.declared.wire.Wire.TheVariants as wire;
ghost use Rattle.mdr_model.specs.declared.message.BirthKind.TheVariants as kind;
ghost use Rattle.mdr_plain.specs.Services.{allocated, as_served, asked_once_more, fails_now, gives, is_no_block};
ghost use Rattle.mdr_plain.specs.Storage.{births};
ghost use Rattle.mdr_services.specs.Serving.{served_as};

use crate::answer::{Served, one};
use crate::sizes::is_no_block;
use mdr_core::{OutOfMemory, Value};
use mdr_meaning::Shape64;
use mdr_model::BirthKind;
use mdr_world::World;
use std::alloc::Global;

/// Whether an allocation gives no block: the script lets it fail, or it asks for what is none.
fn is_refused(world: &World, shape: Shape64) -> bool
    ensures { result ≡ (fails_now world.now.world || is_no_block world.now.program shape) }
{
    world.fails_now() || is_no_block(world.program(), shape)
}

/// A block is born, and its pointer given.
fn block_born(alloc: Global, world: &mut World, shape: Shape64) -> Result<Served, OutOfMemory>
    ensures kept { OnOk result (world.new.program ≡ world.old.program) }
    ensures served { IfOk result (λ s. (at : Place) → served_as s at world.new.world ≡ as_served (births world.old.program kind.Heap (shape ∷ []) world.old.world)) }
{
    let pointers = world.born(alloc, BirthKind::Heap, &[shape])?;
    Ok(Served::Done(pointers))
}

/// An allocation gives a block, or a null pointer.
fn allocated(alloc: Global, world: &mut World, shape: Shape64) -> Result<Served, OutOfMemory>
    ensures kept { OnOk result (world.new.program ≡ world.old.program) }
    ensures served { IfOk result (λ s. (at : Place) → served_as s at world.new.world ≡ allocated world.old.program (shape ∷ []) world.old.world) }
{
    if is_refused(world, shape) {
        let null = one(alloc, Value::Null)?;
        Ok(null)
    } else {
        let born = block_born(alloc, world, shape)?;
        Ok(born)
    }
}

/// An allocation of what has this shape. It is counted, also where it gives a null pointer.
pub(crate) fn allocate(
    alloc: Global,
    world: &mut World,
    shapes: &[Shape64],
) -> Result<Served, OutOfMemory>
    ensures kept { OnOk result (world.new.program ≡ world.old.program) }
    ensures served { IfOk result (λ s. (at : Place) → served_as s at world.new.world ≡ allocated world.old.program shapes.now (asked_once_more world.old.world)) }
{
    world.ask_once_more()?;
    match shapes.first() {
        Some(shape) => {
            let block = allocated(alloc, world, *shape)?;
            Ok(block)
        }
        None => {
            let null = one(alloc, Value::Null)?;
            Ok(null)
        }
    }
}
