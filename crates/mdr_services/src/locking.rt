// Locks: `combolock`, `combounlock`.

ghost use Rattle.std.specs.Prelude.{◌≡◌};
ghost use Rattle.mdr_core.specs.declared.place.At.{At as Place};
ghost use Rattle.mdr_meaning.specs.Values.{wire_of};
ghost use Rattle.mdr_plain.specs.Locks.{acquire, release};
ghost use Rattle.mdr_plain.specs.Services.{when_changed};
ghost use Rattle.mdr_services.specs.Serving.{served_as};

use crate::answer::{Served, nothing};
use mdr_core::Value;
use mdr_world::World;
use std::alloc::Global;

/// Takes a lock.
pub(crate) fn lock(alloc: Global, world: &mut World, lock: Value) -> Served
    ensures kept { world.new.program ≡ world.old.program }
    ensures served { (at : Place) → served_as result at world.new.world ≡ when_changed (acquire (wire_of lock) world.old.world) at world.old.world }
{
    match world.acquire(lock) {
        Ok(()) => nothing(alloc),
        Err(kind) => Served::Stop(kind),
    }
}

/// Frees a lock.
pub(crate) fn unlock(alloc: Global, world: &mut World, lock: Value) -> Served
    ensures kept { world.new.program ≡ world.old.program }
    ensures served { (at : Place) → served_as result at world.new.world ≡ when_changed (release (wire_of lock) world.old.world) at world.old.world }
{
    match world.release(lock) {
        Ok(()) => nothing(alloc),
        Err(kind) => Served::Stop(kind),
    }
}
