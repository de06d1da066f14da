// `kfree`.

ghost use Rattle.std.specs.Prelude.{◌≡◌};
ghost use Rattle.mdr_core.specs.declared.place.At.{At as Place};
ghost use Rattle.mdr_core.specs.Sound.{IsSound};
ghost use Rattle.mdr_meaning.specs.declared.wire.Wire.TheVariants as wire;
ghost use Rattle.mdr_meaning.specs.Values.{wire_of, wire_view};
ghost use Rattle.mdr_model.specs.Memory.{born_at};
ghost use Rattle.mdr_plain.specs.Locks.{is_locked};
ghost use Rattle.mdr_plain.specs.Services.{freed, freed_by, is_heap, is_whole};
ghost use Rattle.mdr_services.specs.Serving.{served_as};

use crate::answer::{Served, nothing};
use crate::sizes::is_at_first;
use mdr_core::{Program, StopKind, Value, View};
use mdr_model::{BirthKind, New};
use mdr_world::World;
use std::alloc::Global;

fn is_heap(kind: BirthKind) -> bool
    ensures { result ≡ is_heap kind }
{
    match kind {
        BirthKind::Static => false,
        BirthKind::Heap => true,
        BirthKind::Auto => false,
    }
}

/// Whether a pointer is at the first cell of a live block that was allocated.
fn is_whole(program: &Program, view: View, born: Option<New>) -> bool
    requires { IsSound program.now }
    ensures { result ≡ is_whole program.now (wire_view view) born }
{
    match born {
        Some(new) => is_heap(new.kind) && is_at_first(program, view),
        None => false,
    }
}

/// What a pointer to an allocated block names dies, where no lock in it is held.
fn free_block(alloc: Global, world: &mut World, serial: u64, is_whole: bool) -> Served
    ensures kept { world.new.program ≡ world.old.program }
    ensures served { (at : Place) → served_as result at world.new.world ≡ freed_by is_whole (is_locked serial world.old.world.memory) serial at world.old.world }
{
    if !is_whole {
        return Served::Stop(StopKind::BadCall);
    }
    if world.is_locked(serial) {
        return Served::Stop(StopKind::LockHeld);
    }
    world.end(serial);
    nothing(alloc)
}

fn free_view(alloc: Global, world: &mut World, view: View) -> Served
    ensures kept { world.new.program ≡ world.old.program }
    ensures served { (at : Place) → served_as result at world.new.world ≡ freed world.old.program at (wire.Ptr (wire_view view)) world.old.world }
{
    let serial = view.block.serial;
    let is_whole = is_whole(world.program(), view, world.born_at(serial));
    free_block(alloc, world, serial, is_whole)
}

/// Frees what a pointer names; a null pointer names nothing.
pub(crate) fn free(alloc: Global, world: &mut World, pointer: Value) -> Served
    ensures kept { world.new.program ≡ world.old.program }
    ensures served { (at : Place) → served_as result at world.new.world ≡ freed world.old.program at (wire_of pointer) world.old.world }
{
    match pointer {
        Value::Null => nothing(alloc),
        Value::Ptr(view) => free_view(alloc, world, view),
        Value::Int(_, _) => Served::Stop(StopKind::BadCall),
        Value::Dead => Served::Stop(StopKind::BadCall),
        Value::Fn(_) => Served::Stop(StopKind::BadCall),
        Value::Lock(_) => Served::Stop(StopKind::BadCall),
        Value::NoValue => Served::Stop(StopKind::BadCall),
    }
}
