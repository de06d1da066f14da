// The objects that are shown.

ghost use Rattle.std.specs.Prelude.{◌≡◌, ◌++◌, ◌∷◌, [], IfOk, OnOk, map};
ghost use Rattle.mdr_plain.specs.Outcome.{objects_at, objects_for, objects_of, seen_of};
ghost use Rattle.mdr_plain.specs.Scripts.{block_cells};
ghost use Rattle.mdr_shown.specs.Met.{AreNumbered};

use crate::met::Met;
use crate::scan::shown;
use crate::seen::seen_cells;
use mdr_core::{Items, OutOfMemory};
use mdr_model::{New, Object};
use mdr_world::World;
use std::alloc::Global;

/// The object that is a live block.
fn object(
    alloc: Global,
    world: &World,
    met: &Met,
    born: New,
    serial: u64,
) -> Result<Object, OutOfMemory>
    requires { AreNumbered met.now }
    ensures { IfOk result (λ o. o ≡ record { ty = born.ty; count = born.count; cells = map (seen_of world.now.program met.now.serials.items) (block_cells world.now.world.memory serial) }) }
{
    let values = world.cells(alloc, serial)?;
    let cells = seen_cells(alloc, world.program(), met, values.as_slice())?;
    Ok(Object {
        ty: born.ty,
        count: born.count,
        cells,
    })
}

/// Adds the object that is the block with this serial, where one lives.
fn push_object(
    alloc: Global,
    objects: &mut Vec<Object>,
    world: &World,
    met: &Met,
    serial: u64,
) -> Result<(), OutOfMemory>
    requires { AreNumbered met.now }
    ensures { OnOk result (objects.new.items ≡ objects.old.items ++ objects_at world.now.program met.now.serials.items world.now.world.memory serial) }
{
    match world.born_at(serial) {
        Some(born) => {
            objects.push(object(alloc, world, met, born, serial)?)?;
            Ok(())
        }
        None => Ok(()),
    }
}

/// The objects that are these blocks.
fn objects_met(alloc: Global, world: &World, met: &Met) -> Result<Items<Object>, OutOfMemory>
    requires { AreNumbered met.now }
    ensures { IfOk result (λ os. os ≡ objects_for world.now.program met.now.serials.items world.now.world.memory met.now.serials.items) }
{
    let mut objects = Vec::new(alloc);
    for serial in met.serials.as_slice() {
        push_object(alloc, &mut objects, world, met, *serial)?;
    }
    Ok(Items::from_vec(objects))
}

/// The objects that are shown of a world.
#[tactic(auto, unfolding(mdr_plain::specs::Outcome::objects_of))]
pub fn all_objects(alloc: Global, world: &World) -> Result<Items<Object>, OutOfMemory>
    ensures { IfOk result (λ os. os ≡ objects_of world.now.program world.now.world.memory) }
{
    let met = shown(alloc, world)?;
    objects_met(alloc, world, &met)
}
