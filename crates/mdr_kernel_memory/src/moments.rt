// What a message tells of, at one moment of an upcall.

ghost use Rattle.std.specs.Prelude.{◌≡◌, IfOk};
ghost use Rattle.mdr_watched.specs.Views.{top};

use crate::blocks::snapshot;
use crate::cells::visible_cells;
use mdr_copy::{CellList, RisingBlocks};
use mdr_core::OutOfMemory;
use mdr_watch::Guarded;
use std::alloc::Global;

/// The live blocks of a run in which an upcall is open, and the cells that user code may touch.
#[derive(Drop)]
pub struct Moment {
    pub memory: RisingBlocks,
    pub view: CellList,
}

/// The blocks and the cells as they are now.
pub fn moment_of(alloc: Global, guarded: &Guarded) -> Result<Moment, OutOfMemory>
    ensures memory { IfOk result (λ m. m.memory ≡ guarded.now.world.memory) }
    ensures view { IfOk result (λ m. m.view ≡ top guarded.now.world.views) }
{
    let world = guarded.world();
    let set = guarded.set();
    let memory = snapshot(alloc, world)?;
    let view = visible_cells(alloc, world, set)?;
    Ok(Moment { memory, view })
}
