// The cells that user code may touch.

ghost use Rattle.std.specs.Prelude.{◌≡◌, ◌<◌, ◌++◌, ◌∷◌, List, IfOk, OnErr, OnOk};
ghost use Rattle.mdr_cells.specs.Names.{cell_of, named};
ghost use Rattle.mdr_core.specs.declared.memory_error.Limit.TheVariants as limit;
ghost use Rattle.mdr_core.specs.Limits.{most};
ghost use Rattle.mdr_model.specs.Memory.{is_live};
ghost use Rattle.mdr_model.specs.declared.memory.Cell.{Cell};
ghost use Rattle.mdr_watched.specs.Views.{living};

use mdr_cells::{CellName, CellSet};
use mdr_copy::CellList;
use mdr_core::{Items, Limit, OutOfMemory, within};
use mdr_model::Cell;
use mdr_world::World;
use std::alloc::Global;

/// Whether a block lives.
#[tactic(auto, unfolding(mdr_model::specs::Memory::is_live))]
fn lives(world: &World, serial: u64) -> bool
    ensures { result ≡ is_live world.now.world.memory serial }
{
    world.born_at(serial).is_some()
}

/// The cell with a name. One behind more cells than can be counted answers want of memory.
fn cell_named(name: CellName) -> Result<Cell, OutOfMemory>
    ensures named { IfOk result (λ c. c ≡ cell_of name) }
    ensures large { OnErr result (most limit.Cells < name.index) }
{
    within(name.index, Limit::Cells)?;
    Ok(Cell {
        serial: name.serial,
        index: name.index as u32,
    })
}

/// Adds a cell.
fn push_cell(view: &mut Items<Cell>, name: CellName) -> Result<(), OutOfMemory>
    ensures { OnOk result ((rest : List Cell) → view.new ++ rest ≡ view.old ++ (cell_of name ∷ rest)) }
{
    let cell = cell_named(name)?;
    view.push(cell)?;
    Ok(())
}

/// Adds a cell whose block lives.
fn push_living(world: &World, view: &mut Items<Cell>, name: CellName) -> Result<(), OutOfMemory>
    ensures { OnOk result ((rest : List Cell) → view.new ++ living world.now.world.memory rest ≡ view.old ++ living world.now.world.memory (cell_of name ∷ rest)) }
{
    if !lives(world, name.serial) {
        return Ok(());
    }
    push_cell(view, name)
}

fn living_cells(
    alloc: Global,
    world: &World,
    names: &[CellName],
) -> Result<Items<Cell>, OutOfMemory>
    ensures { IfOk result (λ cs. cs ≡ living world.now.world.memory (named names.now)) }
{
    let mut view = Items::new(alloc);
    for name in names {
        push_living(world, &mut view, *name)?;
    }
    Ok(view)
}

/// The cells of a set whose blocks live, in their order.
pub fn visible_cells(alloc: Global, world: &World, set: &CellSet) -> Result<CellList, OutOfMemory>
    ensures { IfOk result (λ cs. cs ≡ living world.now.world.memory set.now) }
{
    let names = set.names();
    let view = living_cells(alloc, world, names)?;
    Ok(CellList::of(view))
}
