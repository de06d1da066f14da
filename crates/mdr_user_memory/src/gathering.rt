// What code changed, as its reply tells it.

ghost use Rattle.std.specs.Prelude.{◌≡◌, map, not, option_map, unwrap_or, IfOk};
ghost use Rattle.mdr_meaning.specs.declared.wire.Wire.TheVariants as wire;
ghost use Rattle.mdr_meaning.specs.Values.{wire_of};
ghost use Rattle.mdr_model.specs.Copies.{changed_cells, changes, held, run_from};
ghost use Rattle.mdr_model.specs.Copies as copies;
ghost use Rattle.mdr_model.specs.Sets.{cells_of_run};

use crate::seen_memory::SeenMemory;
use crate::spot::Spot;
use mdr_copy::{cells_of_runs, held, is_same, runs_of_cells, wire_of};
use mdr_core::{Items, OutOfMemory, Value};
use mdr_model::{Cell, Run, SetRun, Wire};
use std::alloc::Global;

fn wire_in(held: Option<Value>) -> Wire
    ensures { result ≡ unwrap_or (option_map wire_of held) wire.NoValue }
{
    match held {
        Some(value) => wire_of(value),
        None => Wire::NoValue,
    }
}

/// What a cell holds, or no value where its block isn't live or hasn't the cell.
#[tactic(auto, unfolding(mdr_model::specs::Copies::held))]
fn held_now(memory: &SeenMemory, cell: Cell) -> Wire
    ensures { result ≡ held memory.now.memory cell }
{
    wire_in(memory.held(Spot {
        serial: cell.serial,
        index: cell.index as usize,
    }))
}

fn has_changed(memory: &SeenMemory, cell: Cell) -> bool
    ensures { result ≡ copies.has_changed memory.now.agreed memory.now.memory cell }
{
    !is_same(held(memory.agreed(), cell), held_now(memory, cell))
}

/// The cells whose value differs from the agreed one.
#[tactic(auto, unfolding(mdr_model::specs::Copies::changed_cells))]
fn changed_cells(
    alloc: Global,
    cells: &[Cell],
    memory: &SeenMemory,
) -> Result<Vec<Cell>, OutOfMemory>
    ensures { IfOk result (λ changed. changed.items ≡ changed_cells cells.now memory.now.agreed memory.now.memory) }
{
    let mut changed = Vec::new(alloc);
    for cell in cells {
        if has_changed(memory, *cell) {
            changed.push(*cell)?;
        }
    }
    Ok(changed)
}

fn all_held(alloc: Global, memory: &SeenMemory, cells: &[Cell]) -> Result<Items<Wire>, OutOfMemory>
    ensures { IfOk result (λ values. values ≡ map (held memory.now.memory) cells.now) }
{
    let mut values = Items::new(alloc);
    for cell in cells {
        values.push(held_now(memory, *cell))?;
    }
    Ok(values)
}

fn cells_of_run(alloc: Global, run: SetRun) -> Result<Items<Cell>, OutOfMemory>
    ensures { IfOk result (λ cells. cells ≡ cells_of_run run) }
{
    let cells = cells_of_runs(alloc, &[run])?;
    Ok(cells)
}

fn run_from(alloc: Global, memory: &SeenMemory, run: SetRun) -> Result<Run, OutOfMemory>
    ensures { IfOk result (λ told. told ≡ run_from memory.now.memory run) }
{
    let cells = cells_of_run(alloc, run)?;
    Ok(Run {
        serial: run.serial,
        first: run.first,
        values: all_held(alloc, memory, cells.as_slice())?,
    })
}

fn runs_from(alloc: Global, memory: &SeenMemory, runs: &[SetRun]) -> Result<Items<Run>, OutOfMemory>
    ensures { IfOk result (λ told. told ≡ map (run_from memory.now.memory) runs.now) }
{
    let mut told = Items::new(alloc);
    for run in runs {
        told.push(run_from(alloc, memory, *run)?)?;
    }
    Ok(told)
}

/// The cells that may be touched whose value differs from the agreed one, with what they hold now, in as few runs as can
/// be. It fails only where the memory for them is missing.
#[tactic(auto, unfolding(mdr_model::specs::Copies::changes))]
pub fn gather(alloc: Global, memory: &SeenMemory) -> Result<Items<Run>, OutOfMemory>
    ensures { IfOk result (λ runs. runs ≡ changes memory.now.view memory.now.agreed memory.now.memory) }
{
    let changed = changed_cells(alloc, memory.cells(), memory)?;
    let runs = runs_of_cells(alloc, changed.as_slice())?;
    runs_from(alloc, memory, runs.as_slice())
}
