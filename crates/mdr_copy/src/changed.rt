// What changed against the agreed copy.

ghost use Rattle.std.specs.Prelude.{◌≡◌, map, IfOk};
ghost use Rattle.mdr_model.specs.Sets.{cells_of_run};
ghost use Rattle.mdr_model.specs.Copies.{held, run_from, changed_cells, changed_values, changes};

use crate::runs::runs_of_cells;
use crate::sets::put_run;
use crate::store::{RisingBlocks, held};
use crate::values::is_same;
use mdr_core::{Items, OutOfMemory};
use mdr_model::{Cell, Run, SetRun, Wire};
use std::alloc::Global;

/// The cells whose value differs from the agreed one.
#[tactic(auto, unfolding(mdr_model::specs::Copies::changed_cells))]
fn changed_cells(
    alloc: Global,
    cells: &[Cell],
    agreed: &RisingBlocks,
    now: &RisingBlocks,
) -> Result<Vec<Cell>, OutOfMemory>
    ensures { IfOk result (λ changed. changed.items ≡ changed_cells cells.now agreed.now now.now) }
{
    let mut changed = Vec::new(alloc);
    for cell in cells {
        if !is_same(held(agreed, *cell), held(now, *cell)) {
            changed.push(*cell)?;
        }
    }
    Ok(changed)
}

fn all_held(
    alloc: Global,
    memory: &RisingBlocks,
    cells: &[Cell],
) -> Result<Items<Wire>, OutOfMemory>
    ensures { IfOk result (λ values. values ≡ map (held memory.now) cells.now) }
{
    let mut values = Vec::new(alloc);
    for cell in cells {
        values.push(held(memory, *cell))?;
    }
    Ok(Items::from_vec(values))
}

/// The values of the cells that changed.
#[tactic(auto, unfolding(mdr_model::specs::Copies::changed_values))]
pub(crate) fn changed_values(
    alloc: Global,
    cells: &[Cell],
    agreed: &RisingBlocks,
    now: &RisingBlocks,
) -> Result<Items<Wire>, OutOfMemory>
    ensures { IfOk result (λ values. values ≡ changed_values cells.now agreed.now now.now) }
{
    let changed = changed_cells(alloc, cells, agreed, now)?;
    all_held(alloc, now, changed.as_slice())
}

/// What the cells of a run hold. A run that goes over the last index that a cell can have fails.
fn values_of(alloc: Global, memory: &RisingBlocks, run: SetRun) -> Result<Items<Wire>, OutOfMemory>
    ensures { IfOk result (λ values. values ≡ map (held memory.now) (cells_of_run run)) }
{
    let mut cells = Vec::new(alloc);
    put_run(&mut cells, run)?;
    all_held(alloc, memory, cells.as_slice())
}

fn run_from(alloc: Global, memory: &RisingBlocks, run: SetRun) -> Result<Run, OutOfMemory>
    ensures { IfOk result (λ told. told ≡ run_from memory.now run) }
{
    Ok(Run {
        serial: run.serial,
        first: run.first,
        values: values_of(alloc, memory, run)?,
    })
}

fn runs_from(
    alloc: Global,
    memory: &RisingBlocks,
    runs: &[SetRun],
) -> Result<Items<Run>, OutOfMemory>
    ensures { IfOk result (λ told. told ≡ map (run_from memory.now) runs.now) }
{
    let mut told = Vec::new(alloc);
    for run in runs {
        told.push(run_from(alloc, memory, *run)?)?;
    }
    Ok(Items::from_vec(told))
}

/// The cells of a rising list whose value differs from the agreed one, with what they hold now, in as few runs
/// as can be. It fails only where the memory for them is missing.
#[tactic(auto, unfolding(mdr_model::specs::Copies::changes))]
pub fn changes(
    alloc: Global,
    cells: &[Cell],
    agreed: &RisingBlocks,
    now: &RisingBlocks,
) -> Result<Items<Run>, OutOfMemory>
    ensures { IfOk result (λ runs. runs ≡ changes cells.now agreed.now now.now) }
{
    let changed = changed_cells(alloc, cells, agreed, now)?;
    let runs = runs_of_cells(alloc, changed.as_slice())?;
    runs_from(alloc, now, runs.as_slice())
}
