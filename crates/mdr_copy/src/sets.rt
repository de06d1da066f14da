// Sets of cells.

ghost use Rattle.std.specs.Prelude.{◌≡◌, ◌++◌, OnOk, IfOk};
ghost use Rattle.mdr_model.specs.Sets.{cells_of_run, cells_of_runs};

use mdr_core::{Items, Limit, OutOfMemory, within};
use mdr_model::{Cell, SetRun};
use std::alloc::Global;

/// Adds the cells of a run. One that goes over the last index that a cell can have fails.
pub(crate) fn put_run(out: &mut Vec<Cell>, run: SetRun) -> Result<(), OutOfMemory>
    ensures { OnOk result (out.new.items ≡ out.old.items ++ cells_of_run run) }
{
    for i in 0..run.len {
        within(run.first as u64 + i as u64, Limit::Cells)?;
        out.push(Cell {
            serial: run.serial,
            index: run.first + i,
        })?;
    }
    Ok(())
}

#[tactic(auto, unfolding(mdr_model::specs::Sets::cells_of_runs))]
fn put_runs(out: &mut Vec<Cell>, runs: &[SetRun]) -> Result<(), OutOfMemory>
    ensures { OnOk result (out.new.items ≡ out.old.items ++ cells_of_runs runs.now) }
{
    for run in runs {
        put_run(out, *run)?;
    }
    Ok(())
}

/// The cells that runs name. It fails where the memory for them is missing, or a run goes over the last index
/// that a cell can have, as none does that lies in a block.
pub fn cells_of_runs(alloc: Global, runs: &[SetRun]) -> Result<Items<Cell>, OutOfMemory>
    ensures { IfOk result (λ cells. cells ≡ cells_of_runs runs.now) }
{
    let mut cells = Vec::new(alloc);
    put_runs(&mut cells, runs)?;
    Ok(Items::from_vec(cells))
}
