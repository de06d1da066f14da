// Cells as runs: what changed, as messages tell it.

ghost use Rattle.std.specs.Prelude.{◌≡◌, ◌∷◌, [], ◌++◌, reverse, OnOk, IfOk};
ghost use Rattle.mdr_model.specs.Sets.{begins_behind, joined, runs_of_cells};

use mdr_core::{Items, Limit, OutOfMemory, below};
use mdr_model::{Cell, SetRun};
use std::alloc::Global;

fn begins_behind(cell: Cell, run: SetRun) -> bool
    ensures { result ≡ begins_behind cell run }
{
    run.serial == cell.serial && run.first as u64 == cell.index as u64 + 1
}

fn put(out: &mut Vec<SetRun>, cell: Cell, len: u32) -> Result<(), OutOfMemory>
    ensures { OnOk result (out.new.items ≡ out.old.items ++ record { serial = cell.serial; first = cell.index; len = len } ∷ []) }
{
    out.push(SetRun {
        serial: cell.serial,
        first: cell.index,
        len,
    })?;
    Ok(())
}

/// Puts a cell before the first of the runs, which stands last. A run that is too long for its count fails.
fn put_before(out: &mut Vec<SetRun>, cell: Cell, next: SetRun) -> Result<(), OutOfMemory>
    ensures { OnOk result (reverse out.new.items ≡ joined cell (next ∷ reverse out.old.items)) }
{
    if begins_behind(cell, next) {
        below(next.len as u64, Limit::Cells)?;
        put(out, cell, next.len + 1)
    } else {
        out.push(next)?;
        put(out, cell, 1)
    }
}

fn join(out: &mut Vec<SetRun>, cell: Cell) -> Result<(), OutOfMemory>
    ensures { OnOk result (reverse out.new.items ≡ joined cell (reverse out.old.items)) }
{
    match out.pop() {
        Some(next) => put_before(out, cell, next),
        None => put(out, cell, 1),
    }
}

/// The runs, the last first.
#[tactic(auto, using(crate::proofs::Joined::runs_of_none, crate::proofs::Joined::runs_before))]
fn backwards(alloc: Global, cells: &[Cell]) -> Result<Vec<SetRun>, OutOfMemory>
    ensures { IfOk result (λ runs. reverse runs.items ≡ runs_of_cells cells.now) }
{
    let mut runs = Vec::new(alloc);
    let mut i = cells.len();
    while i > 0 {
        i -= 1;
        join(&mut runs, cells[i])?;
    }
    Ok(runs)
}

/// A rising list of cells as runs, each as long as can be.
pub fn runs_of_cells(alloc: Global, cells: &[Cell]) -> Result<Items<SetRun>, OutOfMemory>
    ensures { IfOk result (λ runs. runs ≡ runs_of_cells cells.now) }
{
    let mut runs = backwards(alloc, cells)?;
    runs.reverse();
    Ok(Items::from_vec(runs))
}
