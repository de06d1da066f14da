// What is wrong with runs of values that a message tells.

ghost use Rattle.std.specs.Prelude.{◌≡◌, Some, None, option_map};
ghost use Rattle.std.specs.List.{list_all};
ghost use Rattle.mdr_copy.specs.Extents.{set_run};
ghost use Rattle.mdr_core.specs.Sound.{IsSound};
ghost use Rattle.mdr_fits.specs.Judged.{all_fit, places_of};
ghost use Rattle.mdr_model.specs.Copies.{numbered};
ghost use Rattle.mdr_model.specs.Faults.{is_known};
ghost use Rattle.mdr_model.specs.Sets.{is_in};
ghost use Rattle.mdr_split.specs.Fits.{is_view};
ghost use Rattle.mdr_split.specs.Legal.{fits_block, fits_cell, run_fault, runs_fault};

use crate::arguments::fault;
use crate::places::Places;
use crate::values::fits;
use crate::views::is_view;
use mdr_copy::{
    CellList, Extent, RisingBlocks, born_at, cell_type, extent_of, follows_maybe, is_live,
};
use mdr_core::{Program, RefuseKind};
use mdr_model::{Fault, New, Run, Wire};

/// Whether cells that follow one another lie in a set.
fn lies_in(view: &CellList, serial: u64, first: u32, values: &[Wire]) -> bool
    ensures { result ≡ list_all (λ x. is_in view.now x.cell) (numbered serial first values.now) }
{
    for (i, _) in values.iter().enumerate() {
        if !view.has(serial, first as usize + i) {
            return false;
        }
    }
    true
}

fn is_known(paired: &RisingBlocks, value: Wire) -> bool
    ensures { result ≡ is_known paired.now value }
{
    match value {
        Wire::Ptr(view) => is_live(paired, view.serial),
        Wire::Int(_, _) | Wire::Null | Wire::Dead | Wire::Fn(_) | Wire::Lock(_) | Wire::NoValue =>
            true,
    }
}

fn are_known(paired: &RisingBlocks, values: &[Wire]) -> bool
    ensures { result ≡ list_all (is_known paired.now) values.now }
{
    values.iter().all(|v| is_known(paired, *v))
}

fn are_views(program: &Program, memory: &RisingBlocks, values: &[Wire]) -> bool
    requires { IsSound program.now }
    ensures { result ≡ list_all (is_view program.now memory.now) values.now }
{
    values.iter().all(|v| is_view(program, memory, *v))
}

/// Whether a block has a cell at an index, and a value fits it.
fn fits_in(places: Places, block: New, index: u64, value: Wire) -> bool
    requires { IsSound places.program.now }
    ensures { result ≡ fits_block (places_of places.entry) (Some block) index value }
{
    match cell_type(places.program, block, index) {
        Some(ty) => fits(places, ty, value),
        None => false,
    }
}

fn fits_block(places: Places, block: Option<New>, index: u64, value: Wire) -> bool
    requires { IsSound places.program.now }
    ensures { result ≡ fits_block (places_of places.entry) block index value }
{
    match block {
        Some(block) => fits_in(places, block, index, value),
        None => false,
    }
}

/// Whether values fit the cells of a block that follow one another.
fn fit_row(places: Places, block: Option<New>, first: u32, values: &[Wire]) -> bool
    requires { IsSound places.program.now }
    ensures { result ≡ all_fit (places_of places.entry) block first values.now }
{
    for (i, value) in values.iter().enumerate() {
        if !fits_block(places, block, first as u64 + i as u64, *value) {
            return false;
        }
    }
    true
}

/// Whether the values of a run fit their cells.
#[tactic(auto, using(crate::proofs::RowTests::cells_of_a_block))]
fn fit_cells(places: Places, run: &Run) -> bool
    requires { IsSound places.program.now }
    ensures { result ≡ list_all (fits_cell (places_of places.entry)) (numbered run.now.serial run.now.first run.now.values) }
{
    fit_row(
        places,
        born_at(places.memory, run.serial),
        run.first,
        run.values.as_slice(),
    )
}

/// The first fault of one run, where it stands behind another.
#[tactic(auto, unfolding(mdr_split::specs::Legal::run_fault))]
fn run_fault(
    places: Places,
    view: &CellList,
    before: Option<Extent>,
    number: u64,
    run: &Run,
) -> Option<Fault>
    requires { IsSound places.program.now }
    ensures { result ≡ run_fault (places_of places.entry) view.now (option_map set_run before) number run.now }
{
    let values = run.values.as_slice();
    if !follows_maybe(before, extent_of(run)) {
        fault(RefuseKind::RunOrder, number)
    } else if !lies_in(view, run.serial, run.first, values) {
        fault(RefuseKind::OutsideSet, number)
    } else if !are_known(places.paired, values) {
        fault(RefuseKind::UnknownSerial, number)
    } else if !are_views(places.program, places.memory, values) {
        fault(RefuseKind::BadView, number)
    } else if !fit_cells(places, run) {
        fault(RefuseKind::BadValue, number)
    } else {
        None
    }
}

/// The first fault of the runs of a message: they rise without overlap, lie in the visible cells, their pointers are views
/// of known blocks, and their values fit the cells.
pub fn runs_fault(places: Places, view: &CellList, runs: &[Run]) -> Option<Fault>
    requires { IsSound places.program.now }
    ensures { result ≡ runs_fault (places_of places.entry) view.now None 0 runs.now }
{
    let mut before = None;
    for (number, run) in runs.iter().enumerate() {
        let found = run_fault(places, view, before, number as u64, run);
        if found.is_some() {
            return found;
        }
        before = Some(extent_of(run));
    }
    None
}
