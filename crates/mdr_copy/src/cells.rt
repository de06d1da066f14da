// Cells in the order in which they are told, and which of them there are.

ghost use Rattle.std.specs.Prelude.{◌≡◌, ◌<◌, ◌≤◌, None, true, length};
ghost use Rattle.std.specs.List.{prefix_len};
ghost use Rattle.mdr_copy.specs.CellOrders.{is_before, is_behind, cells_rise};
ghost use Rattle.mdr_model.specs.Sets.{is_in, is_same_cell};
ghost use Rattle.mdr_model.specs.declared.memory.Cell.{Cell as AnyCell};

use mdr_core::Items;
use mdr_model::Cell;
use std::marker::Model;

/// Cells in the order in which they are told, which contracts see as their list. Where they rise, as those do that an
/// honest half tells, a cell is looked up in logarithmic time.
#[derive(Drop)]
pub struct CellList {
    cells: Items<Cell>,
    rise: bool,
}

impl Model for CellList {
    ghost use Rattle.std.specs.Prelude.{◌≡◌, List, None};
    ghost use Rattle.mdr_model.specs.declared.memory.Cell.{Cell};
    ghost use Rattle.mdr_copy.specs.CellOrders.{cells_rise};

    ghost Value = { List Cell };

    ghost view = { λ s. s.cells };

    ghost invariant = { λ s. s.rise ≡ cells_rise None s.cells };
}

/// Whether a cell comes before that of a block at an index.
fn is_before(cell: Cell, serial: u64, index: usize) -> bool
    ensures { result ≡ is_before cell (record { serial = serial; index = index }) }
{
    cell.serial < serial || cell.serial == serial && (cell.index as usize) < index
}

fn is_behind(before: Option<Cell>, cell: Cell) -> bool
    ensures { result ≡ is_behind before cell }
{
    match before {
        None => true,
        Some(before) => is_before(before, cell.serial, cell.index as usize),
    }
}

/// Whether each cell comes behind the one before it.
#[tactic(auto, unfolding(crate::specs::CellOrders::cells_rise))]
fn rise(cells: &[Cell]) -> bool
    ensures { result ≡ cells_rise None cells.now }
{
    let mut before = None;
    for cell in cells {
        if !is_behind(before, *cell) {
            return false;
        }
        before = Some(*cell);
    }
    true
}

fn is_same_cell(cell: &Cell, serial: u64, index: usize) -> bool
    ensures { result ≡ is_same_cell (record { serial = serial; index = index }) cell.now }
{
    serial == cell.serial && index == cell.index as usize
}

/// How many cells come before that of a block at an index.
fn place_for(cells: &[Cell], serial: u64, index: usize) -> usize
    requires { cells_rise None cells.now ≡ true }
    ensures place { result ≡ prefix_len (λ (c : AnyCell). is_before c (record { serial = serial; index = index })) cells.now }
    ensures bound { result ≤ length cells.now }
{
    cells.partition_point(|cell| is_before(*cell, serial, index))
}

/// Whether the cell of a block at an index stands at a place. It is that of the first cell that doesn't come before it.
fn stands_at(cells: &[Cell], place: usize, serial: u64, index: usize) -> bool
    requires rise { cells_rise None cells.now ≡ true }
    requires place { place ≡ prefix_len (λ (c : AnyCell). is_before c (record { serial = serial; index = index })) cells.now }
    requires inside { place < length cells.now }
    ensures { result ≡ is_in cells.now (record { serial = serial; index = index }) }
{
    if is_same_cell(&cells[place], serial, index) {
        true
    } else {
        false
    }
}

fn is_in_order(cells: &[Cell], serial: u64, index: usize) -> bool
    requires { cells_rise None cells.now ≡ true }
    ensures { result ≡ is_in cells.now (record { serial = serial; index = index }) }
{
    let place = place_for(cells, serial, index);
    if place < cells.len() {
        stands_at(cells, place, serial, index)
    } else {
        false
    }
}

/// The same where the cells are in any order.
#[tactic(auto, unfolding(mdr_model::specs::Sets::is_in))]
fn is_somewhere(cells: &[Cell], serial: u64, index: usize) -> bool
    ensures { result ≡ is_in cells.now (record { serial = serial; index = index }) }
{
    cells.iter().any(|c| is_same_cell(c, serial, index))
}

fn is_among(cells: &[Cell], rise: bool, serial: u64, index: usize) -> bool
    requires { rise ≡ cells_rise None cells.now }
    ensures { result ≡ is_in cells.now (record { serial = serial; index = index }) }
{
    if rise {
        is_in_order(cells, serial, index)
    } else {
        is_somewhere(cells, serial, index)
    }
}

impl CellList {
    /// The cells as they are told.
    pub fn of(cells: Items<Cell>) -> CellList
        ensures { result ≡ cells }
    {
        let rise = rise(cells.as_slice());
        CellList { cells, rise }
    }

    /// Lends the cells.
    pub fn as_slice(&self) -> &[Cell]
        ensures { result.now ≡ self.now }
    {
        self.cells.as_slice()
    }

    /// Whether the cell of a block at an index is one of them.
    pub fn has(&self, serial: u64, index: usize) -> bool
        ensures { result ≡ is_in self.now (record { serial = serial; index = index }) }
    {
        is_among(self.cells.as_slice(), self.rise, serial, index)
    }
}
