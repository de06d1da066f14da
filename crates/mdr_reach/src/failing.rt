// Which pointer fails.

use mdr_cells::CellName;

/// A pointer that can't be followed as far as its annotation asks: one that is passed, by its number among the roots, or
/// the one in a cell.
#[derive(Clone, Copy)]
pub enum Failing {
    Argument(usize),
    At(CellName),
}
