//! Sets of cells, in which a cell is looked up in logarithmic time.
#![tactic(auto)]

mod name;
mod set;

pub use name::CellName;
pub use set::CellSet;
