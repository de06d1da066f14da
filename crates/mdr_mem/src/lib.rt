//! The memory of running code: the trait that code loads and stores through, and the plain memory.
#![tactic(auto)]

mod blocks;
mod cells;
mod laws;
mod rows;
mod search;

pub use blocks::Blocks;
pub use cells::{Cells, Life};
pub use laws::values_stand;
pub use search::{forget, place_of};
