//! The kernel half's memory as messages see it: the blocks of a run's memory, the cells that user code may touch, values by
//! their wires, and what a legal reply stores and spends while an upcall is open.
#![tactic(auto)]

mod blocks;
mod cells;
mod counting;
mod moments;
mod replies;
mod stores;
mod values;

pub use blocks::snapshot;
pub use cells::visible_cells;
pub use counting::{Counts, counts_of};
pub use moments::{Moment, moment_of};
pub use replies::{apply, spend, store_runs};
pub use values::{value_of, values_of, wires_of};
