//! A memory in one pool of cells. A block is born in the first hole that fits, else at the top; a death leaves a hole,
//! and holes that touch are one.
//!
//! `Region` promises room: it is for a side of a run that takes a message whole or not at all. `RegionBlocks` is the same
//! memory under the contract of the plain memory, to stand where `Blocks` stands.
#![tactic(auto)]

mod holes;
mod laws;
mod places;
mod pool;
mod region;
mod region_blocks;
mod rows;
mod slots;

pub use laws::{
    births_take_holes, blocks_stay, cells_stay, deaths_leave_holes, holes_are_few, none_overlap,
    stale_deaths,
};
pub use region::Region;
pub use region_blocks::RegionBlocks;
