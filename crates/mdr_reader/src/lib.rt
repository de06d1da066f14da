//! What all readers of sources stand on: single tokens, what may be there, constants and types.
#![tactic(auto)]

pub mod constants;
pub mod failure;
pub mod lists;
pub mod look;
pub mod openings;
mod sorting;
pub mod types;
