//! The kernel half of a driver in two halves, in the whole language: the run of a script over any far side.
//!
//! What a run comes to over the answers that the far side gave is said by `mdr_exchanges`.
#![tactic(auto)]

mod half;
mod run;
mod send;
mod turn;
mod whole;

pub use half::KernelHalf;
