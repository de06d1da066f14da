//! The program of a user half's text with a plan, or the first fault in it.
#![tactic(auto)]

mod fitting;
mod functions;
mod keys;
mod laws;
mod tables;
mod whole;

pub use laws::plans_suit_their_halves;
pub use whole::check_half;
