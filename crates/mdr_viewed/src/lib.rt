//! A set of cells beside the world of a run in which an upcall is open: what code does where the set is in the world, as a
//! watched run has it, and where it is kept apart. Definitions and laws alone: nothing here runs.
#![tactic(auto)]

mod laws;

pub use laws::{
    accesses_are_viewed, births_are_viewed, kernel_code_is_viewed, services_are_viewed,
    sets_are_viewed, upcalls_are_viewed, user_code_keeps_ticks,
};
