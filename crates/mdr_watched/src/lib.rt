//! What a driver does on one memory while its user half is held to the cells that annotations let it touch, and while
//! interrupts wait for the end of each upcall. Definitions, worked examples and laws alone: nothing here runs.
#![tactic(auto)]

mod laws;
mod worked;

pub use laws::{
    accesses_are_held, interrupts_wait, kept_runs_agree, keys_are_touched, order_is_kept,
    the_dead_leave, upcalls_close,
};
pub use worked::{extents_are_measured, interrupts_are_held, sets_are_followed};
