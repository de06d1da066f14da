//! Which sets of cells a split run may show to its user half, what services make of them, and what user code does with them in
//! both memories. Definitions and laws alone: nothing here runs.
#![tactic(auto)]

mod laws;

pub use laws::{
    accesses_are_shared, answers_grow_sets, deaths_leave_sets, kernel_code_may_follow,
    membership_is_one, runs_are_sets, services_keep_sets, sets_are_copied, sets_are_open,
    visible_may_be_shown,
};
