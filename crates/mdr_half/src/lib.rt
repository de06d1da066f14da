//! The two halves and the plan as texts, and back.
#![tactic(auto)]

mod calls;
mod halves;
mod join_error;
mod joining;
mod laws;
mod plan_lines;
mod put;

pub use calls::calls_text;
pub use halves::{kernel_text, user_text};
pub use join_error::JoinError;
pub use joining::join;
pub use laws::{a_counters_plan_is_written, halves_join_to_their_tree, joined_trees_are_halves};
pub use plan_lines::plan_text;
