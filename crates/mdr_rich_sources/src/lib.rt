//! What a source's bodies mean, directly: the tree of the observable steps of each, as mdr_meaning has it for a program,
//! with `do` and `switch`, and with the ticks that calls, `++`, `--`, `?:`, `&&` and `||` take inside expressions.
//! Definitions and laws alone: nothing here runs.
//!
//! Proved of every body that has its types: its tree is that of its lowered body. So the program of each source means
//! what was written: each of its bodies is the lowered one of a body with its types, and the watched run of the program
//! is that by the bodies as they were written.
#![tactic(auto)]

mod laws;
mod lowering_laws;
mod worked;

pub use laws::{runs_mean_what_is_written, sources_are_lowered, sources_mean_what_is_written};
pub use lowering_laws::lowering_keeps_trees;
pub use worked::{functions_are_right, parts_are_taken, turns_and_clauses, values_are_right};
