//! Which cells of memory a function of the user half may touch: how far each pointer may be followed, and what pointers
//! lead to. Definitions and laws alone: nothing here runs.
#![tactic(auto)]

mod laws;

pub use laws::{extents_are_inside, searches_are_exact, structs_are_found, visible_is_by_paths};
