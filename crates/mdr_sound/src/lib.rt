//! The program of each source in which no fault is found is sound: laws alone, nothing here runs.
//!
//! Proved, from the smallest part up: what the rules of expressions, assignments and calls make keeps to the rules of
//! sound programs; so does what the rule of bodies makes, where the rules of what stands in statements do, as those of
//! the profile do; so do a file's declarations, and so does the whole program.
#![tactic(auto)]

mod body_laws;
mod declaration_laws;
mod expression_laws;
mod file_laws;
mod global_laws;
mod laws;
mod source_laws;
mod typing_laws;

pub use body_laws::{allocations_are_formed, bodies_are_sound};
pub use declaration_laws::{
    annotations_are_sound, declarators_have_types, headings_are_sound, headings_have_signatures,
    objects_are_sound, structs_are_known, structs_are_sound, tables_are_sound,
};
pub use expression_laws::{
    assignments_are_known, calls_are_known, expressions_are_known, steps_are_known,
};
pub use file_laws::{files_are_sound, types_of_files_are_formed};
pub use global_laws::globals_are_sound;
pub use laws::{sources_are_sound, sources_have_ordered_tables};
pub use source_laws::{read_sources_are_proper, sources_are_proper};
pub use typing_laws::profile_rules_are_sound;
