//! The program of a source, or the first fault in it.
#![tactic(auto)]

mod laws;
mod occurring;
mod parts;
mod program;
mod values;
mod whole;

pub use laws::{type_tables_are_in_order, type_tables_have_first_numbers, types_of_tables_occur};
pub use occurring::occurring_types;
pub use parts::{Parts, parts_of};
pub use program::{made, with_types};
pub use whole::check;
