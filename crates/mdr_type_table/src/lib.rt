//! The type table of a program has each type that occurs, once, in the order of their texts: laws alone, nothing here
//! runs.
//!
//! Proved: the texts of types tell which type it is, and how a plan's reader reads it; the structs and functions of a
//! file in which no fault is found have names of their own; and so its type table is in order.
#![tactic(auto)]

mod laws;
mod name_laws;
mod text_laws;

pub use laws::{tables_have_each_type, tables_list_what_occurs, types_that_occur_have_numbers};
pub use name_laws::{
    functions_have_names_of_their_own, names_are_those_of_items, structs_have_names_of_their_own,
    tables_of_files_are_in_order,
};
pub use text_laws::{pointer_texts_are_read, texts_tell_types_apart, worked_texts};
