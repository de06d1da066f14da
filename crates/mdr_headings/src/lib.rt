//! The rules of structs, annotations and the headings of functions, and what a rule of bodies is.
#![tactic(auto)]

mod annotation;
mod body;
mod function;
mod head;
mod inner;
mod names;
mod source;
mod structs;

pub use annotation::{annotated, candidate, is_character};
pub use body::{Bodies, Body};
pub use function::{Declared, function_declared, function_named, is_defined};
pub use head::{Given, Heading, checked_heading, head_result};
pub use inner::{bare, beside, candidates, within};
pub use names::{
    all_good_names, as_well, first_of, good_list, good_names, good_params, short_name,
};
pub use source::{behind_struct, defines_of, is_next, is_numbered, signature, tags_of};
pub use structs::{declared_name, is_struct, struct_entry, struct_fields};
