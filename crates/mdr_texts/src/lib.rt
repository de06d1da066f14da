//! What the texts that are written and those that are read have to do with each other.
#![tactic(auto)]

mod laws;

pub use laws::{
    a_text_that_is_read_is_its_plans, halves_that_are_read_are_joined, printed_halves_are_sources,
    the_text_of_a_plan_is_read_as_the_plan,
};
