//! What holds of a split run wherever any answers lead, those of a broken far side or a hostile one among them.
//! Laws alone: nothing here runs.
#![tactic(auto)]

mod laws;

pub use laws::{legal_answers_are_contained, messages_are_few};
