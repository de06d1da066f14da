//! What a driver does in two halves that pass messages: the kernel half as a machine over answers, the user half's reply to
//! the messages so far, and the law that an honest pair does what the driver does on one memory while it is watched.
//! Definitions, worked examples and laws alone: nothing here runs.
#![tactic(auto)]

mod laws;
mod worked;

pub use laws::{
    refused_answers_change_nothing, refused_messages_change_nothing, replies_take_any_fuel,
};
pub use worked::messages_are_passed;
