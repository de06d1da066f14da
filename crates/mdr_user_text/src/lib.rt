//! The user half knows its own text alone: its replies are the same with a program that has the other half's headings and
//! not its bodies. Laws alone: nothing here runs.
#![tactic(auto)]

mod laws;

pub use laws::replies_need_the_user_text;
