//! Expressions, read.
#![tactic(auto)]

mod arguments;
pub mod forms;
pub mod operands;
pub mod operators;
mod parts;
mod postfix;
mod tails;
mod words;
