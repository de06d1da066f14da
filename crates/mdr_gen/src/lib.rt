//! Inputs that a seed makes: one driver, which keeps a list of nodes, and a script of calls of its functions. And the
//! text that is printed of their run.
#![tactic(auto)]

mod answer;
mod driver;
mod generator;
mod put;
mod script;

pub use answer::{Counts, answer_text};
pub use generator::generate;
