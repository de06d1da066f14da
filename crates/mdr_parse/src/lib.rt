//! The tree of a source's tokens.
#![tactic(auto)]

mod error;
mod faults;
mod functions;
mod heads;
mod named;
mod outside;
mod parsing;
mod structs;
mod toplevel;

pub use error::ParseError;
pub use parsing::parse;
