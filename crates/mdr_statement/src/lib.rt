//! Statements with their bodies, read.
#![tactic(auto)]

pub mod blocks;
mod branches;
mod iteration;
mod statements;
mod switches;
