//! Statements with no statement inside, and what those that have one begin with, read.
#![tactic(auto)]

pub mod conditions;
pub mod labels;
pub mod leaving;
pub mod locals;
pub mod nodes;
pub mod parts;
mod simple;
