//! A script that is bound to a program: what a run takes of a script, without the text that it was read from.
#![tactic(auto)]

mod bound;

pub use bound::Bound;
