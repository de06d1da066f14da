//! The law of split runs: a run in two halves that pass messages, with an honest far side, is the watched run on one memory.
//! Laws alone: nothing here runs.
#![tactic(auto)]

mod laws;

pub use laws::split_is_one_memory;
