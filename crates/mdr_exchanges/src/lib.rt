//! What a split run over a far side comes to after exchanges with it, whatever it answers: which messages were sent, where the
//! run stands, and what it leaves where the far side or want of memory ends it. Laws alone: nothing here runs.
#![tactic(auto)]

mod laws;

pub use laws::{ended_runs_are_as_before, exchanges_are_few, honest_runs_are_meant};
