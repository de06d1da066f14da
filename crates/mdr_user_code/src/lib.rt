//! The user half of a driver that runs: its code over its copy of memory, from one message to its reply.
#![tactic(auto)]

mod delivery;
mod first;
mod grown;
mod keys;
mod objects;
mod opening;
mod ready;
mod release;
mod replying;
mod running;
mod scene;
mod shown;
mod sight;
mod state;
mod tidings;
mod values;

pub use delivery::{begins, delivered};
pub use state::State;
