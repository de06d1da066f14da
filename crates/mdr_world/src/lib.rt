//! The state of a run on one memory: memory, device and clock, events, and what services and commands change, as one
//! struct, on which a machine runs code.
#![tactic(auto)]

mod access;
mod births;
mod globals;
mod handles;
mod laws;
mod locks;
mod memory;
mod reach;
mod spinning;
mod storage;
mod world;

pub use laws::drivers_walk;
pub use world::World;
