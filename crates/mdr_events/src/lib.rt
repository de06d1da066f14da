//! Running code, seen from outside: the memory that it runs over, the events at which it comes back, and what a run up to
//! an event is.
//!
//! Code is run over any `Memory`, whose methods do what the walk of a tree of `mdr_meaning` does to it. It comes back with
//! an `Event`: it ended, asks for a service, calls a function of the other half, stops, or wants a tick. What it still has
//! to do then is held work, which is plain data in definitions and has a tree; a run is said as a walk of the tree of what
//! was held, up to what the event is, with the tree of what is held then. The machine that runs code so is `mdr_exec`.
#![tactic(auto)]

mod event;
mod integer;
mod memory;

pub use event::{Asked, Crossing, Event};
pub use integer::Integer;
pub use memory::Memory;
