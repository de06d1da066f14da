// Code that calls a function of the other half.

use crate::ending::Gave;
use mdr_events::Crossing;
use mdr_exec::Machine;

/// Code that waits for what a function of the other half gives.
#[derive(Drop)]
pub enum Paused {
    /// That of a machine, which goes on with it.
    Waits(Machine),
    /// A call of a function that isn't among those that run, or that has no body: it gives the same.
    Passes,
}

/// How far code ran.
#[derive(Drop)]
pub enum Went {
    /// To its end.
    Gave(Gave),
    /// Up to a call of a function of the other half.
    Calls(Crossing, Paused),
}
