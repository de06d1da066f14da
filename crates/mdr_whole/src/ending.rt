// What work in a run comes to.

use mdr_core::{At, StopKind, Value};

/// What a call gives.
#[derive(Drop)]
pub enum Gave {
    Value(Value),
    /// The run stopped, at a place if any.
    Stopped(StopKind, Option<At>),
}

/// What work comes to that has no result.
#[derive(Drop)]
pub enum Worked {
    Done,
    /// The run stopped, at a place if any.
    Stopped(StopKind, Option<At>),
}
