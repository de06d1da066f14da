// The events at which running code comes back.

use mdr_core::{At, Items, StopKind, Value};
use mdr_meaning::Shape64;

/// A service that is asked for: its arguments, the objects that are to be born, and bytes.
#[derive(Drop)]
pub struct Asked {
    pub service: u32,
    pub at: At,
    pub args: Items<Value>,
    pub shapes: Items<Shape64>,
    pub bytes: Items<u8>,
}

/// A call of a function of the other half, with so many functions active before it.
#[derive(Drop)]
pub struct Crossing {
    pub at: At,
    pub func: u32,
    pub args: Items<Value>,
    pub depth: u32,
}

/// What a run of the machine comes to.
#[derive(Drop)]
pub enum Event {
    /// The function that was started last ended with a value.
    Done(Value),
    Cross(Crossing),
    Service(Asked),
    /// A tick is needed at a place, and none is left.
    TicksOut(At),
    Stop(StopKind, At),
}
