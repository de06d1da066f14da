// What a run of a whole driver shows.

use mdr_core::{Items, Name, Value};
use mdr_model::{End, Object};

/// An event of a run. In its values no slot is meant.
#[derive(Drop)]
pub enum Happened {
    /// A command called a function.
    Call(Name, Items<Value>),
    /// A command let so many ticks pass.
    Idle(u64),
    /// A register, by its number, was read, and held this word.
    Read(u32, u32),
    /// A register, by its number, was written.
    Wrote(u32, u32),
    /// A text was printed.
    Log(Name),
    /// Bytes were delivered.
    Deliver(Name),
    /// An interrupt was taken, which this function handles.
    Irq(u32),
    /// The called function returned.
    Ret(Value),
    /// A command showed what a global's cells hold.
    Show(Name, Items<Value>),
    /// A command noted a line.
    Say(Name),
}

/// What a run shows: its events in order, its end, the ticks used, the live blocks and the objects.
#[derive(Drop)]
pub struct Outcome {
    pub events: Items<Happened>,
    pub end: End,
    pub ticks: u64,
    pub live: u64,
    pub objects: Items<Object>,
}
