// What a machine holds.

use crate::places::Position;
use mdr_core::{Items, Value};

/// Which code runs here.
#[derive(Clone, Copy)]
pub enum Side {
    /// All of it.
    Whole,
    /// That of the kernel half, where objects of locals are born.
    Kernel,
    /// That of the user half, where births and deaths are asked for.
    User,
}

/// How a statement ends.
#[derive(Clone, Copy)]
pub enum Flow {
    Ends,
    Breaks,
    Continues,
    Returns(Value),
}

/// A function that runs: its place, by a path of statements that are under way and one more than the index of the one
/// behind which it stands, what its slots hold, and the objects that were born in its innermost block.
#[derive(Drop)]
pub struct Frame {
    pub func: u32,
    pub depth: u32,
    pub path: Items<Position>,
    pub next: usize,
    pub slots: Items<Value>,
    pub born: Items<Value>,
}

/// What comes before the statements that follow.
#[derive(Drop)]
pub enum Front {
    /// Nothing.
    Runs,
    /// A block, a loop or a function is left.
    Unwinds(Flow),
    /// The value of the call that the frame stands behind.
    Comes(Value),
    /// A function's parameters that are objects are born, and are given their values.
    Enters,
    Fills(Items<Value>),
    /// The object of a local was born.
    Born(u32, Value),
    /// A question is open, and its answer is a call's value, the parameters' pointers, a local's pointer, or nothing.
    WaitsValue,
    /// With room for the pointers.
    WaitsParams(Vec<Value>),
    WaitsObject(u32),
    WaitsDeath(Flow),
}

/// What a frame waits for.
#[derive(Drop)]
pub enum Until {
    /// The value of the call that it stands behind.
    Call,
    /// The end of the function that was started over it, and then what came next.
    Started(Front),
}

/// A frame below the one that runs.
#[derive(Drop)]
pub struct Suspended {
    pub frame: Frame,
    pub until: Until,
}

/// Code that runs on one side, and can stop between any two steps and go on. It borrows nothing.
#[derive(Drop)]
pub struct Machine {
    pub side: Side,
    pub front: Front,
    pub top: Frame,
    /// The innermost last.
    pub below: Items<Suspended>,
    /// The ticks of the last run.
    pub used: u64,
}
