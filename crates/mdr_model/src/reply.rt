// The user half's replies to the messages that it takes. In each, `ticks` are the user half's ticks since the last message
// that it got, and `runs` the visible cells that it changed.

use crate::message::Run;
use mdr_core::{At, Items};
use mdr_meaning::{Shape64, Wire};

/// The upcall's function returned.
#[derive(Debug, Drop)]
pub struct Return {
    pub ticks: u64,
    pub result: Wire,
    pub runs: Items<Run>,
}

/// A downcall of a function, from a place, with the functions that are active before it.
#[derive(Debug, Drop)]
pub struct Down {
    pub ticks: u64,
    pub at: At,
    pub depth: u32,
    pub func: u32,
    pub args: Items<Wire>,
    pub runs: Items<Run>,
}

/// A service is asked for, from a place.
#[derive(Debug, Drop)]
pub struct Ask {
    pub ticks: u64,
    pub at: At,
    pub service: u32,
    pub args: Items<Wire>,
    pub shapes: Items<Shape64>,
    pub bytes: Items<u8>,
    pub runs: Items<Run>,
}

/// User code stopped, by the stop's number.
#[derive(Debug, Drop)]
pub struct Stop {
    pub ticks: u64,
    pub stop: u32,
    pub at: At,
    pub runs: Items<Run>,
}

/// What the kernel half awaits.
#[derive(Debug, Drop)]
pub enum Reply {
    Return(Return),
    Down(Down),
    Ask(Ask),
    Stop(Stop),
}
