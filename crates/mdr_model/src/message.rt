// The messages between the halves.

use crate::reply::Reply;
use mdr_core::{Items, RefuseKind};
use mdr_meaning::Wire;

/// How a block was born.
#[derive(Clone, Copy, Debug)]
pub enum BirthKind {
    /// A global.
    Static,
    /// An allocation.
    Heap,
    /// An object of a local.
    Auto,
}

/// A block that the other half is told of for the first time: `count` elements of a type of the table.
#[derive(Clone, Copy, Debug)]
pub struct New {
    pub serial: u64,
    pub kind: BirthKind,
    pub ty: u32,
    pub count: u32,
}

/// Values of cells of one block that follow one another.
#[derive(Debug, Drop)]
pub struct Run {
    pub serial: u64,
    pub first: u32,
    pub values: Items<Wire>,
}

/// Cells of one block that follow one another.
#[derive(Clone, Copy, Debug)]
pub struct SetRun {
    pub serial: u64,
    pub first: u32,
    pub len: u32,
}

/// What a message of the kernel half tells of memory: the blocks that died since the last message, those that are
/// new, the visible cells, and of these the values of the ones that changed.
#[derive(Debug, Drop)]
pub struct Told {
    pub deaths: Items<u64>,
    pub news: Items<New>,
    pub view: Items<SetRun>,
    pub runs: Items<Run>,
}

/// An upcall of a function, with the functions that are active before it; `rest` is what the budget leaves.
#[derive(Debug, Drop)]
pub struct Call {
    pub func: u32,
    pub depth: u32,
    pub rest: u64,
    pub args: Items<Wire>,
    pub told: Told,
}

/// A downcall's function returned; `rest` is what the budget leaves.
#[derive(Debug, Drop)]
pub struct Back {
    pub rest: u64,
    pub result: Wire,
    pub told: Told,
}

/// A service's results, the blocks that died, and those that are new. It tells no cells.
#[derive(Debug, Drop)]
pub struct Answer {
    pub results: Items<Wire>,
    pub deaths: Items<u64>,
    pub news: Items<New>,
}

/// A message. `Call`, `Back` and `Answer` go to the user half, all others to the kernel half.
#[derive(Debug, Drop)]
pub enum Message {
    Call(Call),
    Back(Back),
    Answer(Answer),
    Reply(Reply),
    /// The last message was refused: 1 it is no message, 2 its kind isn't awaited, 3 its content doesn't fit.
    Refuse(u32),
}

/// Why bytes are no message, or a message no legal reply: the cause, and its offset or position.
#[derive(Clone, Copy)]
pub struct Fault {
    pub kind: RefuseKind,
    pub number: u64,
}
