// What the user half keeps between messages.

ghost use Rattle.std.specs.Prelude.{◌≡◌};

use mdr_copy::CellList;
use mdr_core::{At, Items};
use mdr_exec::Machine;
use mdr_meaning::Shape64;
use mdr_model::Wire;
use mdr_user_memory::UserMemory;

/// A service that was asked for.
#[derive(Drop)]
pub struct Question {
    pub service: u32,
    pub at: At,
    pub args: Items<Wire>,
    pub shapes: Items<Shape64>,
    pub bytes: Items<u8>,
}

/// A downcall: its function, and how many functions are active before it.
#[derive(Clone, Copy)]
pub struct Downcall {
    pub func: u32,
    pub depth: u32,
}

/// What is open.
#[derive(Drop)]
pub enum Awaits {
    Nothing,
    /// A downcall.
    Back(Downcall),
    /// A service, with the ticks that are left.
    Answer(Question, u64),
}

/// User code that waits for a downcall, in which the kernel half called back: the function that its upcall called, and
/// the downcall.
#[derive(Drop)]
pub struct Suspended {
    pub machine: Machine,
    pub func: u32,
    pub down: Downcall,
}

/// What the user half keeps between messages: its memory with the agreed copy, the code that waits, the function that the open
/// upcall called, the blocks that came in an answer to service 13 and live, the visible cells, what is awaited, and what waits below
/// the upcall that is open, the innermost first.
#[derive(Drop)]
pub struct State {
    pub(crate) memory: UserMemory,
    pub(crate) machine: Machine,
    pub(crate) func: u32,
    pub(crate) entered: Items<u64>,
    pub(crate) view: CellList,
    pub(crate) awaits: Awaits,
    pub(crate) below: Items<Suspended>,
}

impl State {
    /// Lends the user half's memory, with the agreed copy.
    pub fn memory(&self) -> &UserMemory
        ensures { result.now ≡ self.now.memory }
    {
        &self.memory
    }
}
