// Where the kernel half of a split run stands.

ghost use Rattle.std.specs.Prelude.{◌≡◌};
ghost use Rattle.mdr_turns.specs.States.{IsSeen, kernel_of};

use mdr_copy::{CellList, RisingBlocks};
use mdr_core::{Items, Value};
use mdr_events::Crossing;
use mdr_model::{End, MemoryBlock, Message};
use mdr_watch::Guarded;
use mdr_whole::Paused;
use mdr_world::World;

/// The ticks that were counted, those that the budget leaves, how many commands called a function, and how many upcalls
/// are open below the innermost.
#[derive(Clone, Copy)]
pub(crate) struct Tally {
    pub(crate) ticks: u64,
    pub(crate) rest: u64,
    pub(crate) calls: u64,
    pub(crate) below: u64,
}

/// The state of the run while a function of the user half is active, with what messages tell of it and answers are judged
/// by: its blocks, the living cells of the set, and its counts.
#[derive(Drop)]
pub(crate) struct Seen<'a> {
    pub(crate) guarded: Guarded<'a>,
    pub(crate) memory: RisingBlocks,
    pub(crate) view: CellList,
    pub(crate) tally: Tally,
}

/// What the kernel half keeps beside the state of the run: the agreed copy, the messages sent, and the functions whose
/// addresses the program takes.
#[derive(Drop)]
pub(crate) struct Ledger {
    pub(crate) agreed: RisingBlocks,
    pub(crate) exchanges: u64,
    pub(crate) passes: Items<u32>,
}

/// An upcall that is open: its function, how many functions were active before it, and the objects of locals that were
/// born in it and live.
#[derive(Drop)]
pub(crate) struct Open {
    pub(crate) func: u32,
    pub(crate) depth: u32,
    pub(crate) entered: Items<u64>,
}

/// Where code of the kernel half began: a command called it, or user code of an upcall did, so.
#[derive(Drop)]
pub(crate) enum Base {
    Commanded,
    Down(Crossing, Open),
}

/// Code of the kernel half that called back and waits, with the ticks that were left when it did.
#[derive(Drop)]
pub(crate) struct Wait {
    pub(crate) paused: Paused,
    pub(crate) rest: u64,
}

/// The same, and where it began.
#[derive(Drop)]
pub(crate) struct Frame {
    pub(crate) wait: Wait,
    pub(crate) base: Base,
}

/// What follows the innermost upcall that is open: the code of the kernel half that waits, the innermost first, and how
/// many commands of the script have begun.
#[derive(Drop)]
pub(crate) struct Behind {
    pub(crate) frames: Items<Frame>,
    pub(crate) done: usize,
}

/// The innermost code of the kernel half that waits, if any does, and what follows the upcall below: of that the commands
/// that have begun, where it is a command's.
#[derive(Drop)]
pub(crate) enum Innermost {
    Nothing(usize),
    Over(Frame, Behind),
}

/// A function of the user half that is called, with so many functions active before it.
#[derive(Clone, Copy)]
pub(crate) struct Callee<'b> {
    pub(crate) func: u32,
    pub(crate) depth: u32,
    pub(crate) args: &'b [Value],
}

/// The kernel half while it waits for an answer.
#[derive(Drop)]
pub struct Waiting<'a> {
    pub(crate) seen: Seen<'a>,
    pub(crate) ledger: Ledger,
    pub(crate) open: Open,
    pub(crate) behind: Behind,
}

/// The kernel half while a function of the user half is active, and no message is on its way.
#[derive(Drop)]
pub(crate) struct Active<'a> {
    pub(crate) guarded: Guarded<'a>,
    pub(crate) ledger: Ledger,
    pub(crate) open: Open,
    pub(crate) behind: Behind,
}

/// The kernel half while its own code is at work in an upcall, with what follows the innermost.
#[derive(Drop)]
pub(crate) struct Within<'a> {
    pub(crate) guarded: Guarded<'a>,
    pub(crate) ledger: Ledger,
    pub(crate) behind: Behind,
}

/// The run is over, or it waits for the answer to a message.
#[derive(Drop)]
pub enum Pending<'a> {
    Over(End, World<'a>),
    Waits(Message, Waiting<'a>),
}

/// The kernel half while no function of the user half is active.
#[derive(Drop)]
pub(crate) struct Between<'a> {
    pub(crate) world: World<'a>,
    pub(crate) ledger: Ledger,
}

/// What a command of the script came to: the script goes on, or the run waits, or is over.
#[derive(Drop)]
pub(crate) enum Commanded<'a> {
    Goes(Between<'a>),
    Rests(Pending<'a>),
}

impl<'a> Waiting<'a> {
    /// The messages sent so far.
    pub fn exchanges(&self) -> u64
        ensures { result ≡ (kernel_of self.now).exchanges }
    {
        self.ledger.exchanges
    }

    /// Lends the memory's blocks as they are while the answer is awaited.
    pub fn cells(&self) -> &[MemoryBlock]
        ensures { IsSeen self.now.seen → result.now ≡ (kernel_of self.now).world.memory }
    {
        self.seen.memory.as_slice()
    }
}
