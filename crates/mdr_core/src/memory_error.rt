// Want of memory.

use std::alloc::{AllocError, AllocFailed};

/// Memory was wanting. It is told apart from every other refusal. A value comes from these places alone: an allocator
/// that refused, a limit that would be passed (`limits`, or a `Limit`), an error of another type that said the same
/// (`passed_on`), and what can't happen though no contract says so yet (`unmet`).
#[derive(Clone, Copy, Debug)]
pub struct OutOfMemory {
    _own: (),
}

impl From<AllocError> for OutOfMemory {
    fn from(_e: AllocError) -> OutOfMemory {
        OutOfMemory { _own: () }
    }
}

impl<T: Drop> From<AllocFailed<T>> for OutOfMemory {
    fn from(_e: AllocFailed<T>) -> OutOfMemory {
        OutOfMemory { _own: () }
    }
}

impl From<OutOfMemory> for AllocError {
    fn from(_e: OutOfMemory) -> AllocError {
        AllocError
    }
}

impl OutOfMemory {
    /// The same want of memory, where an error of another type told it.
    pub fn passed_on() -> OutOfMemory {
        OutOfMemory { _own: () }
    }

    /// What no run of a source's program does, though the contracts don't say so yet.
    pub fn unmet() -> OutOfMemory {
        OutOfMemory { _own: () }
    }
}

/// What a run or a text can have too much of to be held. `docs/LIMITS.md` has the numbers, and why no source of a
/// mebibyte comes to them.
#[derive(Clone, Copy)]
pub enum Limit {
    /// Steps of a machine, or of a script: 2^64.
    Turns,
    /// Calls that a run counts: 2^64.
    Calls,
    /// Allocations that a run counts: 2^64.
    Allocations,
    /// Messages that a run counts: 2^64 - 2.
    Messages,
    /// Births of blocks in a memory: 2^64.
    Births,
    /// Blocks that live at a time: 2^32.
    Blocks,
    /// Cells of a memory, or of one run of cells in a message.
    Cells,
    /// Bytes of a text: 2^32 - 1.
    Bytes,
    /// Types, globals, structs or functions of a program: 2^24.
    Parts,
    /// Locals of a function, fields of a struct, or items of a source: 2^32.
    Fields,
    /// What a message can't spell: a list of 2^31 items, or a number past its kind.
    Items,
    /// Blocks of a source inside one another: 2^64.
    Deep,
    /// Functions that are active at a time: 2^32 - 1.
    Active,
    /// Levels of a function's statements in one another when they are brought into plain form: 1,000.
    Levels,
}

impl Limit {
    /// What answers that a limit would be passed.
    pub fn past(self) -> OutOfMemory {
        OutOfMemory { _own: () }
    }
}
