// Where named files lie.

ghost use Rattle.std.specs.Prelude.{◌≡◌};
ghost use Rattle.mdr_outside.specs.declared.shelf.ReadAnswer.TheVariants.{OutOfMemory as NoRead};
ghost use Rattle.mdr_outside.specs.declared.shelf.WriteAnswer.TheVariants.{OutOfMemory as NoWrite};

use mdr_core::Items;
use std::alloc::{AllocError, Global};

/// What a shelf answers to a read.
#[derive(Drop)]
pub enum ReadAnswer {
    /// The bytes of the file.
    Ok(Items<u8>),
    /// No file has the name.
    Missing,
    /// The file is longer than the limit.
    TooLarge,
    /// The shelf couldn't read.
    Failed,
    OutOfMemory,
}

/// What a shelf answers to a write.
#[derive(Clone, Copy, Debug)]
pub enum WriteAnswer {
    /// The file is the bytes.
    Ok,
    /// The shelf couldn't write.
    Failed,
    OutOfMemory,
}

impl From<AllocError> for ReadAnswer {
    ghost from_gives = { λ _ a. a ≡ NoRead };

    fn from(_e: AllocError) -> ReadAnswer {
        ReadAnswer::OutOfMemory
    }
}

impl From<AllocError> for WriteAnswer {
    ghost from_gives = { λ _ a. a ≡ NoWrite };

    fn from(_e: AllocError) -> WriteAnswer {
        WriteAnswer::OutOfMemory
    }
}

/// A shelf holds named files. `files` tells them as a function of the name, or doesn't tell them.
///
/// Each count says how often an answer came: `faults` that a read failed, `absent` that a file was missing,
/// `long` that one was too large, `unwritten` that a write failed. At the greatest `u64` a count stands still.
/// `calls` are all calls so far with their answers, in their order.
pub trait Shelf {
    ghost use Rattle.std.specs.Prelude.{◌≡◌, ◌≤◌, ℕ, List, Option};
    ghost use Rattle.mdr_outside.specs.Calls.{ShelfCall, Read, Written, and_then};
    ghost use Rattle.mdr_outside.specs.Count.{Rose};
    ghost use Rattle.mdr_outside.specs.Shelf.{ReadsFrom, IsShort, WritesTo};
    ghost use Rattle.mdr_outside.specs.declared.shelf.ReadAnswer.{ReadAnswer};
    ghost use Rattle.mdr_outside.specs.declared.shelf.WriteAnswer.{WriteAnswer};

    ghost files: { Self → Option (List ℕ → Option (List ℕ)) };

    ghost faults: { Self → ℕ };

    ghost absent: { Self → ℕ };

    ghost long: { Self → ℕ };

    ghost unwritten: { Self → ℕ };

    ghost calls: { Self → List ShelfCall };

    /// Reads a file of at most `limit` bytes.
    fn read(&mut self, alloc: Global, name: &str, limit: u64) -> ReadAnswer
        ensures told { ReadsFrom (files self.old) name.now limit result }
        ensures short { IsShort limit result }
        ensures kept { files self.new ≡ files self.old }
        ensures called { calls self.new ≡ and_then (calls self.old) (Read name.now limit result) }

        // Each answer but `Ok` raises its count, and no count falls.
        ensures failed { result ≡ ReadAnswer.Failed → Rose (faults self.old) (faults self.new) }
        ensures missing { result ≡ ReadAnswer.Missing → Rose (absent self.old) (absent self.new) }
        ensures too_large { result ≡ ReadAnswer.TooLarge → Rose (long self.old) (long self.new) }
        ensures faults_later { faults self.old ≤ faults self.new }
        ensures absent_later { absent self.old ≤ absent self.new }
        ensures long_later { long self.old ≤ long self.new }
        ensures unwritten_same { unwritten self.new ≡ unwritten self.old };

    /// Makes the bytes the file of that name, in place of one that was there.
    fn write(&mut self, alloc: Global, name: &str, bytes: &[u8]) -> WriteAnswer
        ensures told { WritesTo (files self.old) (files self.new) name.now bytes.now result }
        ensures called { calls self.new ≡ and_then (calls self.old) (Written name.now bytes.now result) }

        // `Failed` raises its count, and no other count changes.
        ensures failed { result ≡ WriteAnswer.Failed → Rose (unwritten self.old) (unwritten self.new) }
        ensures unwritten_later { unwritten self.old ≤ unwritten self.new }
        ensures faults_same { faults self.new ≡ faults self.old }
        ensures absent_same { absent self.new ≡ absent self.old }
        ensures long_same { long self.new ≡ long self.old };
}
