// Pairs of serials and blocks, and what they make of pointers.

ghost use Rattle.std.specs.Prelude.{◌≡◌, ◌<◌, ◌≤◌, ◌+◌, None, IsOk, OnOk, OnErr, max};
ghost use Rattle.mdr_track.specs.Pairs.{AreMatched, no_pairs, paired, unpaired};
ghost use Rattle.mdr_track.specs.Pointers.{addressed, name_of, named, pointer};
ghost use Rattle.mdr_track.specs.Tracked.{key_of, pairs_of};

use crate::key::BlockKey;
use indexmap::IndexMap;
use mdr_core::{Block, OutOfMemory, Value, View};
use std::alloc::Global;
use std::marker::Model;

/// Pairs of the kernel's serials and the user half's blocks, in which no serial and no block stands twice. A
/// look-up takes constant time on average. `room` counts the further pairs that were promised memory.
#[derive(Drop)]
pub struct Tracker {
    by_serial: IndexMap<u64, Block>,
    by_block: IndexMap<BlockKey, u64>,
    room: u64,
}

impl Model for Tracker {
    ghost use Rattle.mdr_track.specs.Tracked.{Tracked, IsKept};

    ghost Value = { Tracked };

    ghost view = { λ s. record { serials = s.by_serial.entries; blocks = s.by_block.entries; room = s.room } };

    ghost invariant = { λ s. IsKept s.by_serial s.by_block s.room };
}

fn key_of(block: Block) -> BlockKey
    ensures { result ≡ key_of block }
{
    BlockKey {
        slot: block.slot,
        serial: block.serial,
    }
}

fn pointer(p: View, block: Option<Block>) -> Value
    ensures { result ≡ pointer p block }
{
    match block {
        Some(block) => Value::Ptr(View { block, ..p }),
        None => Value::Dead,
    }
}

fn name_of(block: Block, serial: Option<u64>) -> Option<Block>
    ensures { result ≡ name_of block serial }
{
    match serial {
        Some(serial) => Some(Block {
            slot: block.slot,
            serial,
        }),
        None => None,
    }
}

impl Tracker {
    /// No pairs, and no room. It takes no memory.
    pub fn new(alloc: Global) -> Tracker
        ensures pairs { pairs_of result ≡ no_pairs }
        ensures room { result.room ≡ 0 }
    {
        Tracker {
            by_serial: IndexMap::new(alloc),
            by_block: IndexMap::new(alloc),
            room: 0,
        }
    }

    /// Promises memory for so many further pairs. Where memory is wanting all is as before.
    pub fn reserve(&mut self, n: u32) -> Result<(), OutOfMemory>
        ensures pairs { pairs_of self.new ≡ pairs_of self.old }
        ensures room { OnOk result (self.new.room ≡ max n self.old.room) }
        ensures succeeds { n ≤ self.old.room → IsOk result }
        ensures as_before { OnErr result (self.new ≡ self.old) }
    {
        self.by_serial.reserve(n as usize)?;
        self.by_block.reserve(n as usize)?;
        if self.room < n as u64 {
            self.room = n as u64;
        }
        Ok(())
    }

    /// How many further pairs were promised memory.
    pub fn spare(&self) -> u64
        ensures { result ≡ self.now.room }
    {
        self.room
    }

    /// Pairs a serial with a block, by the memory that was promised: it can't fail.
    pub fn pair(&mut self, serial: u64, block: Block)
        requires room { 0 < self.old.room }
        requires new { (pairs_of self.old).user_of serial ≡ None }
        requires free { (pairs_of self.old).serial_of block ≡ None }
        ensures pairs { pairs_of self.new ≡ paired serial block (pairs_of self.old) }
        ensures one { self.new.room + 1 ≡ self.old.room }
    {
        self.by_serial.insert(serial, block).unwrap();
        self.by_block.insert(key_of(block), serial).unwrap();
        self.room -= 1;
    }

    /// The block that a serial is paired with.
    pub fn user_of(&self, serial: u64) -> Option<Block>
        ensures exact { result ≡ (pairs_of self.now).user_of serial }
        ensures matched { AreMatched (pairs_of self.now) }
    {
        self.by_serial.get(&serial).copied()
    }

    /// The serial that a block is paired with.
    pub fn serial_of(&self, block: Block) -> Option<u64>
        ensures exact { result ≡ (pairs_of self.now).serial_of block }
        ensures matched { AreMatched (pairs_of self.now) }
    {
        self.by_block.get(&key_of(block)).copied()
    }

    /// Takes the pair of a serial out, if it has one. The memory that was promised stays promised.
    pub fn drop_pair(&mut self, serial: u64)
        ensures pairs { pairs_of self.new ≡ unpaired serial (pairs_of self.old) }
        ensures room { self.new.room ≡ self.old.room }
    {
        if let Some(block) = self.by_serial.swap_remove(&serial) {
            self.by_block.swap_remove(&key_of(block));
        }
    }

    /// A value of one of the user half's cells, as running code has it: a pointer has the kernel's serial, and keeps its
    /// slot. One whose block isn't paired is a dead one.
    #[tactic(auto, unfolding(crate::specs::Pointers::named))]
    pub fn named(&self, v: Value) -> Value
        ensures { result ≡ named (pairs_of self.now) v }
    {
        match v {
            Value::Ptr(p) => pointer(p, name_of(p.block, self.serial_of(p.block))),
            _ => v,
        }
    }

    /// A value of running code, as one of the user half's cells has it: a pointer has the user half's own block. One
    /// whose serial isn't paired is a dead one.
    #[tactic(auto, unfolding(crate::specs::Pointers::addressed))]
    pub fn addressed(&self, v: Value) -> Value
        ensures { result ≡ addressed (pairs_of self.now) v }
    {
        match v {
            Value::Ptr(p) => pointer(p, self.user_of(p.block.serial)),
            _ => v,
        }
    }
}
