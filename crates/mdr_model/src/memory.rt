// Memories.

use crate::message::New;
use mdr_core::Items;
use mdr_meaning::Wire;

/// A live block: how it was born, and what its cells hold.
#[derive(Drop)]
pub struct MemoryBlock {
    pub born: New,
    pub cells: Items<Wire>,
}

/// A cell of a block, by the block's serial.
#[derive(Clone, Copy)]
pub struct Cell {
    pub serial: u64,
    pub index: u32,
}
