// Copies of memories.

ghost use Rattle.std.specs.Prelude.{◌≡◌, IfOk};

use crate::store::RisingBlocks;
use mdr_core::{Items, OutOfMemory};
use mdr_model::MemoryBlock;
use std::alloc::Global;

fn copied_block(alloc: Global, block: &MemoryBlock) -> Result<MemoryBlock, OutOfMemory>
    ensures { IfOk result (λ copy. copy ≡ block.now) }
{
    Ok(MemoryBlock {
        born: block.born,
        cells: Items::from_slice(alloc, block.cells.as_slice())?,
    })
}

/// The memory, as one of its own.
pub fn copied(alloc: Global, memory: &[MemoryBlock]) -> Result<Vec<MemoryBlock>, OutOfMemory>
    ensures { IfOk result (λ copy. copy.items ≡ memory.now) }
{
    let mut copy = Vec::new(alloc);
    for block in memory {
        copy.push(copied_block(alloc, block)?)?;
    }
    Ok(copy)
}

/// The same of a memory in order.
pub fn copy_of(alloc: Global, memory: &RisingBlocks) -> Result<RisingBlocks, OutOfMemory>
    ensures { IfOk result (λ copy. copy ≡ memory.now) }
{
    let blocks = copied(alloc, memory.as_slice())?;
    Ok(RisingBlocks::of(blocks))
}
