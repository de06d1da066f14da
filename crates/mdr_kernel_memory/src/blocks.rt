// The memory of a run, block by block.

ghost use Rattle.std.specs.Prelude.{◌≡◌, ◌<◌, IfOk, Some, length, map, option_map, slice_get};
ghost use Rattle.mdr_mem.specs.Contents.{current, wire_in};

use mdr_copy::{RisingBlocks, wire_of};
use mdr_core::{Items, OutOfMemory, Value};
use mdr_mem::Cells;
use mdr_model::{MemoryBlock, Wire};
use mdr_region::RegionBlocks;
use mdr_world::World;
use std::alloc::Global;

/// What was put into a cell, as it is now.
#[tactic(auto, unfolding(mdr_mem::specs::Contents::current))]
fn value_now(blocks: &RegionBlocks, v: Value) -> Value
    ensures { result ≡ current blocks.now.handles v }
{
    match v {
        Value::Ptr(p) => {
            if blocks.alive(p.block) {
                v
            } else {
                Value::Dead
            }
        }
        _ => v,
    }
}

fn wire_now(blocks: &RegionBlocks, v: Value) -> Wire
    ensures { result ≡ wire_in blocks.now.handles v }
{
    wire_of(value_now(blocks, v))
}

fn wires_now(
    blocks: &RegionBlocks,
    alloc: Global,
    cells: &[Value],
) -> Result<Items<Wire>, OutOfMemory>
    ensures { IfOk result (λ ws. ws ≡ map (wire_in blocks.now.handles) cells.now) }
{
    let mut wires = Items::new(alloc);
    for v in cells {
        wires.push(wire_now(blocks, *v))?;
    }
    Ok(wires)
}

/// What the cells hold of the block at this place among those that live.
fn cells_at(blocks: &RegionBlocks, alloc: Global, place: usize) -> Result<Items<Wire>, OutOfMemory>
    requires { place < length blocks.now.memory }
    ensures { IfOk result (λ ws. option_map (λ b. b.cells) (slice_get blocks.now.memory place) ≡ Some ws) }
{
    match blocks.cells_at(place) {
        Some(cells) => wires_now(blocks, alloc, cells),
        None => unreachable!(),
    }
}

fn block_at(blocks: &RegionBlocks, alloc: Global, place: usize) -> Result<MemoryBlock, OutOfMemory>
    requires { place < length blocks.now.memory }
    ensures { IfOk result (λ b. slice_get blocks.now.memory place ≡ Some b) }
{
    match blocks.born_at(place) {
        Some(born) => {
            let cells = cells_at(blocks, alloc, place)?;
            Ok(MemoryBlock { born, cells })
        }
        None => unreachable!(),
    }
}

fn all_blocks(blocks: &RegionBlocks, alloc: Global) -> Result<Vec<MemoryBlock>, OutOfMemory>
    ensures { IfOk result (λ m. m.items ≡ blocks.now.memory) }
{
    let live = blocks.live() as usize;
    let mut memory = Vec::new(alloc);
    for place in 0..live {
        memory.push(block_at(blocks, alloc, place)?)?;
    }
    Ok(memory)
}

/// The same in the order of their births, in which serials rise.
fn in_order(blocks: &RegionBlocks, alloc: Global) -> Result<RisingBlocks, OutOfMemory>
    ensures { IfOk result (λ m. m ≡ blocks.now.memory) }
{
    let memory = all_blocks(blocks, alloc)?;
    let _in_order = blocks.births();
    Ok(RisingBlocks::of(memory))
}

/// The live blocks, with what their cells hold now, in the order of their births.
pub fn snapshot(alloc: Global, world: &World) -> Result<RisingBlocks, OutOfMemory>
    ensures { IfOk result (λ m. m ≡ world.now.world.memory) }
{
    let blocks = world.blocks();
    let memory = in_order(blocks, alloc)?;
    Ok(memory)
}
