// Values and the blocks that they name. A pointer's slot is where its block was seen last. `births` is called for what it
// promises beside the count: that handles are in order.

ghost use Rattle.std.specs.Prelude.{◌≡◌, IfOk, IsTrue, map, Some};
ghost use Rattle.mdr_mem.specs.Contents.{current, handle_of, is_handle};
ghost use Rattle.mdr_meaning.specs.Values.{wire_of, wire_view};
ghost use Rattle.mdr_meaning.specs.declared.wire.Wire.TheVariants as wire;
ghost use Rattle.mdr_model.specs.Memory.{born_at, is_live, normal};
ghost use Rattle.mdr_plain.specs.Scripts.{block_cells};

use mdr_core::{Block, Items, OutOfMemory, Value, View};
use mdr_mem::Cells;
use mdr_model::New;
use mdr_region::RegionBlocks;
use std::alloc::Global;

/// The handle of the live block with this serial, in constant time where the slot is right.
#[tactic(auto, using(crate::proofs::HandleLaws::alive_is))]
pub fn handle(blocks: &RegionBlocks, b: Block) -> Option<Block>
    ensures { result ≡ handle_of blocks.now.handles b.serial }
{
    let _in_order = blocks.births();
    if blocks.alive(b) {
        Some(b)
    } else {
        blocks.find(b.serial)
    }
}

#[tactic(auto, unfolding(mdr_mem::specs::Contents::current))]
fn pointer_now(blocks: &RegionBlocks, p: View) -> Value
    ensures value { wire_of result ≡ normal blocks.now.memory (wire.Ptr (wire_view p)) }
    ensures alive { current blocks.now.handles result ≡ result }
{
    let _in_order = blocks.births();
    match handle(blocks, p.block) {
        Some(block) => Value::Ptr(View {
            block,
            first: p.first,
            ty: p.ty,
            count: p.count,
            index: p.index,
        }),
        None => Value::Dead,
    }
}

/// A value as it is now, with the slot of its block.
#[tactic(auto, unfolding(mdr_model::specs::Memory::normal, mdr_mem::specs::Contents::current))]
pub fn value_now(blocks: &RegionBlocks, v: Value) -> Value
    ensures value { wire_of result ≡ normal blocks.now.memory (wire_of v) }
    ensures alive { current blocks.now.handles result ≡ result }
{
    match v {
        Value::Ptr(p) => pointer_now(blocks, p),
        _ => v,
    }
}

/// What was put into a cell, as it is now.
#[tactic(auto, unfolding(mdr_mem::specs::Contents::current))]
pub fn held_now(blocks: &RegionBlocks, v: Value) -> Value
    ensures { result ≡ current blocks.now.handles v }
{
    match v {
        Value::Ptr(p) => {
            if blocks.alive(p.block) {
                v
            } else {
                Value::Dead
            }
        }
        _ => v,
    }
}

/// Whether a block lives.
pub fn is_live_now(blocks: &RegionBlocks, b: Block) -> bool
    ensures { result ≡ is_live blocks.now.memory b.serial }
{
    let _in_order = blocks.births();
    match handle(blocks, b) {
        Some(_) => true,
        None => false,
    }
}

/// How a block was born that lives.
pub fn born_now(blocks: &RegionBlocks, serial: u64) -> Option<New>
    ensures { result ≡ born_at blocks.now.memory serial }
{
    let _in_order = blocks.births();
    match blocks.find(serial) {
        Some(b) => Some(born_of(blocks, b)),
        None => None,
    }
}

fn born_of(blocks: &RegionBlocks, b: Block) -> New
    requires { IsTrue (is_handle blocks.now.handles b) }
    ensures { born_at blocks.now.memory b.serial ≡ Some result }
{
    let shape = blocks.shape(b);
    New {
        serial: b.serial,
        kind: blocks.kind(b),
        ty: shape.ty,
        count: shape.count,
    }
}

fn held_values(
    blocks: &RegionBlocks,
    alloc: Global,
    cells: &[Value],
) -> Result<Items<Value>, OutOfMemory>
    ensures { IfOk result (λ vs. vs ≡ map (current blocks.now.handles) cells.now) }
{
    let mut values = Items::new(alloc);
    for v in cells {
        values.push(held_now(blocks, *v))?;
    }
    Ok(values)
}

fn cells_now(blocks: &RegionBlocks, alloc: Global, b: Block) -> Result<Items<Value>, OutOfMemory>
    requires { IsTrue (is_handle blocks.now.handles b) }
    ensures { IfOk result (λ vs. map wire_of vs ≡ block_cells blocks.now.memory b.serial) }
{
    held_values(blocks, alloc, blocks.cells(b))
}

/// What a block's cells hold; nothing where it doesn't live.
pub fn values_of(
    blocks: &RegionBlocks,
    alloc: Global,
    serial: u64,
) -> Result<Items<Value>, OutOfMemory>
    ensures { IfOk result (λ vs. map wire_of vs ≡ block_cells blocks.now.memory serial) }
{
    let _in_order = blocks.births();
    match blocks.find(serial) {
        Some(b) => cells_now(blocks, alloc, b),
        None => Ok(Items::new(alloc)),
    }
}
