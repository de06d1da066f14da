// Blocks that die, and blocks that are new.

ghost use Rattle.std.specs.Prelude.{◌≡◌, [], ◌∷◌, ◌++◌, map, OnOk, IfOk};
ghost use Rattle.mdr_model.specs.Values.{names_block};
ghost use Rattle.mdr_model.specs.Memory.{swept, swept_block, killed, zero_block};
ghost use Rattle.mdr_model.specs.Copies.{inserted, without, with_news};

use crate::cell_types::cell_zero;
use crate::store::RisingBlocks;
use mdr_core::{Items, OutOfMemory, Program};
use mdr_model::{MemoryBlock, New, Wire};
use std::alloc::Global;

/// Whether a value is a pointer into the block with a serial.
pub fn names_block(serial: u64, value: Wire) -> bool
    ensures { result ≡ names_block serial value }
{
    match value {
        Wire::Ptr(view) => view.serial == serial,
        _ => false,
    }
}

fn swept(serial: u64, value: Wire) -> Wire
    ensures { result ≡ swept serial value }
{
    if names_block(serial, value) {
        Wire::Dead
    } else {
        value
    }
}

fn swept_cells(alloc: Global, serial: u64, cells: &[Wire]) -> Result<Items<Wire>, OutOfMemory>
    ensures { IfOk result (λ c. c ≡ map (swept serial) cells.now) }
{
    let mut out = Vec::new(alloc);
    for value in cells {
        out.push(swept(serial, *value))?;
    }
    Ok(Items::from_vec(out))
}

fn swept_block(alloc: Global, serial: u64, block: &MemoryBlock) -> Result<MemoryBlock, OutOfMemory>
    ensures { IfOk result (λ b. b ≡ swept_block serial block.now) }
{
    Ok(MemoryBlock {
        born: block.born,
        cells: swept_cells(alloc, serial, block.cells.as_slice())?,
    })
}

/// The memory when a block died: each pointer to it is a dead one.
#[tactic(auto, unfolding(mdr_model::specs::Memory::killed))]
fn killed(
    alloc: Global,
    serial: u64,
    memory: &[MemoryBlock],
) -> Result<Vec<MemoryBlock>, OutOfMemory>
    ensures { IfOk result (λ m. m.items ≡ killed serial memory.now) }
{
    let mut out = Vec::new(alloc);
    for block in memory {
        if block.born.serial != serial {
            out.push(swept_block(alloc, serial, block)?)?;
        }
    }
    Ok(out)
}

/// The same of a memory in order.
fn without_one(
    alloc: Global,
    serial: u64,
    memory: &RisingBlocks,
) -> Result<RisingBlocks, OutOfMemory>
    ensures { IfOk result (λ m. m ≡ killed serial memory.now) }
{
    let left = killed(alloc, serial, memory.as_slice())?;
    Ok(RisingBlocks::of(left))
}

/// The copy without the blocks that died. It fails only where the memory for it is missing.
#[tactic(auto, unfolding(mdr_model::specs::Copies::without))]
pub fn without(
    alloc: Global,
    deaths: &[u64],
    copy: RisingBlocks,
) -> Result<RisingBlocks, OutOfMemory>
    ensures { IfOk result (λ m. m ≡ without deaths.now copy) }
{
    let mut left = copy;
    for serial in deaths {
        left = without_one(alloc, *serial, &left)?;
    }
    Ok(left)
}

/// The cells of a block as it is born.
fn zero_cells(alloc: Global, program: &Program, new: New) -> Result<Items<Wire>, OutOfMemory>
    ensures { IfOk result (λ c. c ≡ (zero_block program.now new).cells) }
{
    let mut out = Vec::new(alloc);
    while let Some(zero) = cell_zero(program, new, out.as_slice().len() as u64) {
        out.push(zero)?;
    }
    Ok(Items::from_vec(out))
}

fn zero_block(alloc: Global, program: &Program, new: New) -> Result<MemoryBlock, OutOfMemory>
    ensures { IfOk result (λ b. b ≡ zero_block program.now new) }
{
    Ok(MemoryBlock {
        born: new,
        cells: zero_cells(alloc, program, new)?,
    })
}

fn put_new(
    alloc: Global,
    program: &Program,
    new: New,
    copy: &mut RisingBlocks,
) -> Result<(), OutOfMemory>
    ensures { OnOk result (copy.new ≡ inserted (zero_block program.now new) copy.old) }
{
    let block = zero_block(alloc, program, new)?;
    copy.insert(block)
}

/// Puts the new blocks into their places, the last first.
pub(crate) fn put_news(
    alloc: Global,
    program: &Program,
    news: &[New],
    copy: &mut RisingBlocks,
) -> Result<(), OutOfMemory>
    ensures { OnOk result (copy.new ≡ with_news program.now news.now copy.old) }
{
    let mut i = news.len();
    while i > 0 {
        i -= 1;
        put_new(alloc, program, news[i], copy)?;
    }
    Ok(())
}
