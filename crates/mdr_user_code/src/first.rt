// The memory in which a run begins.

ghost use Rattle.std.specs.Prelude.{◌≡◌, ◌≤◌, IfOk, length};
ghost use Rattle.mdr_core.specs.Sound.{HasFewNumbers};
ghost use Rattle.mdr_meaning.specs.Bodies.{known_of};
ghost use Rattle.mdr_plain.specs.Storage.{first_memory, global_block, global_blocks};

use crate::values::wires_of;
use mdr_copy::RisingBlocks;
use mdr_core::{GlobalDef, OutOfMemory, Program};
use mdr_model::{BirthKind, MemoryBlock, New};
use mdr_numbers::number_of;
use std::alloc::Global;

fn global_born(program: &Program, serial: u64, global: &GlobalDef) -> New
    requires { length program.now.types ≤ 16777216 }
    ensures { result ≡ (global_block (known_of program.now) serial global.now).born }
{
    let ty = number_of(program.types.as_slice(), &global.ty);
    New {
        serial,
        kind: BirthKind::Static,
        ty,
        count: global.count,
    }
}

fn global_block(
    alloc: Global,
    program: &Program,
    serial: u64,
    global: &GlobalDef,
) -> Result<MemoryBlock, OutOfMemory>
    requires { length program.now.types ≤ 16777216 }
    ensures { IfOk result (λ b. b ≡ global_block (known_of program.now) serial global.now) }
{
    let cells = wires_of(alloc, global.init.as_slice())?;
    Ok(MemoryBlock {
        born: global_born(program, serial, global),
        cells,
    })
}

fn global_blocks(
    alloc: Global,
    program: &Program,
    globals: &[GlobalDef],
) -> Result<Vec<MemoryBlock>, OutOfMemory>
    requires { length program.now.types ≤ 16777216 }
    ensures { IfOk result (λ m. m.items ≡ global_blocks (known_of program.now) 0 globals.now) }
{
    let mut blocks = Vec::new(alloc);
    for (serial, global) in globals.iter().enumerate() {
        blocks.push(global_block(alloc, program, serial as u64, global)?)?;
    }
    Ok(blocks)
}

/// The globals, born in their order, so that a global's serial is its number.
#[tactic(auto, unfolding(mdr_plain::specs::Storage::first_memory))]
pub(crate) fn first_memory(alloc: Global, program: &Program) -> Result<RisingBlocks, OutOfMemory>
    requires { HasFewNumbers program.now }
    ensures { IfOk result (λ m. m ≡ first_memory (known_of program.now)) }
{
    let blocks = global_blocks(alloc, program, program.globals.as_slice())?;
    Ok(RisingBlocks::of(blocks))
}
