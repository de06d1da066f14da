// Cells of a memory.

ghost use Rattle.std.specs.Prelude.{◌≡◌, [], slice_get, slice_set, length, IfSome, MatchOption, OnOk, ◌<◌, ◌≤◌};
ghost use Rattle.mdr_copy.specs.InPlaces.{place_for};
ghost use Rattle.mdr_copy.specs.Searches.{IsFirstAt, IsNowhere};
ghost use Rattle.mdr_copy.specs.Serials.{Rise, is_block};
ghost use Rattle.mdr_model.specs.Memory.{is_live, born_at, cell_at, put};
ghost use Rattle.mdr_model.specs.Copies.{held, inserted, numbered, put_all, put_runs};

use mdr_core::OutOfMemory;
use mdr_model::{Cell, MemoryBlock, New, Run, Wire};
use std::alloc::Global;
use std::marker::Model;

/// The blocks of a memory in the order of their serials, among which a block is found in logarithmic time. Contracts see
/// the list of the blocks.
#[derive(Drop)]
pub struct RisingBlocks {
    blocks: Vec<MemoryBlock>,
}

impl Model for RisingBlocks {
    ghost use Rattle.std.specs.Prelude.{List};
    ghost use Rattle.mdr_model.specs.declared.memory.MemoryBlock.{MemoryBlock};
    ghost use Rattle.mdr_copy.specs.Serials.{Rise};

    ghost Value = { List MemoryBlock };

    ghost view = { λ s. s.blocks.items };

    ghost invariant = { λ s. Rise s.blocks.items };
}

// ---- where a block stands

/// How many blocks stand before the place of a serial.
fn place_for(blocks: &[MemoryBlock], serial: u64) -> usize
    requires { Rise blocks.now }
    ensures place { result ≡ place_for blocks.now serial }
    ensures bound { result ≤ length blocks.now }
{
    blocks.partition_point(|b| b.born.serial < serial)
}

fn is_block(block: &MemoryBlock, serial: u64) -> bool
    ensures { result ≡ is_block serial block.now }
{
    block.born.serial == serial
}

/// A place, where the block with a serial stands there. It is that of the first block whose serial isn't smaller.
fn place_if(blocks: &[MemoryBlock], place: usize, serial: u64) -> Option<usize>
    requires rise { Rise blocks.now }
    requires place { place ≡ place_for blocks.now serial }
    requires inside { place < length blocks.now }
    ensures stands { MatchOption result (IsNowhere (is_block serial) blocks.now) (IsFirstAt (is_block serial) blocks.now) }
    ensures inside { IfSome result (λ i. i < length blocks.now) }
{
    if is_block(&blocks[place], serial) {
        Some(place)
    } else {
        None
    }
}

/// Where the block with a serial stands.
fn place_of(blocks: &[MemoryBlock], serial: u64) -> Option<usize>
    requires { Rise blocks.now }
    ensures stands { MatchOption result (IsNowhere (is_block serial) blocks.now) (IsFirstAt (is_block serial) blocks.now) }
    ensures inside { IfSome result (λ i. i < length blocks.now) }
{
    let place = place_for(blocks, serial);
    if place < blocks.len() {
        place_if(blocks, place, serial)
    } else {
        None
    }
}

fn born_in(blocks: &[MemoryBlock], serial: u64) -> Option<New>
    requires { Rise blocks.now }
    ensures { result ≡ born_at blocks.now serial }
{
    match place_of(blocks, serial) {
        Some(i) => Some(blocks[i].born),
        None => None,
    }
}

fn cell_of(block: &MemoryBlock, index: usize) -> Option<Wire>
    ensures { result ≡ slice_get block.now.cells index }
{
    block.cells.as_slice().get(index).copied()
}

fn cell_in(blocks: &[MemoryBlock], serial: u64, index: usize) -> Option<Wire>
    requires { Rise blocks.now }
    ensures { result ≡ cell_at blocks.now (record { serial = serial; index = index }) }
{
    match place_of(blocks, serial) {
        Some(i) => cell_of(&blocks[i], index),
        None => None,
    }
}

fn set_cell(block: &mut MemoryBlock, index: usize, value: Wire)
    ensures { block.new ≡ record block.old { cells = slice_set block.old.cells index value } }
{
    block.cells.set(index, value);
}

fn put_in(blocks: &mut [MemoryBlock], serial: u64, index: usize, value: Wire)
    requires { Rise blocks.old }
    ensures put { blocks.new ≡ put blocks.old (record { serial = serial; index = index }) value }
    ensures rises { Rise blocks.new }
{
    match place_of(blocks, serial) {
        Some(i) => set_cell(&mut blocks[i], index, value),
        None => {}
    }
}

/// Puts a block into its place.
#[tactic(auto, using(crate::proofs::Inserted::in_its_place, crate::proofs::Inserted::place_inside, crate::proofs::Orders::rises_with))]
fn insert_in(copy: &mut Vec<MemoryBlock>, block: MemoryBlock) -> Result<(), OutOfMemory>
    requires { Rise copy.old.items }
    ensures inserted { OnOk result (copy.new.items ≡ inserted block copy.old.items) }
    ensures rises { Rise copy.new.items }
{
    let place = place_for(copy.as_slice(), block.born.serial);
    copy.insert(place, block)?;
    Ok(())
}

impl RisingBlocks {
    /// No blocks. It takes no memory.
    pub fn new(alloc: Global) -> RisingBlocks
        ensures { result ≡ [] }
    {
        RisingBlocks {
            blocks: Vec::new(alloc),
        }
    }

    /// Blocks that are in order.
    pub fn of(blocks: Vec<MemoryBlock>) -> RisingBlocks
        requires { Rise blocks.items }
        ensures { result ≡ blocks.items }
    {
        RisingBlocks { blocks }
    }

    /// Lends the blocks.
    pub fn as_slice(&self) -> &[MemoryBlock]
        ensures blocks { result.now ≡ self.now }
        ensures rises { Rise self.now }
    {
        self.blocks.as_slice()
    }

    /// Gives the blocks away.
    pub fn into_vec(self) -> Vec<MemoryBlock>
        ensures { result.items ≡ self }
    {
        self.blocks
    }

    fn put(&mut self, serial: u64, index: usize, value: Wire)
        ensures { self.new ≡ put self.old (record { serial = serial; index = index }) value }
    {
        put_in(&mut self.blocks, serial, index, value);
    }

    /// Puts a block into its place. Where memory is wanting the blocks are as before.
    pub(crate) fn insert(&mut self, block: MemoryBlock) -> Result<(), OutOfMemory>
        ensures { OnOk result (self.new ≡ inserted block self.old) }
    {
        insert_in(&mut self.blocks, block)
    }
}

// ---- what is there

/// Whether the block with a serial is live.
#[tactic(auto, unfolding(mdr_model::specs::Memory::is_live))]
pub fn is_live(memory: &RisingBlocks, serial: u64) -> bool
    ensures { result ≡ is_live memory.now serial }
{
    born_at(memory, serial).is_some()
}

/// The block with a serial, as it was born, where it is live.
pub fn born_at(memory: &RisingBlocks, serial: u64) -> Option<New>
    ensures { result ≡ born_at memory.now serial }
{
    born_in(memory.as_slice(), serial)
}

/// What the cell of a block holds at an index, where the block is live and has it.
pub fn held_at(memory: &RisingBlocks, serial: u64, index: usize) -> Option<Wire>
    ensures { result ≡ cell_at memory.now (record { serial = serial; index = index }) }
{
    cell_in(memory.as_slice(), serial, index)
}

/// What a cell holds, where its block is live and has it.
pub fn cell_at(memory: &RisingBlocks, cell: Cell) -> Option<Wire>
    ensures { result ≡ cell_at memory.now cell }
{
    held_at(memory, cell.serial, cell.index as usize)
}

/// What a cell holds, or no value where its block isn't live or hasn't the cell.
#[tactic(auto, unfolding(mdr_model::specs::Copies::held))]
pub fn held(memory: &RisingBlocks, cell: Cell) -> Wire
    ensures { result ≡ held memory.now cell }
{
    cell_at(memory, cell).unwrap_or(Wire::NoValue)
}

// ---- values that are stored

/// Puts a value into a cell of a block. Where there is none, nothing is done. It takes no memory.
pub fn put(memory: &mut RisingBlocks, serial: u64, index: usize, value: Wire)
    ensures { memory.new ≡ put memory.old (record { serial = serial; index = index }) value }
{
    memory.put(serial, index, value);
}

/// Puts values into cells that follow one another.
#[tactic(auto, unfolding(mdr_model::specs::Copies::put_all, mdr_model::specs::Copies::numbered))]
fn put_row(memory: &mut RisingBlocks, serial: u64, first: u32, values: &[Wire])
    ensures { memory.new ≡ put_all (numbered serial first values.now) memory.old }
{
    for (i, value) in values.iter().enumerate() {
        put(memory, serial, first as usize + i, *value);
    }
}

/// Stores runs. What lies in no block is left out. It takes no memory.
#[tactic(auto, using(crate::proofs::Stores::put_runs_cons))]
pub fn put_runs(memory: &mut RisingBlocks, runs: &[Run])
    ensures { memory.new ≡ put_runs runs.now memory.old }
{
    for run in runs {
        put_row(memory, run.serial, run.first, run.values.as_slice());
    }
}
