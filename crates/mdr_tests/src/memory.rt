// Memories of cells and pairs, with ample memory: where blocks lie, what cells hold, and which block a serial has.

use mdr_core::{Block, Kind, Shape, Value};
use mdr_mem::{Blocks, Cells};
use mdr_model::BirthKind;
use mdr_region::Region;
use mdr_track::Tracker;
use std::alloc::Global;
use std::test::Fail;

const FOUR: &[Value] = &[Value::Null, Value::Null, Value::Null, Value::Null];

const THREE: &[Value] = &[Value::Null, Value::Null, Value::Null];

const TWO: &[Value] = &[Value::Null, Value::Int(Kind::U32, 5)];

const ONE: &[Value] = &[Value::Null];

/// A block with these values.
fn born(alloc: Global, memory: &mut impl Cells, first: &[Value]) -> Result<Block, Fail> {
    let cells = first.len();
    if cells == 0 || cells > 65536 {
        return Err("a block has a cell".into());
    }
    let shape = Shape { ty: 0, count: 1 };
    match memory.birth(alloc, BirthKind::Heap, shape, first) {
        Ok(block) => Ok(block),
        Err(_) => Err("memory was wanting".into()),
    }
}

/// The block dies, if it lives.
fn ended(memory: &mut impl Cells, block: Block) {
    if memory.alive(block) {
        memory.kill(block);
    }
}

fn is_laid(region: &Region, used: u64, top: u64) -> bool {
    let places = region.layout();
    places.0 == used && places.1 == top
}

#[test]
fn a_birth_takes_the_first_hole_that_fits(rt: HostRuntime) -> Result<(), Fail> {
    let alloc = rt.alloc();
    let mut region = Region::new(alloc);
    born(alloc, &mut region, THREE)?;
    let second = born(alloc, &mut region, TWO)?;
    born(alloc, &mut region, FOUR)?;
    ended(&mut region, second);
    born(alloc, &mut region, ONE)?;
    born(alloc, &mut region, TWO)?;
    let laid = is_laid(&region, 10, 11);
    drop(region);
    assert!(rt; laid);
    Ok(())
}

#[test]
fn holes_that_touch_are_one(rt: HostRuntime) -> Result<(), Fail> {
    let alloc = rt.alloc();
    let mut region = Region::new(alloc);
    let first = born(alloc, &mut region, TWO)?;
    let second = born(alloc, &mut region, TWO)?;
    born(alloc, &mut region, TWO)?;
    born(alloc, &mut region, ONE)?;
    ended(&mut region, first);
    ended(&mut region, second);
    born(alloc, &mut region, THREE)?;
    let laid = is_laid(&region, 6, 7);
    drop(region);
    assert!(rt; laid);
    Ok(())
}

/// Whether a cell of a block holds the number 7.
fn holds_seven(memory: &Blocks, block: Block, cell: usize) -> bool {
    if !memory.alive(block) {
        return false;
    }
    match memory.cells(block).get(cell) {
        Some(Value::Int(_, n)) => *n == 7,
        _ => false,
    }
}

fn seven_put(memory: &mut Blocks, block: Block, cell: u64) {
    if memory.alive(block) {
        memory.put(block, cell, Value::Int(Kind::U32, 7));
    }
}

#[test]
fn the_plain_memory_keeps_what_is_stored(rt: HostRuntime) -> Result<(), Fail> {
    let alloc = rt.alloc();
    let mut memory = Blocks::new(alloc);
    let first = born(alloc, &mut memory, TWO)?;
    let second = born(alloc, &mut memory, TWO)?;
    seven_put(&mut memory, first, 1);
    let stored = holds_seven(&memory, first, 1) && !holds_seven(&memory, second, 1);
    ended(&mut memory, first);
    let died = !memory.alive(first) && memory.alive(second) && memory.find(0).is_none();
    let third = born(alloc, &mut memory, ONE)?;
    let anew = memory.alive(third) && !memory.alive(first) && memory.births() == 3;
    drop(memory);
    assert!(rt; stored && died && anew);
    Ok(())
}

/// A serial is paired with a block, where room was promised and neither has a pair. Whether it is.
fn paired(pairs: &mut Tracker, serial: u64, block: Block) -> bool {
    if pairs.spare() == 0 {
        return false;
    }
    match (pairs.user_of(serial), pairs.serial_of(block)) {
        (None, None) => {
            pairs.pair(serial, block);
            true
        }
        _ => false,
    }
}

fn is_block(found: Option<Block>, block: Block) -> bool {
    match found {
        Some(it) => it.slot == block.slot && it.serial == block.serial,
        None => false,
    }
}

fn is_serial(found: Option<u64>, serial: u64) -> bool {
    match found {
        Some(it) => it == serial,
        None => false,
    }
}

#[test]
fn a_pair_is_found_by_both_and_by_none_behind_its_death(rt: HostRuntime) -> Result<(), Fail> {
    let block = Block { slot: 2, serial: 3 };
    let mut pairs = Tracker::new(rt.alloc());
    let promised = pairs.reserve(1).is_ok() && pairs.spare() == 1;
    let first = paired(&mut pairs, 9, block) && pairs.spare() == 0;
    let found = is_block(pairs.user_of(9), block) && is_serial(pairs.serial_of(block), 9);
    pairs.drop_pair(9);
    let gone = pairs.user_of(9).is_none() && pairs.serial_of(block).is_none();
    drop(pairs);
    assert!(rt; promised && first && found && gone);
    Ok(())
}
