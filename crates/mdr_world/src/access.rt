// What code does to cells.

ghost use Rattle.std.specs.Prelude.{◌≡◌, ◌+◌, ◌≤◌, false, IfOk, IfSome, IsTrue, Ok, OnErr, Some, map, nat_le, option_map, slice_get, true};
ghost use Rattle.mdr_core.specs.declared.value.Value.TheVariants as value;
ghost use Rattle.mdr_events.specs.Integers.{IsFirst, integer_wire};
ghost use Rattle.mdr_events.specs.Outcomes.{when_made, wired};
ghost use Rattle.mdr_mem.specs.Contents.{cell_in, is_handle};
ghost use Rattle.mdr_meaning.specs.Values.{wire_of, wire_view};
ghost use Rattle.mdr_model.specs.Memory.{cell_at, cell_of, everywhere, loaded, loaded_cell, loaded_value, normal, put, reached_by, stored};
ghost use Rattle.mdr_model.specs.Sets.{cells_from};
ghost use Rattle.mdr_plain.specs.Scripts.{poked_memory, poked_value};
ghost use Rattle.mdr_plain.specs.Storage.{byte_at, bytes_from, cells_read, fresh, read};
ghost use Rattle.mdr_world.specs.Reaching.{with_memory};
ghost use Rattle.mdr_meaning.specs.declared.wire.Wire.TheVariants as wire;
ghost use Rattle.mdr_meaning.specs.declared.wire.WireView.{WireView};

use crate::handles::{handle, held_now, value_now};
use crate::reach::{Target, reached};
use mdr_core::{Block, Items, StopKind, Value, View};
use mdr_events::Integer;
use mdr_mem::Cells;
use mdr_numbers::byte_in;
use mdr_region::RegionBlocks;
use std::alloc::{AllocError, Global};

// ---- one cell

fn item(values: &[Value], i: usize) -> Option<Value>
    ensures { result ≡ slice_get values.now i }
{
    match values.get(i) {
        Some(v) => Some(*v),
        None => None,
    }
}

/// What a cell holds, where the block has it.
pub fn held_at(blocks: &RegionBlocks, t: Target) -> Option<Value>
    requires { IsTrue (is_handle blocks.now.handles t.block) }
    ensures { option_map wire_of result ≡ cell_at blocks.now.memory (cell_in t.block t.index) }
{
    match item(blocks.cells(t.block), t.index as usize) {
        Some(v) => Some(held_now(blocks, v)),
        None => None,
    }
}

/// A dead pointer isn't loaded.
fn loadable(v: Value) -> Result<Value, StopKind>
    ensures { wired result ≡ loaded_value (wire_of v) }
{
    match v {
        Value::Dead => Err(StopKind::Dead),
        _ => Ok(v),
    }
}

fn loaded_at(blocks: &RegionBlocks, t: Target) -> Result<Value, StopKind>
    requires { IsTrue (is_handle blocks.now.handles t.block) }
    ensures { wired result ≡ loaded_cell (cell_at blocks.now.memory (cell_in t.block t.index)) }
{
    match held_at(blocks, t) {
        Some(v) => loadable(v),
        None => Err(StopKind::Dead),
    }
}

/// What is loaded through a pointer.
#[tactic(auto, unfolding(mdr_model::specs::Memory::loaded))]
pub fn load(blocks: &RegionBlocks, pointer: Value) -> Result<Value, StopKind>
    ensures { wired result ≡ loaded everywhere blocks.now.memory (wire_of pointer) }
{
    match reached(blocks, pointer) {
        Ok(t) => loaded_at(blocks, t),
        Err(kind) => Err(kind),
    }
}

/// What a local's value is when it is read.
#[tactic(auto, unfolding(mdr_plain::specs::Storage::fresh))]
pub fn fresh(blocks: &RegionBlocks, v: Value) -> Result<Value, StopKind>
    ensures { wired result ≡ fresh blocks.now.memory (wire_of v) }
{
    loadable(value_now(blocks, v))
}

fn put_now(blocks: &mut RegionBlocks, t: Target, v: Value)
    requires { IsTrue (is_handle blocks.old.handles t.block) }
    ensures { blocks.new ≡ with_memory (put blocks.old.memory (cell_in t.block t.index) (normal blocks.old.memory (wire_of v))) blocks.old }
{
    let now = value_now(blocks, v);
    blocks.put(t.block, t.index, now);
}

/// A value is stored through a pointer.
#[tactic(auto, unfolding(mdr_model::specs::Memory::stored))]
pub fn store(blocks: &mut RegionBlocks, pointer: Value, v: Value) -> Result<(), StopKind>
    ensures made { stored everywhere blocks.old.memory (wire_of pointer) (wire_of v) ≡ when_made result blocks.new.memory }
    ensures rest { blocks.new ≡ with_memory blocks.new.memory blocks.old }
    ensures kept { OnErr result (blocks.new ≡ blocks.old) }
{
    match reached(blocks, pointer) {
        Ok(t) => {
            put_now(blocks, t, v);
            Ok(())
        }
        Err(kind) => Err(kind),
    }
}

/// Puts a value into a cell of the block with this serial. Where there is no such cell nothing is done.
pub fn put_at(blocks: &mut RegionBlocks, serial: u64, index: u64, v: Value)
    ensures { blocks.new ≡ with_memory (put blocks.old.memory (record { serial = serial; index = index }) (normal blocks.old.memory (wire_of v))) blocks.old }
{
    let _in_order = blocks.births();
    match blocks.find(serial) {
        Some(block) => put_now(blocks, Target { block, index }, v),
        None => (),
    }
}

// ---- the first cell of a block

/// The handle of the live block with this serial, where its slot has the same number.
fn block_with(blocks: &RegionBlocks, serial: u64) -> Option<Block>
    ensures alive { IfSome result (λ b. IsTrue (is_handle blocks.now.handles b)) }
    ensures serial { IfSome result (λ b. b.serial ≡ serial) }
{
    if serial > 4294967295 {
        return None;
    }
    let block = Block {
        slot: serial as u32,
        serial,
    };
    if blocks.alive(block) {
        Some(block)
    } else {
        None
    }
}

/// The first of these values, if it is an integer.
fn first_integer(values: &[Value]) -> Option<Integer>
    ensures { IfSome result (λ n. slice_get values.now 0 ≡ Some (value.Int n.kind n.number)) }
{
    match values.first() {
        Some(Value::Int(kind, number)) => Some(Integer {
            kind: *kind,
            number: *number,
        }),
        _ => None,
    }
}

/// The integer in a block's first cell.
fn first_in(blocks: &RegionBlocks, block: Block) -> Option<Integer>
    requires { IsTrue (is_handle blocks.now.handles block) }
    ensures { IfSome result (λ n. cell_at blocks.now.memory (cell_in block 0) ≡ Some (integer_wire n)) }
{
    first_integer(blocks.cells(block))
}

/// The integer in the first cell of the block with this serial, where it is found at once.
pub fn first(blocks: &RegionBlocks, serial: u64) -> Option<Integer>
    ensures { IfSome result (λ n. (v : WireView) → IsFirst serial v → loaded everywhere blocks.now.memory (wire.Ptr v) ≡ Ok (integer_wire n)) }
{
    let _in_order = blocks.births();
    match block_with(blocks, serial) {
        Some(block) => first_in(blocks, block),
        None => None,
    }
}

/// Puts an integer into a block's first cell.
#[tactic(auto, unfolding(mdr_mem::specs::Contents::current))]
fn put_first(blocks: &mut RegionBlocks, block: Block, integer: Integer)
    requires { IsTrue (is_handle blocks.old.handles block) }
    ensures { blocks.new ≡ with_memory (put blocks.old.memory (cell_in block 0) (integer_wire integer)) blocks.old }
{
    blocks.put(block, 0, Value::Int(integer.kind, integer.number));
}

/// Puts an integer there, if the block is found at once.
pub fn set_first(blocks: &mut RegionBlocks, serial: u64, integer: Integer) -> bool
    ensures made { result ≡ true → (v : WireView) → IsFirst serial v → stored everywhere blocks.old.memory (wire.Ptr v) (integer_wire integer) ≡ Ok blocks.new.memory }
    ensures rest { blocks.new ≡ with_memory blocks.new.memory blocks.old }
    ensures kept { result ≡ false → blocks.new ≡ blocks.old }
{
    let _in_order = blocks.births();
    match block_with(blocks, serial) {
        Some(block) => {
            put_first(blocks, block, integer);
            true
        }
        None => false,
    }
}

// ---- an integer where one is held

/// What is put where a value is held: an integer, where one of a kind is held that has it.
fn poked_value(held: Value, n: i128) -> Option<Integer>
    ensures { option_map integer_wire result ≡ poked_value (Some (wire_of held)) n }
{
    match held {
        Value::Int(kind, _) => {
            if kind.contains(n) {
                Some(Integer { kind, number: n })
            } else {
                None
            }
        }
        Value::Null => None,
        Value::Ptr(_) => None,
        Value::Dead => None,
        Value::Fn(_) => None,
        Value::Lock(_) => None,
        Value::NoValue => None,
    }
}

fn poked_in(values: &[Value], cell: usize, n: i128) -> Option<Integer>
    ensures { option_map integer_wire result ≡ poked_value (option_map wire_of (slice_get values.now cell)) n }
{
    match item(values, cell) {
        Some(held) => poked_value(held, n),
        None => None,
    }
}

/// What is put into a block's cell.
fn poked_cell(blocks: &RegionBlocks, block: Block, cell: u32, n: i128) -> Option<Integer>
    requires { IsTrue (is_handle blocks.now.handles block) }
    ensures { option_map integer_wire result ≡ poked_value (cell_at blocks.now.memory (cell_in block cell)) n }
{
    poked_in(blocks.cells(block), cell as usize, n)
}

/// Puts an integer into a block's cell.
#[tactic(auto, unfolding(mdr_mem::specs::Contents::current))]
fn put_integer(blocks: &mut RegionBlocks, block: Block, cell: u32, integer: Integer)
    requires { IsTrue (is_handle blocks.old.handles block) }
    ensures { blocks.new ≡ with_memory (put blocks.old.memory (cell_in block cell) (integer_wire integer)) blocks.old }
{
    blocks.put(block, cell as u64, Value::Int(integer.kind, integer.number));
}

fn poke_block(blocks: &mut RegionBlocks, block: Block, cell: u32, n: i128)
    requires { IsTrue (is_handle blocks.old.handles block) }
    ensures { blocks.new ≡ with_memory (poked_memory (cell_in block cell) n blocks.old.memory) blocks.old }
{
    match poked_cell(blocks, block, cell, n) {
        Some(integer) => put_integer(blocks, block, cell, integer),
        None => (),
    }
}

/// Puts an integer into a cell of the block with this serial, where the cell holds one of a kind that has it.
pub fn poke(blocks: &mut RegionBlocks, serial: u64, index: u32, n: i128)
    ensures { blocks.new ≡ with_memory (poked_memory (record { serial = serial; index = index }) n blocks.old.memory) blocks.old }
{
    let _in_order = blocks.births();
    match blocks.find(serial) {
        Some(block) => poke_block(blocks, block, index, n),
        None => (),
    }
}

// ---- bytes

fn bytes_in(
    blocks: &RegionBlocks,
    alloc: Global,
    block: Block,
    first: u64,
    count: u32,
) -> Result<Items<u8>, AllocError>
    requires alive { IsTrue (is_handle blocks.now.handles block) }
    requires few { first ≤ 8589934592 }
    ensures { IfOk result (λ bytes. bytes ≡ map (byte_at blocks.now.memory) (cells_from block.serial first count)) }
{
    let mut bytes = Items::new(alloc);
    let mut i = 0;
    while i < count {
        let held = held_at(
            blocks,
            Target {
                block,
                index: first + i as u64,
            },
        );
        bytes.push(byte_in(held))?;
        i += 1;
    }
    Ok(bytes)
}

/// Whether so many elements lie from a pointer on.
fn has_room(p: View, count: u64) -> bool
    ensures { result ≡ nat_le (p.index + count) p.count }
{
    p.index as u128 + count as u128 <= p.count as u128
}

fn read_in(
    blocks: &RegionBlocks,
    alloc: Global,
    block: Block,
    p: View,
    count: u64,
) -> Result<Result<Items<u8>, StopKind>, AllocError>
    requires alive { IsTrue (is_handle blocks.now.handles block) }
    requires serial { block.serial ≡ p.block.serial }
    ensures { IfOk result (λ bytes. bytes ≡ bytes_from blocks.now.memory (cells_read (wire_view p) count) (reached_by true (nat_le (p.index + count) p.count) true (cell_of (wire_view p)))) }
{
    if has_room(p, count) {
        let first = p.first as u64 + p.index as u64;
        Ok(Ok(bytes_in(blocks, alloc, block, first, count as u32)?))
    } else {
        Ok(Err(StopKind::Bounds))
    }
}

fn read_view(
    blocks: &RegionBlocks,
    alloc: Global,
    p: View,
    count: u64,
) -> Result<Result<Items<u8>, StopKind>, AllocError>
    ensures { IfOk result (λ bytes. bytes ≡ read everywhere blocks.now.memory (wire.Ptr (wire_view p)) count) }
{
    let _in_order = blocks.births();
    match handle(blocks, p.block) {
        Some(block) => read_in(blocks, alloc, block, p, count),
        None => Ok(Err(StopKind::Dead)),
    }
}

/// So many bytes from a pointer on, as one access.
#[tactic(auto, unfolding(mdr_plain::specs::Storage::read))]
pub fn read(
    blocks: &RegionBlocks,
    alloc: Global,
    pointer: Value,
    count: u64,
) -> Result<Result<Items<u8>, StopKind>, AllocError>
    ensures { IfOk result (λ bytes. bytes ≡ read everywhere blocks.now.memory (wire_of pointer) count) }
{
    match pointer {
        Value::Ptr(p) => read_view(blocks, alloc, p, count),
        Value::Dead => Ok(Err(StopKind::Dead)),
        Value::Int(_, _) => Ok(Err(StopKind::Null)),
        Value::Null => Ok(Err(StopKind::Null)),
        Value::Fn(_) => Ok(Err(StopKind::Null)),
        Value::Lock(_) => Ok(Err(StopKind::Null)),
        Value::NoValue => Ok(Err(StopKind::Null)),
    }
}
