// Bytes that the user half's code reads as one access.

ghost use Rattle.std.specs.Prelude.{◌≡◌, ◌≤◌, ◌+◌, IfOk, map, nat_le};
ghost use Rattle.std.specs.List.{list_all};
ghost use Rattle.mdr_meaning.specs.declared.wire.Wire.TheVariants as wire;
ghost use Rattle.mdr_meaning.specs.Values.{wire_of, wire_view};
ghost use Rattle.mdr_model.specs.Sets.{cells_from, is_in};
ghost use Rattle.mdr_plain.specs.Storage.{byte_at, read};
ghost use Rattle.mdr_user_memory.specs.Spots.{bytes_if};

use crate::seen_memory::SeenMemory;
use crate::spot::Spot;
use mdr_copy::CellList;
use mdr_core::{Items, StopKind, Value, View};
use mdr_numbers::byte_in;
use std::alloc::{AllocError, Global};

fn bytes_from(
    memory: &SeenMemory,
    alloc: Global,
    serial: u64,
    first: usize,
    count: u32,
) -> Result<Items<u8>, AllocError>
    requires { first ≤ 8589934592 }
    ensures { IfOk result (λ bytes. bytes ≡ map (byte_at memory.now.memory) (cells_from serial first count)) }
{
    let mut bytes = Items::new(alloc);
    for i in 0..count {
        let held = memory.held(Spot {
            serial,
            index: first + i as usize,
        });
        bytes.push(byte_in(held))?;
    }
    Ok(bytes)
}

/// Whether cells that follow one another may be touched.
fn lie_in(view: &CellList, serial: u64, first: usize, count: u32) -> bool
    requires { first ≤ 8589934592 }
    ensures { result ≡ list_all (is_in view.now) (cells_from serial first count) }
{
    for i in 0..count {
        if !view.has(serial, first + i as usize) {
            return false;
        }
    }
    true
}

/// Whether so many elements lie from a pointer on.
fn has_room(p: View, count: u64) -> bool
    ensures { result ≡ nat_le (p.index + count) p.count }
{
    p.index as u128 + count as u128 <= p.count as u128
}

fn bytes_if(
    memory: &SeenMemory,
    alloc: Global,
    p: View,
    count: u32,
) -> Result<Result<Items<u8>, StopKind>, AllocError>
    ensures { IfOk result (λ bytes. bytes ≡ bytes_if memory.now.view memory.now.memory (wire_view p) count) }
{
    let first = p.first as usize + p.index as usize;
    if !lie_in(memory.view(), p.block.serial, first, count) {
        return Ok(Err(StopKind::Annotation));
    }
    let bytes = bytes_from(memory, alloc, p.block.serial, first, count)?;
    Ok(Ok(bytes))
}

fn read_view(
    memory: &SeenMemory,
    alloc: Global,
    p: View,
    count: u64,
) -> Result<Result<Items<u8>, StopKind>, AllocError>
    ensures { IfOk result (λ bytes. bytes ≡ read (is_in memory.now.view) memory.now.memory (wire.Ptr (wire_view p)) count) }
{
    if !memory.is_live(p.block.serial) {
        return Ok(Err(StopKind::Dead));
    }
    if !has_room(p, count) {
        return Ok(Err(StopKind::Bounds));
    }
    bytes_if(memory, alloc, p, count as u32)
}

/// So many bytes from a pointer on, as one access.
#[tactic(auto, unfolding(mdr_plain::specs::Storage::read))]
pub(crate) fn read(
    memory: &SeenMemory,
    alloc: Global,
    pointer: Value,
    count: u64,
) -> Result<Result<Items<u8>, StopKind>, AllocError>
    ensures { IfOk result (λ bytes. bytes ≡ read (is_in memory.now.view) memory.now.memory (wire_of pointer) count) }
{
    match pointer {
        Value::Ptr(p) => read_view(memory, alloc, p, count),
        Value::Dead => Ok(Err(StopKind::Dead)),
        Value::Int(_, _) => Ok(Err(StopKind::Null)),
        Value::Null => Ok(Err(StopKind::Null)),
        Value::Fn(_) => Ok(Err(StopKind::Null)),
        Value::Lock(_) => Ok(Err(StopKind::Null)),
        Value::NoValue => Ok(Err(StopKind::Null)),
    }
}
