// Accesses that stop for the set.

ghost use Rattle.std.specs.Prelude.{◌≡◌, ◌+◌, ◌≤◌, nat_le};
ghost use Rattle.std.specs.List.{list_all};
ghost use Rattle.mdr_extents.specs.CellOrder.{cells};
ghost use Rattle.mdr_meaning.specs.Values.{wire_of, wire_view};
ghost use Rattle.mdr_meaning.specs.declared.wire.Wire.TheVariants as wire;
ghost use Rattle.mdr_model.specs.Sets.{cells_from};
ghost use Rattle.mdr_paths.specs.Paths.{is_in};
ghost use Rattle.mdr_watch.specs.Guarding.{are_kept_out, is_kept_out};

use mdr_cells::CellSet;
use mdr_core::{Value, View};
use mdr_world::World;

fn is_view_kept_out(world: &World, set: &CellSet, p: View) -> bool
    ensures { result ≡ is_kept_out set.now world.now.world.memory (wire.Ptr (wire_view p)) }
{
    if !world.is_live(p.block) {
        return false;
    }
    if p.index >= p.count {
        return false;
    }
    !set.has(p.block.serial, p.first as u64 + p.index as u64)
}

/// Whether the block of a pointer lives and its index is in range, but its cell isn't in the set.
pub(crate) fn is_kept_out(world: &World, set: &CellSet, pointer: Value) -> bool
    ensures { result ≡ is_kept_out set.now world.now.world.memory (wire_of pointer) }
{
    match pointer {
        Value::Ptr(p) => is_view_kept_out(world, set, p),
        Value::Dead => false,
        Value::Int(_, _) => false,
        Value::Null => false,
        Value::Fn(_) => false,
        Value::Lock(_) => false,
        Value::NoValue => false,
    }
}

/// Whether so many neighbours are in the set.
fn has_all(set: &CellSet, serial: u64, first: u64, count: u32) -> bool
    requires { first ≤ 8589934592 }
    ensures { result ≡ list_all (is_in cells set.now) (cells_from serial first count) }
{
    let mut i = 0;
    while i < count {
        if !set.has(serial, first + i as u64) {
            return false;
        }
        i += 1;
    }
    true
}

/// Whether so many elements lie from a pointer on.
fn has_room(p: View, count: u64) -> bool
    ensures { result ≡ nat_le (p.index + count) p.count }
{
    p.index as u128 + count as u128 <= p.count as u128
}

fn is_read_kept_out(world: &World, set: &CellSet, p: View, count: u64) -> bool
    ensures { result ≡ are_kept_out set.now world.now.world.memory (wire.Ptr (wire_view p)) count }
{
    if !world.is_live(p.block) {
        return false;
    }
    if !has_room(p, count) {
        return false;
    }
    !has_all(
        set,
        p.block.serial,
        p.first as u64 + p.index as u64,
        count as u32,
    )
}

/// Whether the block of a pointer lives and so many elements lie from it on, but not all of their cells are in the set.
pub(crate) fn are_kept_out(world: &World, set: &CellSet, pointer: Value, count: u64) -> bool
    ensures { result ≡ are_kept_out set.now world.now.world.memory (wire_of pointer) count }
{
    match pointer {
        Value::Ptr(p) => is_read_kept_out(world, set, p, count),
        Value::Dead => false,
        Value::Int(_, _) => false,
        Value::Null => false,
        Value::Fn(_) => false,
        Value::Lock(_) => false,
        Value::NoValue => false,
    }
}
