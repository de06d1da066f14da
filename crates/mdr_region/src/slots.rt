// Rows in slots, as a slab keeps them.

ghost use Rattle.std.specs.Prelude.{◌≡◌, ◌<◌, ◌≤◌, ◌+◌, ◌^◌, length, map, IsOk, IfOk, OnOk, OnErr, IsTrue, Some, vec_capacity};
ghost use Rattle.slab.specs.Slab.{HasRoomFor, SameValues, slab_len};
ghost use Rattle.mdr_region.specs.Slots.{is_there, row_in, current_at, settled};

use mdr_core::{Block, Limit, OutOfMemory, Value};
use mdr_model::{BirthKind, New};
use slab::Slab;

/// How a block was born, and where it lies.
#[derive(Clone, Copy)]
pub struct Row {
    pub born: New,
    pub start: usize,
    pub cells: u32,
}

// More slots than the number of a handle's slot can tell.
const TOO_MANY: usize = 4294967296;

/// Whether the handle's block lives, in constant time.
pub fn is_alive(rows: &Slab<Row>, b: Block) -> bool
    ensures { result ≡ is_there rows.now.slots b }
{
    match rows.get(b.slot as usize) {
        Some(r) => r.born.serial == b.serial,
        None => false,
    }
}

/// The row of a live handle.
pub fn row_at(rows: &Slab<Row>, b: Block) -> Row
    requires { IsTrue (is_there rows.now.slots b) }
    ensures { row_in rows.now.slots b.slot ≡ Some result }
{
    match rows.get(b.slot as usize) {
        Some(r) => *r,
        None => unreachable!(),
    }
}

/// A pointer whose handle isn't alive is a dead one.
#[tactic(auto, unfolding(crate::specs::Slots::current_at))]
pub fn current_in(rows: &Slab<Row>, v: Value) -> Value
    ensures { result ≡ current_at rows.now.slots v }
{
    match v {
        Value::Ptr(p) => {
            if is_alive(rows, p.block) {
                v
            } else {
                Value::Dead
            }
        }
        _ => v,
    }
}

/// Puts values into cells one after another, as they are now.
#[tactic(auto, unfolding(crate::specs::Slots::settled))]
pub fn settle(values: &mut Vec<Value>, rows: &Slab<Row>, start: usize, first: &[Value])
    requires { start + length first.now ≤ length values.old.items }
    ensures values { values.new.items ≡ settled (current_at rows.now.slots) start first.now values.old.items }
    ensures length { length values.new.items ≡ length values.old.items }
    ensures capacity { vec_capacity values.new ≡ vec_capacity values.old }
{
    for i in 0..first.len() {
        values[start + i] = current_in(rows, first[i]);
    }
}

/// The slot of the next row. A slab says that a slot is below its capacity where it gives one out, so this one is
/// given out and taken back.
pub fn next_slot(rows: &mut Slab<Row>) -> Result<u32, OutOfMemory>
    requires { HasRoomFor rows.old 1 }
    ensures slot { IfOk result (λ slot. slot ≡ rows.new.vacant_key) }
    ensures same { SameValues rows.old rows.new }
    ensures len { slab_len rows.new ≡ slab_len rows.old }
    ensures capacity { rows.new.capacity ≡ rows.old.capacity }
    ensures succeeds { rows.old.capacity ≤ 2 ^ 32 → IsOk result }
{
    let slot = rows.insert_reserved(no_row());
    rows.remove(slot);
    if slot >= TOO_MANY {
        return Err(Limit::Blocks.past());
    }
    Ok(slot as u32)
}

fn no_row() -> Row {
    Row {
        born: New {
            serial: 0,
            kind: BirthKind::Static,
            ty: 0,
            count: 0,
        },
        start: 0,
        cells: 0,
    }
}

/// Makes room for so many rows more, in slots whose numbers fit a handle. Where it is refused all is as before.
pub fn make_slots(rows: &mut Slab<Row>, more: usize) -> Result<(), OutOfMemory>
    ensures same { SameValues rows.old rows.new }
    ensures len { slab_len rows.new ≡ slab_len rows.old }
    ensures room { OnOk result (HasRoomFor rows.new more) }
    ensures capacity { rows.old.capacity ≤ rows.new.capacity }
    ensures small { OnOk result (rows.new.capacity ≤ 2 ^ 32) }
    ensures stays_small { rows.old.capacity ≤ 2 ^ 32 → rows.new.capacity ≤ 2 ^ 32 }
    ensures as_before { OnErr result (rows.new ≡ rows.old) }
{
    if more > rows.capacity() - rows.len() {
        return grow_slots(rows, more);
    }
    if rows.capacity() > TOO_MANY {
        return Err(Limit::Blocks.past());
    }
    Ok(())
}

// The rows are copied, so that a slab that came out too large changes nothing.
fn grow_slots(rows: &mut Slab<Row>, more: usize) -> Result<(), OutOfMemory>
    requires { rows.old.capacity ≤ slab_len rows.old + more }
    ensures same { SameValues rows.old rows.new }
    ensures len { slab_len rows.new ≡ slab_len rows.old }
    ensures room { OnOk result (HasRoomFor rows.new more) }
    ensures capacity { rows.old.capacity ≤ rows.new.capacity }
    ensures small { OnOk result (rows.new.capacity ≤ 2 ^ 32) }
    ensures stays_small { rows.old.capacity ≤ 2 ^ 32 → rows.new.capacity ≤ 2 ^ 32 }
    ensures as_before { OnErr result (rows.new ≡ rows.old) }
{
    let mut larger = rows.clone()?;
    larger.reserve(more)?;
    if larger.capacity() > TOO_MANY {
        return Err(Limit::Blocks.past());
    }
    *rows = larger;
    Ok(())
}
