// Locks, which stand in cells.

ghost use Rattle.std.specs.Prelude.{◌≡◌, IsTrue, OnErr, option_map, slice_get};
ghost use Rattle.std.specs.List.{list_any};
ghost use Rattle.mdr_events.specs.Outcomes.{when_made};
ghost use Rattle.mdr_mem.specs.Contents.{cell_in, is_handle};
ghost use Rattle.mdr_meaning.specs.Values.{wire_of};
ghost use Rattle.mdr_meaning.specs.declared.wire.Wire.TheVariants as wire;
ghost use Rattle.mdr_model.specs.Memory.{cell_at, everywhere, reached};
ghost use Rattle.mdr_plain.specs.Locks.{acquired, changed, is_any_held, is_held, is_locked, lock_in, released, taken_as, with_lock};
ghost use Rattle.mdr_world.specs.Driven.{open_views};
ghost use Rattle.mdr_world.specs.Reaching.{is_held_in, with_memory};

use crate::access::held_at;
use crate::reach::{Target, reached};
use mdr_core::{LockState, StopKind, Value};
use mdr_mem::Cells;
use mdr_region::RegionBlocks;

// ---- taking and freeing

fn lock_of(held: Option<Value>) -> LockState
    ensures { result ≡ lock_in (option_map wire_of held) }
{
    match held {
        Some(Value::Lock(state)) => state,
        Some(_) => LockState::Free,
        None => LockState::Free,
    }
}

fn lock_at(blocks: &RegionBlocks, t: Target) -> LockState
    requires { IsTrue (is_handle blocks.now.handles t.block) }
    ensures { result ≡ lock_in (cell_at blocks.now.memory (cell_in t.block t.index)) }
{
    lock_of(held_at(blocks, t))
}

/// How a lock is taken: while a function of the user half is active it sleeps, else it spins.
pub fn taken(in_user: bool) -> LockState
    ensures { result ≡ taken_as (open_views in_user) }
{
    if in_user {
        LockState::Sleep
    } else {
        LockState::Spin
    }
}

fn acquired(to: LockState, state: LockState) -> Result<LockState, StopKind>
    ensures { result ≡ acquired to state }
{
    match state {
        LockState::Free => Ok(to),
        LockState::Spin => Err(StopKind::LockHeld),
        LockState::Sleep => Err(StopKind::LockHeld),
    }
}

fn released(state: LockState) -> Result<LockState, StopKind>
    ensures { result ≡ released state }
{
    match state {
        LockState::Free => Err(StopKind::LockFree),
        LockState::Spin => Ok(LockState::Free),
        LockState::Sleep => Ok(LockState::Free),
    }
}

#[tactic(auto, unfolding(mdr_mem::specs::Contents::current))]
fn set_lock(
    blocks: &mut RegionBlocks,
    t: Target,
    to: Result<LockState, StopKind>,
) -> Result<(), StopKind>
    requires { IsTrue (is_handle blocks.old.handles t.block) }
    ensures made { with_lock blocks.old.memory (cell_in t.block t.index) to ≡ when_made result blocks.new.memory }
    ensures rest { blocks.new ≡ with_memory blocks.new.memory blocks.old }
    ensures kept { OnErr result (blocks.new ≡ blocks.old) }
{
    match to {
        Ok(state) => {
            blocks.put(t.block, t.index, Value::Lock(state));
            Ok(())
        }
        Err(kind) => Err(kind),
    }
}

/// The lock that a pointer names is taken, as one in this state.
pub fn acquire(blocks: &mut RegionBlocks, lock: Value, to: LockState) -> Result<(), StopKind>
    ensures made { changed (acquired to) blocks.old.memory (reached everywhere blocks.old.memory (wire_of lock)) ≡ when_made result blocks.new.memory }
    ensures rest { blocks.new ≡ with_memory blocks.new.memory blocks.old }
    ensures kept { OnErr result (blocks.new ≡ blocks.old) }
{
    match reached(blocks, lock) {
        Ok(t) => {
            let taken = acquired(to, lock_at(blocks, t));
            set_lock(blocks, t, taken)
        }
        Err(kind) => Err(kind),
    }
}

/// The lock that a pointer names is freed.
pub fn release(blocks: &mut RegionBlocks, lock: Value) -> Result<(), StopKind>
    ensures made { changed released blocks.old.memory (reached everywhere blocks.old.memory (wire_of lock)) ≡ when_made result blocks.new.memory }
    ensures rest { blocks.new ≡ with_memory blocks.new.memory blocks.old }
    ensures kept { OnErr result (blocks.new ≡ blocks.old) }
{
    match reached(blocks, lock) {
        Ok(t) => {
            let to = released(lock_at(blocks, t));
            set_lock(blocks, t, to)
        }
        Err(kind) => Err(kind),
    }
}

// ---- whether one is held

fn is_held_lock(state: LockState) -> bool
    ensures { result ≡ is_held (wire.Lock state) }
{
    match state {
        LockState::Free => false,
        LockState::Spin => true,
        LockState::Sleep => true,
    }
}

fn is_held(v: &Value) -> bool
    ensures { result ≡ is_held (wire_of v.now) }
{
    match v {
        Value::Lock(state) => is_held_lock(*state),
        Value::Ptr(_) => false,
        Value::Int(_, _) => false,
        Value::Null => false,
        Value::Dead => false,
        Value::Fn(_) => false,
        Value::NoValue => false,
    }
}

fn has_held(cells: &[Value]) -> bool
    ensures { result ≡ list_any (λ v. is_held (wire_of v)) cells.now }
{
    cells.iter().any(|v| is_held(v))
}

/// Whether a lock is held of the block at this place among those that live.
fn has_held_at(blocks: &RegionBlocks, place: usize) -> bool
    ensures { result ≡ is_held_in (slice_get blocks.now.memory place) }
{
    match blocks.cells_at(place) {
        Some(cells) => has_held(cells),
        None => false,
    }
}

/// Whether any lock is held. The time is that of a look at each cell.
#[tactic(auto, unfolding(mdr_plain::specs::Locks::is_any_held), using(crate::proofs::LockLaws::held_here, crate::proofs::LockLaws::held_later, crate::proofs::LockLaws::held_past))]
pub fn is_any_held(blocks: &RegionBlocks) -> bool
    ensures { result ≡ is_any_held blocks.now.memory }
{
    let live = blocks.live() as usize;
    let mut place = 0;
    while place < live {
        if has_held_at(blocks, place) {
            return true;
        }
        place += 1;
    }
    false
}

/// Whether a lock of a block is held.
pub fn is_locked(blocks: &RegionBlocks, serial: u64) -> bool
    ensures { result ≡ is_locked serial blocks.now.memory }
{
    let _in_order = blocks.births();
    match blocks.find(serial) {
        Some(b) => has_held(blocks.cells(b)),
        None => false,
    }
}
