// Whether a lock is held that spins.

ghost use Rattle.std.specs.Prelude.{◌≡◌, slice_get};
ghost use Rattle.std.specs.List.{list_any};
ghost use Rattle.mdr_meaning.specs.Values.{wire_of};
ghost use Rattle.mdr_plain.specs.Atomic.{is_any_spinning, is_spinning};
ghost use Rattle.mdr_world.specs.Reaching.{is_spinning_in};

use mdr_core::{LockState, Value};
use mdr_mem::Cells;
use mdr_region::RegionBlocks;

fn is_spinning(v: &Value) -> bool
    ensures { result ≡ is_spinning (wire_of v.now) }
{
    match v {
        Value::Lock(LockState::Spin) => true,
        Value::Lock(LockState::Free) => false,
        Value::Lock(LockState::Sleep) => false,
        Value::Ptr(_) => false,
        Value::Int(_, _) => false,
        Value::Null => false,
        Value::Dead => false,
        Value::Fn(_) => false,
        Value::NoValue => false,
    }
}

fn has_spinning(cells: &[Value]) -> bool
    ensures { result ≡ list_any (λ v. is_spinning (wire_of v)) cells.now }
{
    cells.iter().any(|v| is_spinning(v))
}

/// Whether a lock spins of the block at this place among those that live.
fn has_spinning_at(blocks: &RegionBlocks, place: usize) -> bool
    ensures { result ≡ is_spinning_in (slice_get blocks.now.memory place) }
{
    match blocks.cells_at(place) {
        Some(cells) => has_spinning(cells),
        None => false,
    }
}

/// Whether any lock spins. The time is that of a look at each cell.
#[tactic(auto, unfolding(mdr_plain::specs::Atomic::is_any_spinning), using(crate::proofs::SpinLaws::spinning_here, crate::proofs::SpinLaws::spinning_later, crate::proofs::SpinLaws::spinning_past))]
pub fn is_any_spinning(blocks: &RegionBlocks) -> bool
    ensures { result ≡ is_any_spinning blocks.now.memory }
{
    let live = blocks.live() as usize;
    let mut place = 0;
    while place < live {
        if has_spinning_at(blocks, place) {
            return true;
        }
        place += 1;
    }
    false
}
