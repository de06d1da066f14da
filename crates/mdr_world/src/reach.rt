// The cells that pointers name.

ghost use Rattle.std.specs.Prelude.{◌≡◌, IfOk, IsTrue, nat_lt, true};
ghost use Rattle.mdr_mem.specs.Contents.{cell_in, is_handle};
ghost use Rattle.mdr_meaning.specs.Values.{wire_of, wire_view};
ghost use Rattle.mdr_meaning.specs.declared.wire.Wire.TheVariants as wire;
ghost use Rattle.mdr_model.specs.Memory.{cell_of, everywhere, reached, reached_by};
ghost use Rattle.mdr_world.specs.Reaching.{reached_as};

use crate::handles::handle;
use mdr_core::{Block, StopKind, Value, View};
use mdr_mem::Cells;
use mdr_region::RegionBlocks;

/// A cell of a live block, or a place past its end.
#[derive(Clone, Copy)]
pub struct Target {
    pub block: Block,
    pub index: u64,
}

fn reached_view(blocks: &RegionBlocks, p: View) -> Result<Target, StopKind>
    ensures cell { reached_as result ≡ reached everywhere blocks.now.memory (wire.Ptr (wire_view p)) }
    ensures alive { IfOk result (λ t. IsTrue (is_handle blocks.now.handles t.block)) }
{
    let _in_order = blocks.births();
    match handle(blocks, p.block) {
        Some(block) => reached_in(block, p),
        None => Err(StopKind::Dead),
    }
}

fn reached_in(block: Block, p: View) -> Result<Target, StopKind>
    requires { block.serial ≡ p.block.serial }
    ensures cell { reached_as result ≡ reached_by true (nat_lt p.index p.count) true (cell_of (wire_view p)) }
    ensures block { IfOk result (λ t. t.block ≡ block) }
{
    if p.index < p.count {
        Ok(Target {
            block,
            index: p.first as u64 + p.index as u64,
        })
    } else {
        Err(StopKind::Bounds)
    }
}

/// The cell that an access through a pointer touches, or the stop.
#[tactic(auto, unfolding(mdr_model::specs::Memory::reached))]
pub fn reached(blocks: &RegionBlocks, pointer: Value) -> Result<Target, StopKind>
    ensures cell { reached_as result ≡ reached everywhere blocks.now.memory (wire_of pointer) }
    ensures alive { IfOk result (λ t. IsTrue (is_handle blocks.now.handles t.block)) }
{
    match pointer {
        Value::Ptr(p) => reached_view(blocks, p),
        Value::Dead => Err(StopKind::Dead),
        Value::Int(_, _) => Err(StopKind::Null),
        Value::Null => Err(StopKind::Null),
        Value::Fn(_) => Err(StopKind::Null),
        Value::Lock(_) => Err(StopKind::Null),
        Value::NoValue => Err(StopKind::Null),
    }
}
