// Values as they are kept and sent.

ghost use Rattle.std.specs.Prelude.{◌≡◌, map, IfOk};
ghost use Rattle.mdr_model.specs.Memory.{normal};

use crate::store::{RisingBlocks, is_live};
use mdr_core::{Items, OutOfMemory};
use mdr_model::Wire;
use std::alloc::Global;

/// A value as it is kept and sent: a pointer whose block isn't live is a dead one.
#[tactic(auto, unfolding(mdr_model::specs::Memory::normal))]
pub fn normal(memory: &RisingBlocks, value: Wire) -> Wire
    ensures { result ≡ normal memory.now value }
{
    match value {
        Wire::Ptr(view) => {
            if is_live(memory, view.serial) {
                value
            } else {
                Wire::Dead
            }
        }
        _ => value,
    }
}

/// The same of a list of values.
pub fn normals(
    alloc: Global,
    memory: &RisingBlocks,
    values: &[Wire],
) -> Result<Items<Wire>, OutOfMemory>
    ensures { IfOk result (λ vs. vs ≡ map (normal memory.now) values.now) }
{
    let mut out = Items::new(alloc);
    for value in values {
        out.push(normal(memory, *value))?;
    }
    Ok(out)
}
