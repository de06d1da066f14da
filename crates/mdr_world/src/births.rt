// What objects are born with.

ghost use Rattle.std.specs.Prelude.{◌≡◌, ◌<◌, IfOk, OnErr, length, map};
ghost use Rattle.mdr_core.specs.declared.memory_error.Limit.TheVariants as limit;
ghost use Rattle.mdr_core.specs.Limits.{most};
ghost use Rattle.mdr_core.specs.Layout.{cells_at, repeated, zero_value};
ghost use Rattle.mdr_core.specs.Sound.{IsSound};
ghost use Rattle.mdr_meaning.specs.Values.{wire_of};
ghost use Rattle.mdr_model.specs.Memory.{zero_of};

use mdr_core::{Items, Limit, OutOfMemory, Program, Shape, Value, cells_of, within, zero_of};
use mdr_model::Shape64;
use std::alloc::Global;

/// The zeros of an element.
#[tactic(auto, unfolding(mdr_core::specs::Layout::zero_at), using(crate::proofs::ZeroLaws::pushed))]
fn element(alloc: Global, program: &Program, ty: u32) -> Result<Items<Value>, OutOfMemory>
    requires in_table { ty < length program.now.types }
    requires sound { IsSound program.now }
    ensures { IfOk result (λ vs. vs ≡ map (λ l. zero_value l.type) (cells_at program.now ty)) }
{
    let mut zeros = Items::new(alloc);
    let cells = cells_of(program, ty);
    let mut cell = 0;
    while cell < cells {
        zeros.push(zero_of(program, ty, cell))?;
        cell += 1;
    }
    Ok(zeros)
}

/// So many elements, one after another.
#[tactic(auto, unfolding(mdr_core::specs::Layout::repeated))]
fn repeated(alloc: Global, count: u32, element: &[Value]) -> Result<Items<Value>, OutOfMemory>
    ensures { IfOk result (λ vs. vs ≡ repeated count element.now) }
{
    let mut all = Vec::new(alloc);
    let mut left = count;
    while left > 0 {
        all.extend_from_slice(element)?;
        left -= 1;
    }
    Ok(Items::from_vec(all))
}

/// A shape as blocks have it. What has more elements than can be counted is too large.
pub fn shape_of(shape: Shape64) -> Result<Shape, OutOfMemory>
    ensures ty { IfOk result (λ s. s.ty ≡ shape.ty) }
    ensures count { IfOk result (λ s. s.count ≡ shape.count) }
    ensures large { OnErr result (most limit.Cells < shape.count) }
{
    within(shape.count, Limit::Cells)?;
    Ok(Shape {
        ty: shape.ty,
        count: shape.count as u32,
    })
}

/// The zeros of an object. A type past the table has no cells.
pub fn zeros(alloc: Global, program: &Program, shape: Shape) -> Result<Items<Value>, OutOfMemory>
    requires { IsSound program.now }
    ensures { IfOk result (λ vs. map wire_of vs ≡ map zero_of (repeated shape.count (cells_at program.now shape.ty))) }
{
    if shape.ty as usize >= program.types.len() {
        return Ok(Items::new(alloc));
    }
    let element = element(alloc, program, shape.ty)?;
    repeated(alloc, shape.count, element.as_slice())
}
