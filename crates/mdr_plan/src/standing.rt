// Which forms may stand next, and why a line may not.

ghost use Rattle.std.specs.Prelude.{◌≡◌, Some};
ghost use Rattle.mdr_plan.specs.Standing.{global_follows, field_follows, elem_follows, may_stand, kind_by, IsRefusal};

use crate::lines::{
    are_kernel_from, begins, may_end, takes_downs, takes_functions, takes_keys, takes_types,
    takes_ups,
};
use crate::plan_error::{PlanError, PlanKind};
use crate::reader::Reader;
use crate::shape::{Shape, shape_at};
use crate::unread::Unread;
use mdr_core::Key;
use std::alloc::Global;

#[tactic(auto, unfolding(crate::specs::Standing::global_follows))]
fn global_follows(last: Option<Key>) -> bool
    ensures { result ≡ global_follows last }
{
    let Some(last) = last else { return true };
    match last {
        Key::Global(a) => a < u32::MAX,
        Key::Field(_, _) | Key::Elem(_) => false,
    }
}

#[tactic(auto, unfolding(crate::specs::Standing::field_follows))]
fn field_follows(structs: usize, last: Option<Key>) -> bool
    ensures { result ≡ field_follows structs last }
{
    let Some(last) = last else { return 0 < structs };
    match last {
        Key::Global(_) => 0 < structs,
        Key::Field(s, f) => {
            ((s as usize) < structs && f < u32::MAX) || ((s as usize) + 1 < structs && s < u32::MAX)
        }
        Key::Elem(_) => false,
    }
}

#[tactic(auto, unfolding(crate::specs::Standing::elem_follows))]
fn elem_follows(types: usize, last: Option<Key>) -> bool
    ensures { result ≡ elem_follows types last }
{
    let Some(last) = last else { return 0 < types };
    match last {
        Key::Global(_) | Key::Field(_, _) => 0 < types,
        Key::Elem(t) => (t as usize) + 1 < types && t < u32::MAX,
    }
}

/// Whether a line of the form may come next.
#[tactic(auto, unfolding(crate::specs::Standing::may_stand))]
fn may_stand(reader: &Reader, shape: Shape) -> bool
    ensures { result ≡ may_stand reader.now shape }
{
    match shape {
        Shape::Heading => begins(reader.stage),
        Shape::Type => takes_types(reader.stage),
        Shape::Function => takes_functions(reader.stage) && reader.plan.types.len() > 8,
        Shape::Down => takes_downs(reader.stage) && reader.low < reader.plan.down.len(),
        Shape::Up => {
            takes_ups(reader.stage) && !are_kernel_from(reader.plan.halves.as_slice(), reader.ups)
        }
        Shape::GlobalKey => takes_keys(reader.stage) && global_follows(reader.last_key),
        Shape::FieldKey => {
            takes_keys(reader.stage) && field_follows(reader.structs.len(), reader.last_key)
        }
        Shape::ElemKey => {
            takes_keys(reader.stage) && elem_follows(reader.plan.types.len(), reader.last_key)
        }
        Shape::End => may_end(reader),
    }
}

fn kind_of(reader: &Reader, shape: Shape) -> PlanKind
    ensures { result ≡ kind_by reader.now (Some shape) }
{
    if may_stand(reader, shape) {
        PlanKind::Range
    } else {
        PlanKind::Order
    }
}

/// Why the line of this number, which may not come next, is refused.
pub fn refusal(alloc: Global, reader: &Reader, number: u32, bytes: &[u8]) -> PlanError
    ensures { IsRefusal reader.now bytes.now number result }
{
    match shape_at(alloc, bytes) {
        Ok(shape) => PlanError::Line(number, kind_of(reader, shape)),
        Err(Unread::Refused) => PlanError::Line(number, PlanKind::Form),
        Err(Unread::OutOfMemory) => PlanError::OutOfMemory,
    }
}
