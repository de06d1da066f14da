// Comparisons (C99 6.5.8, 6.5.9).

ghost use Rattle.std.specs.Prelude.{◌≡◌, IfOk};
ghost use Rattle.mdr_operand.specs.declared.operand.Scalar.{Scalar};
ghost use Rattle.mdr_faults.specs.Faults.{Checked, told, both};
ghost use Rattle.mdr_binary.specs.Binaries.{voids_equal, pointers_equal, equality_of_values, has_null, equality, pointers_ordered};
ghost use Rattle.mdr_binary.specs.Binaries.{order_of_values, order, is_equality, pointers_compared, are_numbers, comparison_of};

use crate::number::numbers_compared;
use crate::pointer::given_up;
use crate::value::{
    have_one_object, have_one_type, have_one_void, null_compared, values_compared, voids_compared,
};
use mdr_core::{Place, RelOp};
use mdr_faults::{Fault, both};
use mdr_operand::{Operand, Scalar, is_null, is_number, scalar_at};
use std::alloc::{AllocError, Global};

#[tactic(auto, unfolding(crate::specs::Binaries::voids_equal))]
fn voids_equal(
    alloc: Global,
    op: RelOp,
    place: Place,
    v: Scalar,
    w: Scalar,
) -> Result<Result<Operand, Fault>, AllocError>
    ensures { IfOk result (λ r. r ≡ told (voids_equal op place v w)) }
{
    if have_one_void(&v, &w) {
        Ok(Ok(voids_compared(alloc, op, v, w)?))
    } else {
        Ok(given_up(place, v, w))
    }
}

#[tactic(auto, unfolding(crate::specs::Binaries::pointers_equal))]
fn pointers_equal(
    alloc: Global,
    op: RelOp,
    place: Place,
    v: Scalar,
    w: Scalar,
) -> Result<Result<Operand, Fault>, AllocError>
    ensures { IfOk result (λ r. r ≡ told (pointers_equal op place v w)) }
{
    if have_one_type(&v, &w) {
        Ok(Ok(values_compared(alloc, op, v, w)?))
    } else {
        voids_equal(alloc, op, place, v, w)
    }
}

fn both_equal(
    alloc: Global,
    op: RelOp,
    place: Place,
    v: Result<Scalar, Fault>,
    w: Result<Scalar, Fault>,
) -> Result<Result<Operand, Fault>, AllocError>
    ensures { (c d : Checked Scalar) → v ≡ told c → w ≡ told d → IfOk result (λ r. r ≡ told (both c d (pointers_equal op place))) }
{
    match both(v, w) {
        Ok((v, w)) => pointers_equal(alloc, op, place, v, w),
        Err(fault) => Ok(Err(fault)),
    }
}

#[tactic(auto, unfolding(crate::specs::Binaries::equality_of_values))]
fn equality_of_values(
    alloc: Global,
    op: RelOp,
    place: Place,
    x: Operand,
    y: Operand,
) -> Result<Result<Operand, Fault>, AllocError>
    ensures { IfOk result (λ r. r ≡ told (equality_of_values op place x y)) }
{
    let v = scalar_at(place, x);
    let w = scalar_at(place, y);
    both_equal(alloc, op, place, v, w)
}

fn has_null(x: &Operand, y: &Operand) -> bool
    ensures { result ≡ has_null x.now y.now }
{
    is_null(x) || is_null(y)
}

#[tactic(auto, unfolding(crate::specs::Binaries::equality))]
fn equality(
    alloc: Global,
    op: RelOp,
    place: Place,
    x: Operand,
    y: Operand,
) -> Result<Result<Operand, Fault>, AllocError>
    ensures { IfOk result (λ r. r ≡ told (equality op place x y)) }
{
    if has_null(&x, &y) {
        null_compared(alloc, op, place, x, y)
    } else {
        equality_of_values(alloc, op, place, x, y)
    }
}

#[tactic(auto, unfolding(crate::specs::Binaries::pointers_ordered))]
fn pointers_ordered(
    alloc: Global,
    op: RelOp,
    place: Place,
    v: Scalar,
    w: Scalar,
) -> Result<Result<Operand, Fault>, AllocError>
    ensures { IfOk result (λ r. r ≡ told (pointers_ordered op place v w)) }
{
    if have_one_object(&v, &w) {
        Ok(Ok(values_compared(alloc, op, v, w)?))
    } else {
        Ok(given_up(place, v, w))
    }
}

fn both_ordered(
    alloc: Global,
    op: RelOp,
    place: Place,
    v: Result<Scalar, Fault>,
    w: Result<Scalar, Fault>,
) -> Result<Result<Operand, Fault>, AllocError>
    ensures { (c d : Checked Scalar) → v ≡ told c → w ≡ told d → IfOk result (λ r. r ≡ told (both c d (pointers_ordered op place))) }
{
    match both(v, w) {
        Ok((v, w)) => pointers_ordered(alloc, op, place, v, w),
        Err(fault) => Ok(Err(fault)),
    }
}

#[tactic(auto, unfolding(crate::specs::Binaries::order_of_values))]
fn order_of_values(
    alloc: Global,
    op: RelOp,
    place: Place,
    x: Operand,
    y: Operand,
) -> Result<Result<Operand, Fault>, AllocError>
    ensures { IfOk result (λ r. r ≡ told (order_of_values op place x y)) }
{
    let v = scalar_at(place, x);
    let w = scalar_at(place, y);
    both_ordered(alloc, op, place, v, w)
}

#[tactic(auto, unfolding(crate::specs::Binaries::order))]
fn order(
    alloc: Global,
    op: RelOp,
    place: Place,
    x: Operand,
    y: Operand,
) -> Result<Result<Operand, Fault>, AllocError>
    ensures { IfOk result (λ r. r ≡ told (order op place x y)) }
{
    if has_null(&x, &y) {
        Ok(given_up(place, x, y))
    } else {
        order_of_values(alloc, op, place, x, y)
    }
}

fn is_equality(op: RelOp) -> bool
    ensures { result ≡ is_equality op }
{
    match op {
        RelOp::Eq | RelOp::Ne => true,
        RelOp::Lt | RelOp::Le | RelOp::Gt | RelOp::Ge => false,
    }
}

#[tactic(auto, unfolding(crate::specs::Binaries::pointers_compared))]
fn pointers_compared(
    alloc: Global,
    op: RelOp,
    place: Place,
    x: Operand,
    y: Operand,
) -> Result<Result<Operand, Fault>, AllocError>
    ensures { IfOk result (λ r. r ≡ told (pointers_compared op place x y)) }
{
    if is_equality(op) {
        equality(alloc, op, place, x, y)
    } else {
        order(alloc, op, place, x, y)
    }
}

/// Whether both operands have integer types.
pub fn are_numbers(x: &Operand, y: &Operand) -> bool
    ensures { result ≡ are_numbers x.now y.now }
{
    is_number(x) && is_number(y)
}

/// A comparison.
#[tactic(auto, unfolding(crate::specs::Binaries::comparison_of))]
pub fn comparison_of(
    alloc: Global,
    op: RelOp,
    place: Place,
    x: Operand,
    y: Operand,
) -> Result<Result<Operand, Fault>, AllocError>
    ensures { IfOk result (λ r. r ≡ told (comparison_of op place x y)) }
{
    if are_numbers(&x, &y) {
        numbers_compared(alloc, op, place, x, y)
    } else {
        pointers_compared(alloc, op, place, x, y)
    }
}
