// Operators in front of one operand (C99 6.5.3).

ghost use Rattle.std.specs.Prelude.{◌≡◌, IfOk};
ghost use Rattle.mdr_faults.specs.Faults.{Checked, told};
ghost use Rattle.mdr_operand.specs.declared.operand.Operand.{Operand};
ghost use Rattle.mdr_operand.specs.Forms.{promoted_number, negated_number, flipped_number, promotion_at, negation_at, flip_at, not_at, target_object, target_at, prefix_of, prefix_by, prefix_rule};

use crate::addresses::address;
use crate::operand::{
    Integer, Operand, Pointer, at_kind, condition_at, integer_at, number, pointer_at, truth,
};
use crate::operator::PrefixOperator;
use crate::release::given_up;
use mdr_arith::promote;
use mdr_core::{Boxed, Place, Ty};
use mdr_faults::{Fault, FaultKind};
use mdr_rich::{Expr, Lval};
use std::alloc::{AllocError, Global};

#[tactic(auto, unfolding(crate::specs::Forms::promoted_number))]
fn promoted_number(alloc: Global, n: Integer) -> Result<Operand, AllocError>
    ensures { IfOk result (λ x. x ≡ promoted_number n) }
{
    let kind = promote(n.kind);
    Ok(number(at_kind(alloc, kind, n)?, kind))
}

#[tactic(auto, unfolding(crate::specs::Forms::negated_number))]
fn negated_number(alloc: Global, n: Integer) -> Result<Operand, AllocError>
    ensures { IfOk result (λ x. x ≡ negated_number n) }
{
    let kind = promote(n.kind);
    let value = at_kind(alloc, kind, n)?;
    Ok(number(Expr::Neg(kind, Boxed::new(alloc, value)?), kind))
}

#[tactic(auto, unfolding(crate::specs::Forms::flipped_number))]
fn flipped_number(alloc: Global, n: Integer) -> Result<Operand, AllocError>
    ensures { IfOk result (λ x. x ≡ flipped_number n) }
{
    let kind = promote(n.kind);
    let value = at_kind(alloc, kind, n)?;
    Ok(number(Expr::Flip(kind, Boxed::new(alloc, value)?), kind))
}

#[tactic(auto, unfolding(crate::specs::Forms::promotion_at))]
fn promotion_at(
    alloc: Global,
    place: Place,
    x: Operand,
) -> Result<Result<Operand, Fault>, AllocError>
    ensures { IfOk result (λ r. r ≡ told (promotion_at place x)) }
{
    match integer_at(place, x) {
        Ok(n) => Ok(Ok(promoted_number(alloc, n)?)),
        Err(fault) => Ok(Err(fault)),
    }
}

#[tactic(auto, unfolding(crate::specs::Forms::negation_at))]
fn negation_at(
    alloc: Global,
    place: Place,
    x: Operand,
) -> Result<Result<Operand, Fault>, AllocError>
    ensures { IfOk result (λ r. r ≡ told (negation_at place x)) }
{
    match integer_at(place, x) {
        Ok(n) => Ok(Ok(negated_number(alloc, n)?)),
        Err(fault) => Ok(Err(fault)),
    }
}

#[tactic(auto, unfolding(crate::specs::Forms::flip_at))]
fn flip_at(alloc: Global, place: Place, x: Operand) -> Result<Result<Operand, Fault>, AllocError>
    ensures { IfOk result (λ r. r ≡ told (flip_at place x)) }
{
    match integer_at(place, x) {
        Ok(n) => Ok(Ok(flipped_number(alloc, n)?)),
        Err(fault) => Ok(Err(fault)),
    }
}

#[tactic(auto, unfolding(crate::specs::Forms::not_at))]
fn not_at(alloc: Global, place: Place, x: Operand) -> Result<Result<Operand, Fault>, AllocError>
    ensures { IfOk result (λ r. r ≡ told (not_at place x)) }
{
    match condition_at(place, x) {
        Ok(value) => Ok(Ok(truth(Expr::Not(Boxed::new(alloc, value)?)))),
        Err(fault) => Ok(Err(fault)),
    }
}

fn target_object(alloc: Global, x: Pointer) -> Result<Operand, AllocError>
    ensures { IfOk result (λ r. r ≡ target_object x) }
{
    let Pointer { value, ty } = x;
    object_at(alloc, value, ty)
}

fn object_at(alloc: Global, value: Expr, ty: Ty) -> Result<Operand, AllocError>
    ensures { IfOk result (λ r. r ≡ target_object (record { value = value; ty = ty })) }
{
    let address = Boxed::new(alloc, value)?;
    Ok(Operand::Object(Lval::Deref(address), ty))
}

#[tactic(auto, unfolding(crate::specs::Forms::target_at))]
fn target_at(alloc: Global, place: Place, x: Operand) -> Result<Result<Operand, Fault>, AllocError>
    ensures { IfOk result (λ r. r ≡ told (target_at place x)) }
{
    match pointer_at(place, x) {
        Ok(pointer) => Ok(Ok(target_object(alloc, pointer)?)),
        Err(fault) => Ok(Err(fault)),
    }
}

#[tactic(auto, unfolding(crate::specs::Forms::prefix_of))]
fn prefix_of(
    alloc: Global,
    place: Place,
    x: Operand,
    op: PrefixOperator,
) -> Result<Result<Operand, Fault>, AllocError>
    ensures { IfOk result (λ r. r ≡ told (prefix_of place x op)) }
{
    match op {
        PrefixOperator::Promote => promotion_at(alloc, place, x),
        PrefixOperator::Negate => negation_at(alloc, place, x),
        PrefixOperator::Flip => flip_at(alloc, place, x),
        PrefixOperator::Not => not_at(alloc, place, x),
        PrefixOperator::Address => address(alloc, place, x),
        PrefixOperator::Target => target_at(alloc, place, x),
    }
}

fn prefix_by(
    alloc: Global,
    place: Place,
    op: Option<PrefixOperator>,
    x: Operand,
) -> Result<Result<Operand, Fault>, AllocError>
    ensures { IfOk result (λ r. r ≡ told (prefix_by place op x)) }
{
    match op {
        None => Ok(given_up(place, FaultKind::Mismatch, x)),
        Some(op) => prefix_of(alloc, place, x, op),
    }
}

/// A form with an operator in front of its operand, or with another sign there.
#[tactic(auto, unfolding(crate::specs::Forms::prefix_rule))]
pub fn prefix(
    alloc: Global,
    place: Place,
    op: Option<PrefixOperator>,
    x: Result<Operand, Fault>,
) -> Result<Result<Operand, Fault>, AllocError>
    ensures { (c : Checked Operand) → x ≡ told c → IfOk result (λ r. r ≡ told (prefix_rule place op c)) }
{
    match x {
        Ok(x) => prefix_by(alloc, place, op, x),
        Err(fault) => Ok(Err(fault)),
    }
}
