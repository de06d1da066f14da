// What is called (C99 6.5.2.2): `*f` as a callee.

ghost use Rattle.std.specs.Prelude.{◌≡◌, IfOk, Some};
ghost use Rattle.mdr_rich.specs.declared.code.Expr.{Expr};
ghost use Rattle.mdr_faults.specs.Faults.{Checked, Right, told, after};
ghost use Rattle.mdr_operand.specs.declared.operand.Operand.{Operand};
ghost use Rattle.mdr_operand.specs.Forms.{scalar_of, prefix_rule};
ghost use Rattle.mdr_operand.specs.declared.operator.PrefixOperator.TheVariants as prefix;
ghost use Rattle.mdr_call.specs.Calls.{is_handle_value, is_handle, valued, starred_callee, is_star};

use mdr_core::{Place, Ty};
use mdr_faults::Fault;
use mdr_operand::{Operand, PrefixOperator, Scalar, prefix, scalar_at};
use std::alloc::{AllocError, Global};

fn is_handle_scalar(v: &Scalar) -> bool
    ensures { result ≡ is_handle_value (Some v.now) }
{
    match v {
        Scalar::Handle(_, _) => true,
        Scalar::Number(_, _) | Scalar::Pointer(_, _) | Scalar::Opaque(_) => false,
    }
}

#[tactic(auto, unfolding(mdr_operand::specs::Forms::scalar_of))]
fn is_handle_type(ty: &Ty) -> bool
    ensures { (e : Expr) → result ≡ is_handle_value (scalar_of e ty.now) }
{
    match ty {
        Ty::Fun(_) => true,
        Ty::Int(_) | Ty::Lock | Ty::Struct(_) | Ty::Ptr(_) | Ty::VoidPtr | Ty::Void => false,
    }
}

/// Whether it is a function, or a pointer to one.
#[tactic(auto, unfolding(crate::specs::Calls::is_handle, mdr_operand::specs::Forms::value_of))]
pub fn is_handle(x: &Operand) -> bool
    ensures { result ≡ is_handle x.now }
{
    match x {
        Operand::Value(v) => is_handle_scalar(v),
        Operand::Object(_, ty) => is_handle_type(ty),
        Operand::Function(_, _) => true,
        Operand::Zero(_) | Operand::Null | Operand::Array(_, _, _) => false,
    }
}

#[tactic(auto, unfolding(crate::specs::Calls::valued))]
fn valued(place: Place, x: Operand) -> Result<Operand, Fault>
    ensures { result ≡ told (valued place x) }
{
    match scalar_at(place, x) {
        Ok(v) => Ok(Operand::Value(v)),
        Err(fault) => Err(fault),
    }
}

#[tactic(auto, unfolding(crate::specs::Calls::starred_callee))]
fn starred_callee(
    alloc: Global,
    place: Place,
    x: Operand,
) -> Result<Result<Operand, Fault>, AllocError>
    ensures { IfOk result (λ r. r ≡ told (starred_callee place x)) }
{
    if is_handle(&x) {
        Ok(valued(place, x))
    } else {
        target_of_pointer(alloc, place, x)
    }
}

fn target_of_pointer(
    alloc: Global,
    place: Place,
    x: Operand,
) -> Result<Result<Operand, Fault>, AllocError>
    ensures { IfOk result (λ r. r ≡ told (prefix_rule place (Some prefix.Target) (Right x))) }
{
    prefix(alloc, place, Some(PrefixOperator::Target), Ok(x))
}

/// Whether an operator in front is `*`.
pub fn is_star(op: Option<PrefixOperator>) -> bool
    ensures { result ≡ is_star op }
{
    match op {
        Some(PrefixOperator::Target) => true,
        Some(PrefixOperator::Promote)
        | Some(PrefixOperator::Negate)
        | Some(PrefixOperator::Flip)
        | Some(PrefixOperator::Not)
        | Some(PrefixOperator::Address)
        | None => false,
    }
}

/// `*f` as a callee: the function that f points to.
pub fn starred(
    alloc: Global,
    place: Place,
    x: Result<Operand, Fault>,
) -> Result<Result<Operand, Fault>, AllocError>
    ensures { (c : Checked Operand) → x ≡ told c → IfOk result (λ r. r ≡ told (after c (starred_callee place))) }
{
    match x {
        Ok(x) => starred_callee(alloc, place, x),
        Err(fault) => Ok(Err(fault)),
    }
}
