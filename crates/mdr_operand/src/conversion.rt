// Values of a type as values of another (C99 6.3).

ghost use Rattle.std.specs.Prelude.{◌≡◌, IfOk, Some, None};
ghost use Rattle.mdr_core.specs.Layout.{chosen};
ghost use Rattle.mdr_rich.specs.declared.code.Expr.TheVariants as expr;
ghost use Rattle.mdr_core.specs.declared.types.Ty.{out-Ty};
ghost use Rattle.mdr_faults.specs.Faults.{told};
ghost use Rattle.mdr_operand.specs.Converting.{number_as, pointer_as, opaque_as, handle_as, scalar_as, null_as, value_as, cast_as, first_of, constant_as, operand_as, converted_at};

use crate::operand::{Integer, Operand, Scalar, at_kind, needed, value_of};
use crate::release::nothing;
use crate::sort::is_null;
use mdr_core::{Boxed, Items, Kind, Place, Ty, Value};
use mdr_faults::{Fault, are_alike, copied_type, is_alike};
use mdr_rich::Expr;
use std::alloc::{AllocError, Global};

fn kept(holds: bool, value: Expr) -> Option<Expr>
    ensures { result ≡ chosen holds (Some value) None }
{
    if holds { Some(value) } else { nothing(value) }
}

fn number_as(alloc: Global, value: Expr, kind: Kind, ty: &Ty) -> Result<Option<Expr>, AllocError>
    ensures { IfOk result (λ r. r ≡ number_as value kind (out-Ty ty.now)) }
{
    match ty {
        Ty::Int(wanted) => Ok(Some(at_kind(alloc, *wanted, Integer { value, kind })?)),
        Ty::Lock | Ty::Struct(_) | Ty::Ptr(_) | Ty::VoidPtr | Ty::Fun(_) | Ty::Void => {
            Ok(nothing(value))
        }
    }
}

fn address_as(alloc: Global, value: Expr, target: &Ty, ty: &Ty) -> Result<Option<Expr>, AllocError>
    ensures { IfOk result (λ r. r ≡ pointer_as value target.now (out-Ty ty.now)) }
{
    match ty {
        Ty::Ptr(wanted) => Ok(kept(is_alike(target, wanted.get()), value)),
        Ty::VoidPtr => Ok(Some(Expr::ToVoid(Boxed::new(alloc, value)?))),
        Ty::Int(_) | Ty::Lock | Ty::Struct(_) | Ty::Fun(_) | Ty::Void => Ok(nothing(value)),
    }
}

fn pointer_as(alloc: Global, value: Expr, target: Ty, ty: &Ty) -> Result<Option<Expr>, AllocError>
    ensures { IfOk result (λ r. r ≡ pointer_as value target (out-Ty ty.now)) }
{
    address_as(alloc, value, &target, ty)
}

fn from_void(alloc: Global, target: &Ty, value: Expr) -> Result<Expr, AllocError>
    ensures { IfOk result (λ e. e ≡ expr.FromVoid target.now value) }
{
    let pointer = Boxed::new(alloc, value)?;
    Ok(Expr::FromVoid(copied_type(alloc, target)?, pointer))
}

fn opaque_as(alloc: Global, value: Expr, ty: &Ty) -> Result<Option<Expr>, AllocError>
    ensures { IfOk result (λ r. r ≡ opaque_as value (out-Ty ty.now)) }
{
    match ty {
        Ty::Ptr(target) => Ok(Some(from_void(alloc, target.get(), value)?)),
        Ty::VoidPtr => Ok(Some(value)),
        Ty::Int(_) | Ty::Lock | Ty::Struct(_) | Ty::Fun(_) | Ty::Void => Ok(nothing(value)),
    }
}

fn handle_as(value: Expr, types: Items<Ty>, ty: &Ty) -> Option<Expr>
    ensures { result ≡ handle_as value types (out-Ty ty.now) }
{
    match ty {
        Ty::Fun(wanted) => kept(are_alike(types.as_slice(), wanted.as_slice()), value),
        Ty::Int(_) | Ty::Lock | Ty::Struct(_) | Ty::Ptr(_) | Ty::VoidPtr | Ty::Void => {
            nothing(value)
        }
    }
}

/// A value of a scalar type as a value of another, where it may become one.
#[tactic(auto, unfolding(crate::specs::Converting::scalar_as))]
pub fn scalar_as(alloc: Global, v: Scalar, ty: &Ty) -> Result<Option<Expr>, AllocError>
    ensures { IfOk result (λ r. r ≡ scalar_as v ty.now) }
{
    match v {
        Scalar::Number(e, kind) => number_as(alloc, e, kind, ty),
        Scalar::Pointer(e, target) => pointer_as(alloc, e, target, ty),
        Scalar::Opaque(e) => opaque_as(alloc, e, ty),
        Scalar::Handle(e, types) => Ok(handle_as(e, types, ty)),
    }
}

/// A null pointer of a type, where it is a pointer's.
#[tactic(auto, unfolding(crate::specs::Converting::null_as))]
pub fn null_as(ty: &Ty) -> Option<Expr>
    ensures { result ≡ null_as ty.now }
{
    match ty {
        Ty::Ptr(_) | Ty::VoidPtr | Ty::Fun(_) => Some(Expr::Lit(Value::Null)),
        Ty::Int(_) | Ty::Lock | Ty::Struct(_) | Ty::Void => None,
    }
}

fn value_as(alloc: Global, v: Option<Scalar>, ty: &Ty) -> Result<Option<Expr>, AllocError>
    ensures { IfOk result (λ r. r ≡ value_as v ty.now) }
{
    match v {
        None => Ok(None),
        Some(v) => scalar_as(alloc, v, ty),
    }
}

/// An operand's value as one of a type that a cast names.
#[tactic(auto, unfolding(crate::specs::Converting::cast_as))]
pub fn cast_as(alloc: Global, x: Operand, ty: &Ty) -> Result<Option<Expr>, AllocError>
    ensures { IfOk result (λ r. r ≡ cast_as x ty.now) }
{
    value_as(alloc, value_of(x), ty)
}

fn first_of<A: Drop>(x: Option<A>, other: Option<A>) -> Option<A>
    ensures { result ≡ first_of x other }
{
    match x {
        Some(x) => Some(x),
        None => other,
    }
}

#[tactic(auto, unfolding(crate::specs::Converting::constant_as))]
fn constant_as(alloc: Global, x: Operand, ty: &Ty) -> Result<Option<Expr>, AllocError>
    ensures { IfOk result (λ r. r ≡ constant_as x ty.now) }
{
    let value = cast_as(alloc, x, ty)?;
    Ok(first_of(null_as(ty), value))
}

/// An operand as a value of a type, as if by assignment (C99 6.5.16.1).
#[tactic(auto, unfolding(crate::specs::Converting::operand_as))]
pub fn operand_as(alloc: Global, x: Operand, ty: &Ty) -> Result<Option<Expr>, AllocError>
    ensures { IfOk result (λ r. r ≡ operand_as x ty.now) }
{
    if is_null(&x) {
        constant_as(alloc, x, ty)
    } else {
        cast_as(alloc, x, ty)
    }
}

/// An operand of the form at this place as a value of a type, as if by assignment.
#[tactic(auto, unfolding(crate::specs::Converting::converted_at))]
pub fn converted_at(
    alloc: Global,
    place: Place,
    ty: &Ty,
    x: Operand,
) -> Result<Result<Expr, Fault>, AllocError>
    ensures { IfOk result (λ r. r ≡ told (converted_at place ty.now x)) }
{
    Ok(needed(place, operand_as(alloc, x, ty)?))
}
