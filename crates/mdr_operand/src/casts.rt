// Casts (C99 6.5.4).

ghost use Rattle.std.specs.Prelude.{◌≡◌, IfOk};
ghost use Rattle.mdr_core.specs.declared.types.Ty.{Ty};
ghost use Rattle.mdr_faults.specs.Faults.{Checked, told, after, both};
ghost use Rattle.mdr_operand.specs.declared.operand.Operand.{Operand};
ghost use Rattle.mdr_operand.specs.declared.operand.Scalar.{Scalar};
ghost use Rattle.mdr_operand.specs.Converting.{value_of_type, cast_value, cast_to, cast_rule};

use crate::conversion::cast_as;
use crate::operand::{Operand, Scalar, needed, scalar_of};
use crate::release::out_of_memory;
use mdr_core::{Place, Ty};
use mdr_faults::{Fault, Scope, both, type_named};
use mdr_rich::Expr;
use mdr_syntax::Base;
use std::alloc::{AllocError, Global};

fn value_of_type(e: Option<Expr>, ty: Ty) -> Option<Scalar>
    ensures { result ≡ value_of_type e ty }
{
    match e {
        None => None,
        Some(e) => scalar_of(e, ty),
    }
}

fn cast_value(v: Result<Scalar, Fault>) -> Result<Operand, Fault>
    ensures { (c : Checked Scalar) → v ≡ told c → result ≡ told (after c cast_value) }
{
    match v {
        Ok(v) => Ok(Operand::Value(v)),
        Err(fault) => Err(fault),
    }
}

#[tactic(auto, unfolding(crate::specs::Converting::cast_to))]
fn cast_to(
    alloc: Global,
    place: Place,
    ty: Ty,
    x: Operand,
) -> Result<Result<Operand, Fault>, AllocError>
    ensures { IfOk result (λ r. r ≡ told (cast_to place ty x)) }
{
    let value = cast_as(alloc, x, &ty)?;
    Ok(cast_value(needed(place, value_of_type(value, ty))))
}

fn cast_by(
    alloc: Global,
    place: Place,
    ty: Result<Ty, Fault>,
    x: Result<Operand, Fault>,
) -> Result<Result<Operand, Fault>, AllocError>
    ensures { (t : Checked Ty) (c : Checked Operand) → ty ≡ told t → x ≡ told c → IfOk result (λ r. r ≡ told (both t c (cast_to place))) }
{
    match both(ty, x) {
        Ok((ty, x)) => cast_to(alloc, place, ty, x),
        Err(fault) => Ok(Err(fault)),
    }
}

/// A cast to a base with so many stars.
#[tactic(auto, unfolding(crate::specs::Converting::cast_rule))]
pub fn cast(
    alloc: Global,
    scope: &Scope,
    place: Place,
    base: &Base,
    stars: u32,
    x: Result<Operand, Fault>,
) -> Result<Result<Operand, Fault>, AllocError>
    ensures { (c : Checked Operand) → x ≡ told c → IfOk result (λ r. r ≡ told (cast_rule scope.now place base.now stars c)) }
{
    match type_named(alloc, scope, base, stars) {
        Ok(ty) => cast_by(alloc, place, ty, x),
        Err(error) => out_of_memory(error, x),
    }
}
