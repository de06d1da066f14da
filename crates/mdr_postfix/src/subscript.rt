// Subscripts (C99 6.5.2.1).

ghost use Rattle.std.specs.Prelude.{◌≡◌, IfOk, false};
ghost use Rattle.mdr_faults.specs.Faults.{Checked, told};
ghost use Rattle.mdr_operand.specs.declared.operand.Operand.{Operand};
ghost use Rattle.mdr_rich.specs.declared.code.Expr.TheVariants as expr;
ghost use Rattle.mdr_rich.specs.declared.code.Lval.TheVariants as lval;
ghost use Rattle.mdr_postfix.specs.Subscripts.{is_array, array_of, element_in, element_of_array, element_behind, element_at, element_of_pointer, element_by, element, subscript_of, subscript_rule};

use crate::located::{Located, given_up, nothing};
use mdr_core::{Boxed, Place};
use mdr_faults::{Fault, FaultKind, Scope, both};
use mdr_operand::{
    Integer, Operand, Pointer, both_given_up, integer_at, is_complete, is_number, needed,
    out_of_memory, pointer_at,
};
use mdr_rich::{Expr, Lval};
use std::alloc::{AllocError, Global};

fn is_array(x: &Operand) -> bool
    ensures { result ≡ is_array x.now }
{
    match x {
        Operand::Array(_, _, _) => true,
        Operand::Value(_)
        | Operand::Zero(_)
        | Operand::Null
        | Operand::Object(_, _)
        | Operand::Function(_, _) => false,
    }
}

fn array_of(x: Operand) -> Option<Located>
    ensures { result ≡ array_of x }
{
    match x {
        Operand::Value(v) => nothing(v),
        Operand::Zero(_) | Operand::Null => None,
        Operand::Object(lval, ty) => nothing(Located { lval, ty }),
        Operand::Array(lval, ty, _) => Some(Located { lval, ty }),
        Operand::Function(_, types) => nothing(types),
    }
}

fn element_in(alloc: Global, i: Integer, x: Located) -> Result<Operand, AllocError>
    ensures { IfOk result (λ y. y ≡ element_in i x) }
{
    let lval = boxed_index(alloc, x.lval, i.value)?;
    Ok(Operand::Object(lval, x.ty))
}

fn index_behind(alloc: Global, array: Boxed<Lval>, index: Expr) -> Result<Lval, AllocError>
    ensures { IfOk result (λ l. l ≡ lval.Index array index) }
{
    Ok(Lval::Index(array, Boxed::new(alloc, index)?))
}

fn boxed_index(alloc: Global, array: Lval, index: Expr) -> Result<Lval, AllocError>
    ensures { IfOk result (λ l. l ≡ lval.Index array index) }
{
    match Boxed::new(alloc, array) {
        Ok(array) => index_behind(alloc, array, index),
        Err(error) => out_of_memory(error, index),
    }
}

#[tactic(auto, unfolding(crate::specs::Subscripts::element_of_array))]
fn element_of_array(
    alloc: Global,
    place: Place,
    i: Integer,
    x: Operand,
) -> Result<Result<Operand, Fault>, AllocError>
    ensures { IfOk result (λ r. r ≡ told (element_of_array place i x)) }
{
    match needed(place, array_of(x)) {
        Ok(x) => Ok(Ok(element_in(alloc, i, x)?)),
        Err(fault) => Ok(given_up(fault, i)),
    }
}

fn moved_behind(alloc: Global, pointer: Boxed<Expr>, by: Expr) -> Result<Lval, AllocError>
    ensures { IfOk result (λ l. l ≡ lval.Deref (expr.Move false pointer by)) }
{
    let place = Expr::Move(false, pointer, Boxed::new(alloc, by)?);
    Ok(Lval::Deref(Boxed::new(alloc, place)?))
}

fn moved(alloc: Global, pointer: Expr, by: Expr) -> Result<Lval, AllocError>
    ensures { IfOk result (λ l. l ≡ lval.Deref (expr.Move false pointer by)) }
{
    match Boxed::new(alloc, pointer) {
        Ok(pointer) => moved_behind(alloc, pointer, by),
        Err(error) => out_of_memory(error, by),
    }
}

fn element_behind(alloc: Global, i: Integer, x: Pointer) -> Result<Operand, AllocError>
    ensures { IfOk result (λ y. y ≡ element_behind i x) }
{
    let lval = moved(alloc, x.value, i.value)?;
    Ok(Operand::Object(lval, x.ty))
}

#[tactic(auto, unfolding(crate::specs::Subscripts::element_at))]
fn element_at(
    alloc: Global,
    scope: &Scope,
    place: Place,
    i: Integer,
    x: Pointer,
) -> Result<Result<Operand, Fault>, AllocError>
    ensures { IfOk result (λ r. r ≡ told (element_at scope.now place i x)) }
{
    if is_complete(scope, &x.ty) {
        Ok(Ok(element_behind(alloc, i, x)?))
    } else {
        Ok(both_given_up(place, FaultKind::Mismatch, i, x))
    }
}

#[tactic(auto, unfolding(crate::specs::Subscripts::element_of_pointer))]
fn element_of_pointer(
    alloc: Global,
    scope: &Scope,
    place: Place,
    i: Integer,
    x: Operand,
) -> Result<Result<Operand, Fault>, AllocError>
    ensures { IfOk result (λ r. r ≡ told (element_of_pointer scope.now place i x)) }
{
    match pointer_at(place, x) {
        Ok(x) => element_at(alloc, scope, place, i, x),
        Err(fault) => Ok(given_up(fault, i)),
    }
}

#[tactic(auto, unfolding(crate::specs::Subscripts::element_by))]
fn element_by(
    alloc: Global,
    scope: &Scope,
    place: Place,
    x: Operand,
    i: Integer,
) -> Result<Result<Operand, Fault>, AllocError>
    ensures { IfOk result (λ r. r ≡ told (element_by scope.now place x i)) }
{
    if is_array(&x) {
        element_of_array(alloc, place, i, x)
    } else {
        element_of_pointer(alloc, scope, place, i, x)
    }
}

#[tactic(auto, unfolding(crate::specs::Subscripts::element))]
fn element(
    alloc: Global,
    scope: &Scope,
    place: Place,
    x: Operand,
    y: Operand,
) -> Result<Result<Operand, Fault>, AllocError>
    ensures { IfOk result (λ r. r ≡ told (element scope.now place x y)) }
{
    match integer_at(place, y) {
        Ok(i) => element_by(alloc, scope, place, x, i),
        Err(fault) => Ok(given_up(fault, x)),
    }
}

#[tactic(auto, unfolding(crate::specs::Subscripts::subscript_of))]
fn subscript_of(
    alloc: Global,
    scope: &Scope,
    place: Place,
    x: Operand,
    y: Operand,
) -> Result<Result<Operand, Fault>, AllocError>
    ensures { IfOk result (λ r. r ≡ told (subscript_of scope.now place x y)) }
{
    if is_number(&y) {
        element(alloc, scope, place, x, y)
    } else {
        element(alloc, scope, place, y, x)
    }
}

/// An element of an array (C99 6.5.2.1).
#[tactic(auto, unfolding(crate::specs::Subscripts::subscript_rule))]
pub fn subscript_rule(
    alloc: Global,
    scope: &Scope,
    place: Place,
    a: Result<Operand, Fault>,
    b: Result<Operand, Fault>,
) -> Result<Result<Operand, Fault>, AllocError>
    ensures { IfOk result (λ r. (c : Checked Operand) (d : Checked Operand) → a ≡ told c → b ≡ told d → r ≡ told (subscript_rule scope.now place c d)) }
{
    match both(a, b) {
        Ok((x, y)) => subscript_of(alloc, scope, place, x, y),
        Err(fault) => Ok(Err(fault)),
    }
}
