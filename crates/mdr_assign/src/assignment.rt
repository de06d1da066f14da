// Assignments (C99 6.5.16).

ghost use Rattle.std.specs.Prelude.{◌≡◌, ◌&&◌, IfOk, Err};
ghost use Rattle.mdr_assign.specs.declared.assignment.Destination.{Destination};
ghost use Rattle.mdr_rich.specs.declared.code.Expr.{Expr};
ghost use Rattle.mdr_operand.specs.declared.operand.Operand.{Operand};
ghost use Rattle.mdr_operand.specs.Forms.{is_active_operand};
ghost use Rattle.mdr_faults.specs.Faults.{Checked, told, after, both};
ghost use Rattle.mdr_binary.specs.Binaries.{calculation_of};
ghost use Rattle.mdr_assign.specs.Assignments.{scalar_object, destination_at, given, plain_at, old_value, compound_at, assigned_by, is_compound, left_at, assigned_at, assignment_rule};

use mdr_binary::calculation_of;
use mdr_code_copies::copied_lval;
use mdr_core::{BinOp, Place, Ty};
use mdr_faults::{Fault, FaultKind, Scope, both, copied_type, is_scalar};
use mdr_operand::{
    AssignmentOperator, Operand, both_given_up, converted_at, given_up, is_active_operand,
    out_of_memory,
};
use mdr_rich::{Expr, Lval};
use std::alloc::{AllocError, Global};

/// A scalar object that is given a value, and its type.
#[derive(Drop)]
pub struct Destination {
    pub object: Lval,
    pub ty: Ty,
}

/// What an assignment does. The value is one of the left side's type.
#[derive(Drop)]
pub struct Assignment {
    pub left: Lval,
    pub right: Expr,
}

/// A fault in place of what was made.
pub fn told_instead<A: Drop, B: Drop>(fault: Fault, _x: A) -> Result<B, Fault>
    ensures { result ≡ Err fault }
{
    Err(fault)
}

#[tactic(auto, unfolding(crate::specs::Assignments::scalar_object))]
fn scalar_object(place: Place, object: Lval, ty: Ty) -> Result<Destination, Fault>
    ensures { result ≡ told (scalar_object place object ty) }
{
    if is_scalar(&ty) {
        Ok(Destination { object, ty })
    } else {
        both_given_up(place, FaultKind::Mismatch, object, ty)
    }
}

/// The left side of an assignment whose operator is at this place.
#[tactic(auto, unfolding(crate::specs::Assignments::destination_at))]
pub fn destination_at(place: Place, x: Operand) -> Result<Destination, Fault>
    ensures { result ≡ told (destination_at place x) }
{
    match x {
        Operand::Value(v) => given_up(place, FaultKind::NotAnLvalue, v),
        Operand::Zero(_) | Operand::Null => Err(Fault {
            place,
            kind: FaultKind::NotAnLvalue,
        }),
        Operand::Object(object, ty) => scalar_object(place, object, ty),
        Operand::Array(l, ty, _) => both_given_up(place, FaultKind::Mismatch, l, ty),
        Operand::Function(_, types) => given_up(place, FaultKind::NotAnLvalue, types),
    }
}

fn given(object: Lval, value: Result<Expr, Fault>) -> Result<Assignment, Fault>
    ensures { (c : Checked Expr) → value ≡ told c → result ≡ told (after c (given object)) }
{
    match value {
        Ok(right) => Ok(Assignment {
            left: object,
            right,
        }),
        Err(fault) => told_instead(fault, object),
    }
}

/// What is left where there is a value.
fn given_where(
    object: Lval,
    value: Result<Result<Expr, Fault>, AllocError>,
) -> Result<Result<Assignment, Fault>, AllocError>
    ensures { (c : Checked Expr) → IfOk value (λ v. v ≡ told c) → IfOk result (λ r. r ≡ told (after c (given object))) }
{
    match value {
        Ok(value) => Ok(given(object, value)),
        Err(error) => out_of_memory(error, object),
    }
}

/// The value converted to the type of what it is given to.
#[tactic(auto, unfolding(crate::specs::Assignments::plain_at))]
fn plain_at(
    alloc: Global,
    place: Place,
    d: Destination,
    y: Operand,
) -> Result<Result<Assignment, Fault>, AllocError>
    ensures { IfOk result (λ r. r ≡ told (plain_at place d y)) }
{
    let value = converted_at(alloc, place, &d.ty, y);
    given_where(d.object, value)
}

fn old_value(alloc: Global, d: &Destination) -> Result<Operand, AllocError>
    ensures { IfOk result (λ x. x ≡ old_value d.now) }
{
    let ty = copied_type(alloc, &d.ty)?;
    let object = copied_lval(alloc, &d.object)?;
    Ok(Operand::Object(object, ty))
}

fn new_value(
    alloc: Global,
    scope: &Scope,
    place: Place,
    op: BinOp,
    d: &Destination,
    y: Operand,
) -> Result<Result<Operand, Fault>, AllocError>
    ensures { IfOk result (λ r. r ≡ told (calculation_of scope.now place op (old_value d.now) y)) }
{
    match old_value(alloc, d) {
        Ok(x) => calculation_of(alloc, scope, place, op, x, y),
        Err(error) => out_of_memory(error, y),
    }
}

fn plain_after(
    alloc: Global,
    place: Place,
    d: Destination,
    value: Result<Result<Operand, Fault>, AllocError>,
) -> Result<Result<Assignment, Fault>, AllocError>
    ensures { (c : Checked Operand) → IfOk value (λ v. v ≡ told c) → IfOk result (λ r. r ≡ told (after c (plain_at place d))) }
{
    match value {
        Ok(Ok(v)) => plain_at(alloc, place, d, v),
        Ok(Err(fault)) => Ok(told_instead(fault, d)),
        Err(error) => out_of_memory(error, d),
    }
}

/// The value before, calculated with another.
#[tactic(auto, unfolding(crate::specs::Assignments::compound_at))]
pub fn compound_at(
    alloc: Global,
    scope: &Scope,
    place: Place,
    op: BinOp,
    d: Destination,
    y: Operand,
) -> Result<Result<Assignment, Fault>, AllocError>
    ensures { IfOk result (λ r. r ≡ told (compound_at scope.now place op d y)) }
{
    let value = new_value(alloc, scope, place, op, &d, y);
    plain_after(alloc, place, d, value)
}

#[tactic(auto, unfolding(crate::specs::Assignments::assigned_by))]
fn assigned_by(
    alloc: Global,
    scope: &Scope,
    place: Place,
    op: Option<AssignmentOperator>,
    d: Destination,
    y: Operand,
) -> Result<Result<Assignment, Fault>, AllocError>
    ensures { IfOk result (λ r. r ≡ told (assigned_by scope.now place op d y)) }
{
    match op {
        None => Ok(both_given_up(place, FaultKind::Mismatch, d, y)),
        Some(AssignmentOperator::Plain) => plain_at(alloc, place, d, y),
        Some(AssignmentOperator::Compound(op)) => compound_at(alloc, scope, place, op, d, y),
    }
}

fn is_compound(op: Option<AssignmentOperator>) -> bool
    ensures { result ≡ is_compound op }
{
    match op {
        Some(AssignmentOperator::Compound(_)) => true,
        Some(AssignmentOperator::Plain) | None => false,
    }
}

fn is_active_left(op: Option<AssignmentOperator>, x: &Operand) -> bool
    ensures { result ≡ (is_compound op && is_active_operand x.now) }
{
    is_compound(op) && is_active_operand(x)
}

#[tactic(auto, unfolding(crate::specs::Assignments::left_at))]
fn left_at(place: Place, op: Option<AssignmentOperator>, x: Operand) -> Result<Destination, Fault>
    ensures { result ≡ told (left_at place op x) }
{
    if is_active_left(op, &x) {
        given_up(place, FaultKind::NotAnLvalue, x)
    } else {
        destination_at(place, x)
    }
}

fn assigned_to(
    alloc: Global,
    scope: &Scope,
    place: Place,
    op: Option<AssignmentOperator>,
    d: Result<Destination, Fault>,
    y: Operand,
) -> Result<Result<Assignment, Fault>, AllocError>
    ensures { (c : Checked Destination) → d ≡ told c → IfOk result (λ r. r ≡ told (after c (λ d. assigned_by scope.now place op d y))) }
{
    match d {
        Ok(d) => assigned_by(alloc, scope, place, op, d, y),
        Err(fault) => Ok(told_instead(fault, y)),
    }
}

#[tactic(auto, unfolding(crate::specs::Assignments::assigned_at))]
fn assigned_at(
    alloc: Global,
    scope: &Scope,
    place: Place,
    op: Option<AssignmentOperator>,
    x: Operand,
    y: Operand,
) -> Result<Result<Assignment, Fault>, AllocError>
    ensures { IfOk result (λ r. r ≡ told (assigned_at scope.now place op x y)) }
{
    let d = left_at(place, op, x);
    assigned_to(alloc, scope, place, op, d, y)
}

/// An assignment, at its operator's place.
#[tactic(auto, unfolding(crate::specs::Assignments::assignment_rule))]
pub fn assignment_rule(
    alloc: Global,
    scope: &Scope,
    place: Place,
    op: Option<AssignmentOperator>,
    left: Result<Operand, Fault>,
    right: Result<Operand, Fault>,
) -> Result<Result<Assignment, Fault>, AllocError>
    ensures { (c d : Checked Operand) → left ≡ told c → right ≡ told d → IfOk result (λ r. r ≡ told (assignment_rule scope.now place op c d)) }
{
    match both(left, right) {
        Ok((x, y)) => assigned_at(alloc, scope, place, op, x, y),
        Err(fault) => Ok(Err(fault)),
    }
}
