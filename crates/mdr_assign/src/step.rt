// `++` and `--` (C99 6.5.2.4, 6.5.3.1).

ghost use Rattle.std.specs.Prelude.{◌≡◌, IfOk};
ghost use Rattle.mdr_core.specs.declared.code.BinOp.TheVariants.{Add, Sub};
ghost use Rattle.mdr_core.specs.declared.types.Ty.{out-Ty};
ghost use Rattle.mdr_core.specs.Layout.{chosen};
ghost use Rattle.mdr_rich.specs.declared.code.Expr.TheVariants as expr;
ghost use Rattle.mdr_assign.specs.declared.assignment.Destination.{Destination};
ghost use Rattle.mdr_operand.specs.declared.operand.Operand.{Operand};
ghost use Rattle.mdr_faults.specs.Faults.{Checked, told, after};
ghost use Rattle.mdr_operand.specs.Forms.{value_at};
ghost use Rattle.mdr_assign.specs.Assignments.{step_operator, is_stepped_by, stepped_object, stepped_operand, stepped_place, one, stepped_by, stepped_at, step_rule, bump_by, bump_at, bump_rule};

use crate::assignment::{Assignment, Destination, compound_at};
use mdr_core::{BinOp, Kind, Place, Ty, Value};
use mdr_faults::{Fault, FaultKind, Scope, copied_type, mismatch};
use mdr_operand::{
    Operand, both_given_up, given_up, is_active_operand, is_complete, number, out_of_memory,
    value_at,
};
use mdr_rich::{Expr, Lval};
use std::alloc::{AllocError, Global};

/// Whether a step goes upwards.
#[tactic(auto, unfolding(crate::specs::Assignments::step_operator))]
pub fn step_operator(sign: &[u8]) -> Option<bool>
    ensures { result ≡ step_operator sign.now }
{
    if sign == b"++".as_slice() {
        return Some(true);
    }
    if sign == b"--".as_slice() {
        return Some(false);
    }
    None
}

fn one() -> Operand
    ensures { result ≡ one }
{
    number(Expr::Lit(Value::Int(Kind::S32, 1)), Kind::S32)
}

fn operator(up: bool) -> BinOp
    ensures { result ≡ chosen up Add Sub }
{
    if up { BinOp::Add } else { BinOp::Sub }
}

fn is_stepped(scope: &Scope, ty: &Ty) -> bool
    ensures { result ≡ is_stepped_by scope.now (out-Ty ty.now) }
{
    match ty {
        Ty::Int(_) => true,
        Ty::Ptr(target) => is_complete(scope, target.get()),
        Ty::Lock | Ty::Struct(_) | Ty::VoidPtr | Ty::Fun(_) | Ty::Void => false,
    }
}

#[tactic(auto, unfolding(crate::specs::Assignments::stepped_object))]
fn stepped_object(scope: &Scope, place: Place, object: Lval, ty: Ty) -> Result<Destination, Fault>
    ensures { result ≡ told (stepped_object scope.now place object ty) }
{
    if is_stepped(scope, &ty) {
        Ok(Destination { object, ty })
    } else {
        both_given_up(place, FaultKind::Mismatch, object, ty)
    }
}

fn stepped_operand(scope: &Scope, place: Place, x: Operand) -> Result<Destination, Fault>
    ensures { result ≡ told (stepped_operand scope.now place x) }
{
    match x {
        Operand::Value(v) => given_up(place, FaultKind::Mismatch, v),
        Operand::Zero(_) | Operand::Null => mismatch(place),
        Operand::Object(object, ty) => stepped_object(scope, place, object, ty),
        Operand::Array(l, ty, _) => both_given_up(place, FaultKind::Mismatch, l, ty),
        Operand::Function(_, types) => given_up(place, FaultKind::Mismatch, types),
    }
}

#[tactic(auto, unfolding(crate::specs::Assignments::stepped_place))]
fn stepped_place(scope: &Scope, place: Place, x: Operand) -> Result<Destination, Fault>
    ensures { result ≡ told (stepped_place scope.now place x) }
{
    if is_active_operand(&x) {
        given_up(place, FaultKind::NotAnLvalue, x)
    } else {
        stepped_operand(scope, place, x)
    }
}

#[tactic(auto, unfolding(crate::specs::Assignments::stepped_by))]
fn stepped_by(
    alloc: Global,
    scope: &Scope,
    place: Place,
    op: Option<bool>,
    d: Destination,
) -> Result<Result<Assignment, Fault>, AllocError>
    ensures { IfOk result (λ r. r ≡ told (stepped_by scope.now place op d)) }
{
    match op {
        None => Ok(given_up(place, FaultKind::Mismatch, d)),
        Some(up) => compound_at(alloc, scope, place, operator(up), d, one()),
    }
}

fn stepped_to(
    alloc: Global,
    scope: &Scope,
    place: Place,
    op: Option<bool>,
    d: Result<Destination, Fault>,
) -> Result<Result<Assignment, Fault>, AllocError>
    ensures { (c : Checked Destination) → d ≡ told c → IfOk result (λ r. r ≡ told (after c (stepped_by scope.now place op))) }
{
    match d {
        Ok(d) => stepped_by(alloc, scope, place, op, d),
        Err(fault) => Ok(Err(fault)),
    }
}

#[tactic(auto, unfolding(crate::specs::Assignments::stepped_at))]
fn stepped_at(
    alloc: Global,
    scope: &Scope,
    place: Place,
    op: Option<bool>,
    x: Operand,
) -> Result<Result<Assignment, Fault>, AllocError>
    ensures { IfOk result (λ r. r ≡ told (stepped_at scope.now place op x)) }
{
    let d = stepped_place(scope, place, x);
    stepped_to(alloc, scope, place, op, d)
}

/// A step up or down, at the place of its form.
#[tactic(auto, unfolding(crate::specs::Assignments::step_rule))]
pub fn step_rule(
    alloc: Global,
    scope: &Scope,
    place: Place,
    op: Option<bool>,
    x: Result<Operand, Fault>,
) -> Result<Result<Assignment, Fault>, AllocError>
    ensures { (c : Checked Operand) → x ≡ told c → IfOk result (λ r. r ≡ told (step_rule scope.now place op c)) }
{
    match x {
        Ok(x) => stepped_at(alloc, scope, place, op, x),
        Err(fault) => Ok(Err(fault)),
    }
}

// ---- as values

fn bumped(
    alloc: Global,
    place: Place,
    up: bool,
    first: bool,
    d: Destination,
) -> Result<Result<Operand, Fault>, AllocError>
    ensures { IfOk result (λ r. r ≡ told (value_at place d.ty (expr.Bump d.ty up first d.object))) }
{
    match copied_type(alloc, &d.ty) {
        Ok(ty) => Ok(value_at(place, ty, Expr::Bump(d.ty, up, first, d.object))),
        Err(error) => out_of_memory(error, d),
    }
}

#[tactic(auto, unfolding(crate::specs::Assignments::bump_by))]
fn bump_by(
    alloc: Global,
    place: Place,
    first: bool,
    op: Option<bool>,
    d: Destination,
) -> Result<Result<Operand, Fault>, AllocError>
    ensures { IfOk result (λ r. r ≡ told (bump_by place first op d)) }
{
    match op {
        None => Ok(given_up(place, FaultKind::Mismatch, d)),
        Some(up) => bumped(alloc, place, up, first, d),
    }
}

#[tactic(auto, unfolding(crate::specs::Assignments::bump_at))]
fn bump_at(
    alloc: Global,
    scope: &Scope,
    place: Place,
    first: bool,
    op: Option<bool>,
    x: Operand,
) -> Result<Result<Operand, Fault>, AllocError>
    ensures { IfOk result (λ r. r ≡ told (bump_at scope.now place first op x)) }
{
    match stepped_place(scope, place, x) {
        Ok(d) => bump_by(alloc, place, first, op, d),
        Err(fault) => Ok(Err(fault)),
    }
}

/// The value of a step, at the place of its form, and whether the operator stands first.
#[tactic(auto, unfolding(crate::specs::Assignments::bump_rule))]
pub fn bump_rule(
    alloc: Global,
    scope: &Scope,
    place: Place,
    first: bool,
    op: Option<bool>,
    x: Result<Operand, Fault>,
) -> Result<Result<Operand, Fault>, AllocError>
    ensures { (c : Checked Operand) → x ≡ told c → IfOk result (λ r. r ≡ told (bump_rule scope.now place first op c)) }
{
    match x {
        Ok(x) => bump_at(alloc, scope, place, first, op, x),
        Err(fault) => Ok(Err(fault)),
    }
}
