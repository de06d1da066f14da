// Pointers moved, and their difference (C99 6.5.6).

ghost use Rattle.std.specs.Prelude.{◌≡◌, IfOk};
ghost use Rattle.mdr_rich.specs.declared.code.Expr.{Expr};
ghost use Rattle.mdr_rich.specs.declared.code.Expr.TheVariants as expr;
ghost use Rattle.mdr_core.specs.declared.kind.Kind.TheVariants.{S64};
ghost use Rattle.mdr_operand.specs.declared.operand.Integer.{Integer};
ghost use Rattle.mdr_operand.specs.declared.operand.Operand.TheVariants as operand;
ghost use Rattle.mdr_operand.specs.declared.operand.Scalar.TheVariants as scalar;
ghost use Rattle.mdr_operand.specs.Forms.{number};
ghost use Rattle.mdr_operand.specs.declared.operand.Pointer.{Pointer};
ghost use Rattle.mdr_faults.specs.declared.fault.FaultKind.TheVariants.{Mismatch};
ghost use Rattle.mdr_faults.specs.Faults.{Checked, told, both, refuse};
ghost use Rattle.mdr_binary.specs.Binaries.{moved, moved_pointer, moved_by, distance, have_distance, distance_at, difference, sum, less, pointers_calculated};

use crate::value::both_boxed;
use mdr_core::{BinOp, Kind, Place, Ty};
use mdr_faults::{Fault, Scope, both, is_alike, mismatch};
use mdr_operand::{
    Integer, Operand, Pointer, Scalar, integer_at, is_complete, is_number, number, pointer_at,
};
use mdr_rich::Expr;
use std::alloc::{AllocError, Global};

/// A fault where these values were to be used.
pub fn given_up<A: Drop, B: Drop, C: Drop>(place: Place, _x: A, _y: B) -> Result<C, Fault>
    ensures { result ≡ told (refuse {A = C} place Mismatch) }
{
    mismatch(place)
}

fn moved_value(alloc: Global, back: bool, e: Expr, steps: Expr) -> Result<Expr, AllocError>
    ensures { IfOk result (λ r. r ≡ expr.Move back e steps) }
{
    let (e, steps) = both_boxed(alloc, e, steps)?;
    Ok(Expr::Move(back, e, steps))
}

fn pointer_to(value: Result<Expr, AllocError>, ty: Ty) -> Result<Operand, AllocError>
    ensures { (e : Expr) → IfOk value (λ r. r ≡ e) → IfOk result (λ x. x ≡ operand.Value (scalar.Pointer e ty)) }
{
    match value {
        Ok(e) => Ok(Operand::Value(Scalar::Pointer(e, ty))),
        Err(error) => Err(error),
    }
}

#[tactic(auto, unfolding(crate::specs::Binaries::moved))]
fn moved(alloc: Global, back: bool, s: Pointer, n: Integer) -> Result<Operand, AllocError>
    ensures { IfOk result (λ x. x ≡ moved back s n) }
{
    pointer_to(moved_value(alloc, back, s.value, n.value), s.ty)
}

#[tactic(auto, unfolding(crate::specs::Binaries::moved_pointer))]
fn moved_pointer(
    alloc: Global,
    scope: &Scope,
    place: Place,
    back: bool,
    s: Pointer,
    n: Integer,
) -> Result<Result<Operand, Fault>, AllocError>
    ensures { IfOk result (λ r. r ≡ told (moved_pointer scope.now place back s n)) }
{
    if is_complete(scope, &s.ty) {
        Ok(Ok(moved(alloc, back, s, n)?))
    } else {
        Ok(given_up(place, s, n))
    }
}

fn both_moved(
    alloc: Global,
    scope: &Scope,
    place: Place,
    back: bool,
    s: Result<Pointer, Fault>,
    n: Result<Integer, Fault>,
) -> Result<Result<Operand, Fault>, AllocError>
    ensures { (c : Checked Pointer) (d : Checked Integer) → s ≡ told c → n ≡ told d → IfOk result (λ r. r ≡ told (both c d (moved_pointer scope.now place back))) }
{
    match both(s, n) {
        Ok((s, n)) => moved_pointer(alloc, scope, place, back, s, n),
        Err(fault) => Ok(Err(fault)),
    }
}

/// A pointer moved by a number of elements, backwards where the flag is true.
#[tactic(auto, unfolding(crate::specs::Binaries::moved_by))]
fn moved_by(
    alloc: Global,
    scope: &Scope,
    place: Place,
    back: bool,
    pointer: Operand,
    steps: Operand,
) -> Result<Result<Operand, Fault>, AllocError>
    ensures { IfOk result (λ r. r ≡ told (moved_by scope.now place back pointer steps)) }
{
    let s = pointer_at(place, pointer);
    let n = integer_at(place, steps);
    both_moved(alloc, scope, place, back, s, n)
}

fn distance_of(alloc: Global, e: Expr, f: Expr) -> Result<Operand, AllocError>
    ensures { IfOk result (λ x. x ≡ number (expr.Diff e f) S64) }
{
    let (e, f) = both_boxed(alloc, e, f)?;
    Ok(number(Expr::Diff(e, f), Kind::S64))
}

#[tactic(auto, unfolding(crate::specs::Binaries::distance))]
fn distance(alloc: Global, s: Pointer, t: Pointer) -> Result<Operand, AllocError>
    ensures { IfOk result (λ x. x ≡ distance s t) }
{
    distance_of(alloc, s.value, t.value)
}

fn have_distance(scope: &Scope, s: &Pointer, t: &Pointer) -> bool
    ensures { result ≡ have_distance scope.now s.now t.now }
{
    is_alike(&s.ty, &t.ty) && is_complete(scope, &s.ty)
}

#[tactic(auto, unfolding(crate::specs::Binaries::distance_at))]
fn distance_at(
    alloc: Global,
    scope: &Scope,
    place: Place,
    s: Pointer,
    t: Pointer,
) -> Result<Result<Operand, Fault>, AllocError>
    ensures { IfOk result (λ r. r ≡ told (distance_at scope.now place s t)) }
{
    if have_distance(scope, &s, &t) {
        Ok(Ok(distance(alloc, s, t)?))
    } else {
        Ok(given_up(place, s, t))
    }
}

fn both_distance(
    alloc: Global,
    scope: &Scope,
    place: Place,
    s: Result<Pointer, Fault>,
    t: Result<Pointer, Fault>,
) -> Result<Result<Operand, Fault>, AllocError>
    ensures { (c d : Checked Pointer) → s ≡ told c → t ≡ told d → IfOk result (λ r. r ≡ told (both c d (distance_at scope.now place))) }
{
    match both(s, t) {
        Ok((s, t)) => distance_at(alloc, scope, place, s, t),
        Err(fault) => Ok(Err(fault)),
    }
}

#[tactic(auto, unfolding(crate::specs::Binaries::difference))]
fn difference(
    alloc: Global,
    scope: &Scope,
    place: Place,
    x: Operand,
    y: Operand,
) -> Result<Result<Operand, Fault>, AllocError>
    ensures { IfOk result (λ r. r ≡ told (difference scope.now place x y)) }
{
    let s = pointer_at(place, x);
    let t = pointer_at(place, y);
    both_distance(alloc, scope, place, s, t)
}

#[tactic(auto, unfolding(crate::specs::Binaries::sum))]
fn sum(
    alloc: Global,
    scope: &Scope,
    place: Place,
    x: Operand,
    y: Operand,
) -> Result<Result<Operand, Fault>, AllocError>
    ensures { IfOk result (λ r. r ≡ told (sum scope.now place x y)) }
{
    if is_number(&y) {
        moved_by(alloc, scope, place, false, x, y)
    } else {
        moved_by(alloc, scope, place, false, y, x)
    }
}

#[tactic(auto, unfolding(crate::specs::Binaries::less))]
fn less(
    alloc: Global,
    scope: &Scope,
    place: Place,
    x: Operand,
    y: Operand,
) -> Result<Result<Operand, Fault>, AllocError>
    ensures { IfOk result (λ r. r ≡ told (less scope.now place x y)) }
{
    if is_number(&y) {
        moved_by(alloc, scope, place, true, x, y)
    } else {
        difference(alloc, scope, place, x, y)
    }
}

/// An operator where one operand at least is no number.
#[tactic(auto, unfolding(crate::specs::Binaries::pointers_calculated))]
pub fn pointers_calculated(
    alloc: Global,
    scope: &Scope,
    place: Place,
    op: BinOp,
    x: Operand,
    y: Operand,
) -> Result<Result<Operand, Fault>, AllocError>
    ensures { IfOk result (λ r. r ≡ told (pointers_calculated scope.now place op x y)) }
{
    match op {
        BinOp::Add => sum(alloc, scope, place, x, y),
        BinOp::Sub => less(alloc, scope, place, x, y),
        _ => Ok(given_up(place, x, y)),
    }
}
