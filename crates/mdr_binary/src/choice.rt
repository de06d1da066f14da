// `c ? a : b` (C99 6.5.15).

ghost use Rattle.std.specs.Prelude.{◌≡◌, IfOk, Option, Some, None, Err};
ghost use Rattle.mdr_core.specs.declared.types.Ty.{Ty, out-Ty};
ghost use Rattle.mdr_core.specs.Layout.{chosen};
ghost use Rattle.mdr_rich.specs.declared.code.Expr.{Expr};
ghost use Rattle.mdr_rich.specs.declared.code.Expr.TheVariants as expr;
ghost use Rattle.mdr_faults.specs.Alike.{is_alike};
ghost use Rattle.mdr_faults.specs.Faults.{Checked, told, both, joined};
ghost use Rattle.mdr_operand.specs.declared.operand.Operand.{Operand};
ghost use Rattle.mdr_operand.specs.Forms.{value_at, value_type};
ghost use Rattle.mdr_binary.specs.Choices.{joined_by, joined_type, beside_null, pointers_type, arms_type, choice_as, choice_by, choice_of, paired, choice_rule};

use crate::compare::are_numbers;
use crate::value::both_boxed;
use mdr_arith::common;
use mdr_core::{Boxed, Place, Ty};
use mdr_faults::{Fault, both, copied_type, is_alike};
use mdr_operand::{
    Operand, condition_at, converted_at, is_null, needed, out_of_memory, value_type, value_where,
};
use mdr_rich::Expr;
use std::alloc::{AllocError, Global};

// ---- the type

fn alike(alloc: Global, t: &Ty, u: &Ty) -> Result<Option<Ty>, AllocError>
    ensures { IfOk result (λ r. r ≡ chosen (is_alike t.now u.now) (Some t.now) None) }
{
    if is_alike(t, u) {
        Ok(Some(copied_type(alloc, t)?))
    } else {
        Ok(None)
    }
}

fn joined_by(alloc: Global, t: &Ty, u: &Ty) -> Result<Option<Ty>, AllocError>
    ensures { IfOk result (λ r. r ≡ joined_by (out-Ty t.now) (out-Ty u.now) t.now u.now) }
{
    match (t, u) {
        (Ty::Int(k), Ty::Int(l)) => Ok(Some(Ty::Int(common(*k, *l)))),
        (Ty::VoidPtr, Ty::Ptr(_)) => Ok(Some(copied_type(alloc, t)?)),
        (Ty::Ptr(_), Ty::VoidPtr) => Ok(Some(copied_type(alloc, u)?)),
        _ => alike(alloc, t, u),
    }
}

fn joined_type(alloc: Global, t: &Option<Ty>, u: &Option<Ty>) -> Result<Option<Ty>, AllocError>
    ensures { IfOk result (λ r. r ≡ joined_type t.now u.now) }
{
    match (t, u) {
        (Some(t), Some(u)) => joined_by(alloc, t, u),
        _ => Ok(None),
    }
}

fn joined_with(
    alloc: Global,
    t: &Option<Ty>,
    u: Result<Option<Ty>, AllocError>,
) -> Result<Option<Ty>, AllocError>
    ensures { (w : Option Ty) → IfOk u (λ x. x ≡ w) → IfOk result (λ r. r ≡ joined_type t.now w) }
{
    let u = u?;
    let joined = joined_type(alloc, t, &u);
    drop(u);
    joined
}

fn both_joined(alloc: Global, x: &Operand, y: &Operand) -> Result<Option<Ty>, AllocError>
    ensures { IfOk result (λ t. t ≡ joined_type (value_type x.now) (value_type y.now)) }
{
    let t = value_type(alloc, x)?;
    let u = value_type(alloc, y);
    let joined = joined_with(alloc, &t, u);
    drop(t);
    joined
}

fn beside_null(alloc: Global, x: &Operand) -> Result<Option<Ty>, AllocError>
    ensures { IfOk result (λ t. t ≡ beside_null x.now) }
{
    if is_null(x) {
        Ok(Some(Ty::VoidPtr))
    } else {
        value_type(alloc, x)
    }
}

fn pointers_type(alloc: Global, x: &Operand, y: &Operand) -> Result<Option<Ty>, AllocError>
    ensures { IfOk result (λ t. t ≡ pointers_type x.now y.now) }
{
    if is_null(y) {
        beside_null(alloc, x)
    } else if is_null(x) {
        value_type(alloc, y)
    } else {
        both_joined(alloc, x, y)
    }
}

#[tactic(auto, unfolding(crate::specs::Choices::arms_type))]
fn arms_type(alloc: Global, x: &Operand, y: &Operand) -> Result<Option<Ty>, AllocError>
    ensures { IfOk result (λ t. t ≡ arms_type x.now y.now) }
{
    if are_numbers(x, y) {
        both_joined(alloc, x, y)
    } else {
        pointers_type(alloc, x, y)
    }
}

// ---- the value

fn with_test(
    alloc: Global,
    ty: Ty,
    test: Expr,
    arms: (Boxed<Expr>, Boxed<Expr>),
) -> Result<Expr, AllocError>
    ensures { IfOk result (λ e. e ≡ expr.Cond ty test arms.0 arms.1) }
{
    match Boxed::new(alloc, test) {
        Ok(test) => Ok(Expr::Cond(ty, test, arms.0, arms.1)),
        Err(error) => out_of_memory(error, (ty, arms)),
    }
}

fn conditional(
    alloc: Global,
    ty: &Ty,
    test: Expr,
    one: Expr,
    other: Expr,
) -> Result<Expr, AllocError>
    ensures { IfOk result (λ e. e ≡ expr.Cond ty.now test one other) }
{
    match both_boxed(alloc, one, other) {
        Ok(arms) => {
            let ty = copied_type(alloc, ty);
            with_type(alloc, ty, test, arms)
        }
        Err(error) => out_of_memory(error, test),
    }
}

fn with_type(
    alloc: Global,
    ty: Result<Ty, AllocError>,
    test: Expr,
    arms: (Boxed<Expr>, Boxed<Expr>),
) -> Result<Expr, AllocError>
    ensures { (t : Ty) → IfOk ty (λ x. x ≡ t) → IfOk result (λ e. e ≡ expr.Cond t test arms.0 arms.1) }
{
    match ty {
        Ok(ty) => with_test(alloc, ty, test, arms),
        Err(error) => out_of_memory(error, (test, arms)),
    }
}

fn choice_value(
    alloc: Global,
    place: Place,
    ty: Ty,
    test: Expr,
    one: Expr,
    other: Expr,
) -> Result<Result<Operand, Fault>, AllocError>
    ensures { IfOk result (λ r. r ≡ told (value_at place ty (expr.Cond ty test one other))) }
{
    let value = conditional(alloc, &ty, test, one, other);
    value_where(place, ty, value)
}

fn choice_made(
    alloc: Global,
    place: Place,
    ty: Ty,
    test: Expr,
    arms: Result<(Expr, Expr), Fault>,
) -> Result<Result<Operand, Fault>, AllocError>
    ensures { (c d : Checked Expr) → arms ≡ joined (told c) (told d) → IfOk result (λ r. r ≡ told (both c d (λ e f. value_at place ty (expr.Cond ty test e f)))) }
{
    match arms {
        Ok((one, other)) => choice_value(alloc, place, ty, test, one, other),
        Err(fault) => Ok(fault_instead(fault, (ty, test))),
    }
}

fn fault_instead<A: Drop, B: Drop>(fault: Fault, _x: A) -> Result<B, Fault>
    ensures { result ≡ Err fault }
{
    Err(fault)
}

fn arms_made(
    one: Result<Result<Expr, Fault>, AllocError>,
    other: Result<Result<Expr, Fault>, AllocError>,
) -> Result<Result<(Expr, Expr), Fault>, AllocError>
    ensures { (c d : Checked Expr) → IfOk one (λ x. x ≡ told c) → IfOk other (λ y. y ≡ told d) → IfOk result (λ r. r ≡ joined (told c) (told d)) }
{
    match one {
        Ok(one) => match other {
            Ok(other) => Ok(both(one, other)),
            Err(error) => out_of_memory(error, one),
        },
        Err(error) => out_of_memory(error, other),
    }
}

fn choice_where(
    alloc: Global,
    place: Place,
    ty: Ty,
    test: Expr,
    arms: Result<Result<(Expr, Expr), Fault>, AllocError>,
) -> Result<Result<Operand, Fault>, AllocError>
    ensures { (c d : Checked Expr) → IfOk arms (λ r. r ≡ joined (told c) (told d)) → IfOk result (λ r. r ≡ told (both c d (λ e f. value_at place ty (expr.Cond ty test e f)))) }
{
    match arms {
        Ok(arms) => choice_made(alloc, place, ty, test, arms),
        Err(error) => out_of_memory(error, (ty, test)),
    }
}

#[tactic(auto, unfolding(crate::specs::Choices::choice_as))]
fn choice_as(
    alloc: Global,
    place: Place,
    test: Expr,
    one: Operand,
    other: Operand,
    ty: Ty,
) -> Result<Result<Operand, Fault>, AllocError>
    ensures { IfOk result (λ r. r ≡ told (choice_as place test one other ty)) }
{
    let one = converted_at(alloc, place, &ty, one);
    let other = converted_at(alloc, place, &ty, other);
    let arms = arms_made(one, other);
    choice_where(alloc, place, ty, test, arms)
}

#[tactic(auto, unfolding(crate::specs::Choices::choice_by))]
fn choice_by(
    alloc: Global,
    place: Place,
    one: Operand,
    other: Operand,
    test: Expr,
) -> Result<Result<Operand, Fault>, AllocError>
    ensures { IfOk result (λ r. r ≡ told (choice_by place one other test)) }
{
    match arms_type(alloc, &one, &other) {
        Ok(ty) => match needed(place, ty) {
            Ok(ty) => choice_as(alloc, place, test, one, other, ty),
            Err(fault) => Ok(fault_instead(fault, (test, (one, other)))),
        },
        Err(error) => out_of_memory(error, (test, (one, other))),
    }
}

#[tactic(auto, unfolding(crate::specs::Choices::choice_of))]
fn choice_of(
    alloc: Global,
    place: Place,
    test: Operand,
    arms: (Operand, Operand),
) -> Result<Result<Operand, Fault>, AllocError>
    ensures { IfOk result (λ r. r ≡ told (choice_of place test arms)) }
{
    match condition_at(place, test) {
        Ok(test) => choice_by(alloc, place, arms.0, arms.1, test),
        Err(fault) => Ok(fault_instead(fault, arms)),
    }
}

fn arms_checked(
    one: Result<Operand, Fault>,
    other: Result<Operand, Fault>,
) -> Result<(Operand, Operand), Fault>
    ensures { (a b : Checked Operand) → one ≡ told a → other ≡ told b → result ≡ told (both a b paired) }
{
    both(one, other)
}

fn choice_checked(
    alloc: Global,
    place: Place,
    test: Result<Operand, Fault>,
    arms: Result<(Operand, Operand), Fault>,
) -> Result<Result<Operand, Fault>, AllocError>
    ensures { (c : Checked Operand) (d : Checked (Operand × Operand)) → test ≡ told c → arms ≡ told d → IfOk result (λ r. r ≡ told (both c d (choice_of place))) }
{
    match both(test, arms) {
        Ok((test, arms)) => choice_of(alloc, place, test, arms),
        Err(fault) => Ok(Err(fault)),
    }
}

/// `c ? a : b`, at the place of the `?`.
#[tactic(auto, unfolding(crate::specs::Choices::choice_rule))]
pub fn choice_rule(
    alloc: Global,
    place: Place,
    test: Result<Operand, Fault>,
    one: Result<Operand, Fault>,
    other: Result<Operand, Fault>,
) -> Result<Result<Operand, Fault>, AllocError>
    ensures { (c a b : Checked Operand) → test ≡ told c → one ≡ told a → other ≡ told b → IfOk result (λ r. r ≡ told (choice_rule place c a b)) }
{
    let arms = arms_checked(one, other);
    choice_checked(alloc, place, test, arms)
}
