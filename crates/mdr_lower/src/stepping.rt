// `++` and `--`, lowered (C99 6.5.2.4, 6.5.3.1).

ghost use Rattle.std.specs.Prelude.{◌≡◌, not, pos, IfOk, OnOk};
ghost use Rattle.mdr_core.specs.declared.code.Expr.TheVariants as expr;
ghost use Rattle.mdr_core.specs.declared.code.Step.TheVariants as step;
ghost use Rattle.mdr_core.specs.declared.kind.Kind.TheVariants.{S32};
ghost use Rattle.mdr_core.specs.declared.value.Value.TheVariants as value;
ghost use Rattle.mdr_lower.specs.Lowering.{as_kind, step_operator, stepped_by, stepped, stepped_first, stepped_behind, bumped, kept, put};
ghost use Rattle.mdr_core.specs.declared.types.Ty.TheOpen.{Ty-F};

use crate::copies::copied_lval;
use crate::release::left_over;
use crate::work::{Work, kept, put, slot_value};
use mdr_arith::promote;
use mdr_core::{BinOp, Boxed, Expr, Kind, Lval, Step, Ty, Value};
use mdr_faults::copied_type;
use std::alloc::{AllocError, Global};

fn as_kind(alloc: Global, from: Kind, to: Kind, e: Expr) -> Result<Expr, AllocError>
    ensures { IfOk result (λ x. x ≡ as_kind from to e) }
{
    if from.number() == to.number() {
        Ok(e)
    } else {
        Ok(Expr::Conv(to, Boxed::new(alloc, e)?))
    }
}

fn step_operator(up: bool) -> BinOp
    ensures { result ≡ step_operator up }
{
    if up { BinOp::Add } else { BinOp::Sub }
}

fn stepped_number(alloc: Global, up: bool, kind: Kind, e: Expr) -> Result<Expr, AllocError>
    ensures { IfOk result (λ x. x ≡ stepped_by up e (Ty-F.Int kind)) }
{
    let wide = promote(kind);
    let number = Boxed::new(alloc, as_kind(alloc, kind, wide, e)?)?;
    let one = Boxed::new(alloc, Expr::Lit(Value::Int(wide, 1)))?;
    as_kind(
        alloc,
        wide,
        kind,
        Expr::Bin(step_operator(up), wide, number, one),
    )
}

fn stepped_pointer(alloc: Global, up: bool, e: Expr) -> Result<Expr, AllocError>
    ensures { IfOk result (λ x. x ≡ expr.Move (not up) e (expr.Lit (value.Int S32 (pos 1)))) }
{
    let pointer = Boxed::new(alloc, e)?;
    let one = Boxed::new(alloc, Expr::Lit(Value::Int(Kind::S32, 1)))?;
    Ok(Expr::Move(!up, pointer, one))
}

/// A value of the type, and one more or less.
fn stepped(alloc: Global, up: bool, ty: &Ty, e: Expr) -> Result<Expr, AllocError>
    ensures { IfOk result (λ x. x ≡ stepped up ty.now e) }
{
    match ty {
        Ty::Int(kind) => stepped_number(alloc, up, *kind, e),
        Ty::Lock => Ok(e),
        Ty::Struct(_) => Ok(e),
        Ty::Ptr(_) => stepped_pointer(alloc, up, e),
        Ty::VoidPtr => Ok(e),
        Ty::Fun(_) => Ok(e),
        Ty::Void => Ok(e),
    }
}

fn loaded(alloc: Global, place: &Lval) -> Result<Expr, AllocError>
    ensures { IfOk result (λ x. x ≡ expr.Load place.now) }
{
    Ok(Expr::Load(copied_lval(alloc, place)?))
}

fn assigned(
    alloc: Global,
    number: u32,
    place: &Lval,
    value: Expr,
    work: &mut Work,
) -> Result<(), AllocError>
    ensures { OnOk result (work.new ≡ put number (step.Assign place.now value) work.old) }
{
    match copied_lval(alloc, place) {
        Ok(place) => put(number, Step::Assign(place, value), work),
        Err(error) => left_over(error, value),
    }
}

fn loaded_and_kept(
    alloc: Global,
    number: u32,
    ty: &Ty,
    place: &Lval,
    work: &mut Work,
) -> Result<Expr, AllocError>
    ensures told { IfOk result (λ x. x ≡ (kept number ty.now (work.old, expr.Load place.now)).1) }
    ensures grown { OnOk result (work.new ≡ (kept number ty.now (work.old, expr.Load place.now)).0) }
{
    let value = loaded(alloc, place)?;
    match copied_type(alloc, ty) {
        Ok(ty) => kept(alloc, number, ty, value, work),
        Err(error) => left_over(error, value),
    }
}

fn stepped_first(
    alloc: Global,
    number: u32,
    ty: &Ty,
    up: bool,
    place: &Lval,
    work: &mut Work,
) -> Result<Expr, AllocError>
    ensures told { IfOk result (λ x. x ≡ (stepped_first number ty.now up (work.old, place.now)).1) }
    ensures grown { OnOk result (work.new ≡ (stepped_first number ty.now up (work.old, place.now)).0) }
{
    let value = stepped(alloc, up, ty, loaded(alloc, place)?)?;
    assigned(alloc, number, place, value, work)?;
    loaded_and_kept(alloc, number, ty, place, work)
}

fn stepped_behind(
    alloc: Global,
    number: u32,
    ty: &Ty,
    up: bool,
    place: &Lval,
    work: &mut Work,
) -> Result<Expr, AllocError>
    ensures told { IfOk result (λ x. x ≡ (stepped_behind number ty.now up (work.old, place.now)).1) }
    ensures grown { OnOk result (work.new ≡ (stepped_behind number ty.now up (work.old, place.now)).0) }
{
    let slot = work.next;
    let old = loaded_and_kept(alloc, number, ty, place, work)?;
    let value = stepped(alloc, up, ty, old)?;
    assigned(alloc, number, place, value, work)?;
    Ok(slot_value(slot))
}

/// An object stepped by one, at a place that was lowered.
pub fn bumped(
    alloc: Global,
    number: u32,
    ty: &Ty,
    up: bool,
    first: bool,
    place: &Lval,
    work: &mut Work,
) -> Result<Expr, AllocError>
    ensures told { IfOk result (λ x. x ≡ (bumped number ty.now up first (work.old, place.now)).1) }
    ensures grown { OnOk result (work.new ≡ (bumped number ty.now up first (work.old, place.now)).0) }
{
    if first {
        stepped_first(alloc, number, ty, up, place, work)
    } else {
        stepped_behind(alloc, number, ty, up, place, work)
    }
}
