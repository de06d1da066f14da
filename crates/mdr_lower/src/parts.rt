// Which parts are kept, and forms of parts that were lowered.

ghost use Rattle.std.specs.Prelude.{◌≡◌, Bool, drop, length, IfOk, OnOk, map};
ghost use Rattle.mdr_core.specs.declared.code.CallForm.{CallForm};
ghost use Rattle.mdr_core.specs.declared.code.Expr.TheVariants as expr;
ghost use Rattle.mdr_core.specs.declared.kind.Kind.TheVariants.{S32};
ghost use Rattle.mdr_core.specs.declared.code.Step.TheVariants as step;
ghost use Rattle.mdr_core.specs.declared.types.Ty.TheVariants as type;
ghost use Rattle.mdr_rich.specs.Activity.{is_settled, are_active};
ghost use Rattle.mdr_rich.specs.Carried.{type_of};
ghost use Rattle.mdr_rich.specs.Code.{term_list};
ghost use Rattle.mdr_rich.specs.Folds.{term_of};
ghost use Rattle.mdr_lower.specs.Lowering.{put, with_slot, slot_value, keeps, kept, part, called, truth, element};

use crate::release::left_over;
use crate::types::type_of;
use crate::work::{Work, kept, put, slot_value, with_slot};
use mdr_core as plain;
use mdr_core::{Boxed, Items, Kind, Ty};
use mdr_faults::copied_type;
use mdr_rich::{Expr, is_active};
use std::alloc::{AllocError, Global};

/// Whether one of the arguments is active.
pub fn are_active(args: &[Expr]) -> bool
    ensures { result ≡ are_active (term_list (map term_of args.now)) }
{
    for e in args {
        if is_active(e) {
            return true;
        }
    }
    false
}

/// Whether it is no part that is kept in front of an active one.
#[cycle(settled)]
pub fn is_settled(e: &Expr) -> bool
    ensures { result ≡ is_settled (term_of e.now) }
{
    match e {
        Expr::Lit(_) => true,
        Expr::Load(_) => false,
        Expr::Addr(_) => false,
        Expr::Decay(_) => false,
        Expr::Neg(_, _) => false,
        Expr::Flip(_, _) => false,
        Expr::Not(_) => false,
        Expr::Bin(_, _, _, _) => false,
        Expr::Rel(_, _, _) => false,
        Expr::And(_, b) => is_active(b.get()),
        Expr::Or(_, b) => is_active(b.get()),
        Expr::Conv(_, e) => is_settled(e.get()),
        Expr::ToVoid(e) => is_settled(e.get()),
        Expr::FromVoid(_, e) => is_settled(e.get()),
        Expr::Move(_, _, _) => false,
        Expr::Diff(_, _) => false,
        Expr::Cond(_, _, _, _) => true,
        Expr::CallDirect(_, _, _) => true,
        Expr::CallThrough(_, _, _) => true,
        Expr::CallService(_, _, _, _, _) => true,
        Expr::Bump(_, _, _, _) => true,
    }
}

/// Whether it is kept, where an active part may follow.
pub fn keeps(later: bool, e: &Expr) -> bool
    ensures { result ≡ keeps later (term_of e.now) }
{
    later && !is_settled(e)
}

/// The value of a part, which is kept.
pub fn part_kept(
    alloc: Global,
    number: u32,
    e: &Expr,
    value: plain::Expr,
    work: &mut Work,
) -> Result<plain::Expr, AllocError>
    ensures told { IfOk result (λ x. x ≡ (kept number (type_of (term_of e.now)) (work.old, value)).1) }
    ensures grown { OnOk result (work.new ≡ (kept number (type_of (term_of e.now)) (work.old, value)).0) }
{
    match type_of(alloc, e) {
        Ok(ty) => kept(alloc, number, ty, value, work),
        Err(error) => left_over(error, value),
    }
}

/// The value of a part, which is kept where the flag says so.
pub fn part(
    alloc: Global,
    is_kept: bool,
    number: u32,
    e: &Expr,
    value: plain::Expr,
    work: &mut Work,
) -> Result<plain::Expr, AllocError>
    ensures told { IfOk result (λ x. x ≡ (part is_kept number (type_of (term_of e.now)) (work.old, value)).1) }
    ensures grown { OnOk result (work.new ≡ (part is_kept number (type_of (term_of e.now)) (work.old, value)).0) }
{
    if is_kept {
        part_kept(alloc, number, e, value, work)
    } else {
        Ok(value)
    }
}

/// The value of a call, which is kept.
pub fn called(
    alloc: Global,
    number: u32,
    ty: &Ty,
    form: plain::CallForm,
    work: &mut Work,
) -> Result<plain::Expr, AllocError>
    ensures told { IfOk result (λ x. x ≡ (called number ty.now (work.old, form)).1) }
    ensures grown { OnOk result (work.new ≡ (called number ty.now (work.old, form)).0) }
{
    match slot_of(alloc, ty, work) {
        Ok(slot) => {
            let target = Some(plain::Lval::Slot(slot));
            put(number, plain::Step::Call(target, form), work)?;
            Ok(slot_value(slot))
        }
        Err(error) => left_over(error, form),
    }
}

/// A slot of the type.
pub fn slot_of(alloc: Global, ty: &Ty, work: &mut Work) -> Result<u32, AllocError>
    ensures told { IfOk result (λ i. i ≡ work.old.next) }
    ensures grown { OnOk result (work.new ≡ with_slot ty.now work.old) }
{
    with_slot(alloc, copied_type(alloc, ty)?, work)
}

/// `!!e`.
pub fn truth(alloc: Global, e: Boxed<plain::Expr>) -> Result<plain::Expr, AllocError>
    ensures { IfOk result (λ x. x ≡ truth e) }
{
    let no = plain::Expr::Not(e);
    Ok(plain::Expr::Not(Boxed::new(alloc, no)?))
}

/// The truth of a value, which is kept in a slot of this number.
pub fn truth_kept(
    alloc: Global,
    number: u32,
    value: Boxed<plain::Expr>,
    work: &mut Work,
) -> Result<u32, AllocError>
    ensures told { IfOk result (λ i. i ≡ work.old.next) }
    ensures grown { OnOk result (work.new ≡ (kept number (type.Int S32) (work.old, truth value)).0) }
{
    let value = truth(alloc, value)?;
    match with_slot(alloc, Ty::Int(Kind::S32), work) {
        Ok(slot) => {
            put(
                number,
                plain::Step::Assign(plain::Lval::Slot(slot), value),
                work,
            )?;
            Ok(slot)
        }
        Err(error) => left_over(error, value),
    }
}

/// A `void *` as a pointer to the type.
pub fn from_void(alloc: Global, ty: &Ty, e: Boxed<plain::Expr>) -> Result<plain::Expr, AllocError>
    ensures { IfOk result (λ x. x ≡ expr.FromVoid ty.now e) }
{
    Ok(plain::Expr::FromVoid(copied_type(alloc, ty)?, e))
}

/// An element of an array by a pointer to its first one.
pub fn element(
    alloc: Global,
    pointer: Boxed<plain::Expr>,
    index: Boxed<plain::Expr>,
) -> Result<plain::Lval, AllocError>
    ensures { IfOk result (λ l. l ≡ element pointer index) }
{
    let moved = plain::Expr::Move(false, pointer, index);
    Ok(plain::Lval::Deref(Boxed::new(alloc, moved)?))
}

/// A statement that chooses between two lists, each of which leaves its value in the slot.
pub fn branched(
    number: u32,
    test: plain::Expr,
    one: Items<plain::Stmt>,
    other: Items<plain::Stmt>,
    work: &mut Work,
) -> Result<(), AllocError>
    ensures { OnOk result (work.new ≡ put number (step.If test one other) work.old) }
{
    put(number, plain::Step::If(test, one, other), work)
}
