// Expressions and lvalues, lowered.

ghost use Rattle.std.specs.Prelude.{◌≡◌, Bool, [], map, IfOk, OnOk};
ghost use Rattle.mdr_core.specs.declared.types.Ty.TheVariants as type;
ghost use Rattle.mdr_core.specs.declared.code.Expr.TheVariants as expr;
ghost use Rattle.mdr_rich.specs.Carried.{type_of, type_at};
ghost use Rattle.mdr_rich.specs.Code.{Term, term_list};
ghost use Rattle.mdr_rich.specs.Folds.{term_of, lvalue_of};
ghost use Rattle.mdr_lower.specs.Apart.{apart, either, two_lowered};
ghost use Rattle.mdr_lower.specs.Lowering.{mapped, part, keeps, kept, arm, inside, truth, low, low_place, low_args};

use crate::forms::{direct, service, through};
use crate::parts::{
    are_active, branched, called, element, from_void, keeps, part, slot_of, truth, truth_kept,
};
use crate::release::left_over;
use crate::stepping::bumped;
use crate::types::{pointer_of, type_at};
use crate::work::{Work, kept, put, put_back, set_aside, slot_value};
use mdr_core as plain;
use mdr_core::{Boxed, Items};
use mdr_rich::{Expr, Lval, is_active};
use std::alloc::{AllocError, Global};

/// The value of an expression.
#[cycle(lowering)]
pub fn boxed(
    alloc: Global,
    number: u32,
    e: &Expr,
    work: &mut Work,
) -> Result<Boxed<plain::Expr>, AllocError>
    ensures told { IfOk result (λ x. x ≡ (low number (term_of e.now) work.old).1) }
    ensures grown { OnOk result (work.new ≡ (low number (term_of e.now) work.old).0) }
{
    let value = low(alloc, number, e, work)?;
    Boxed::new(alloc, value)
}

#[cycle(lowering)]
fn boxed_place(
    alloc: Global,
    number: u32,
    p: &Lval,
    work: &mut Work,
) -> Result<Boxed<plain::Lval>, AllocError>
    ensures told { IfOk result (λ x. x ≡ (low_place number (lvalue_of p.now) work.old).1) }
    ensures grown { OnOk result (work.new ≡ (low_place number (lvalue_of p.now) work.old).0) }
{
    let place = low_place(alloc, number, p, work)?;
    Boxed::new(alloc, place)
}

/// A part, which is kept where an active one follows.
#[cycle(lowering)]
pub fn low_part(
    alloc: Global,
    number: u32,
    e: &Expr,
    later: bool,
    work: &mut Work,
) -> Result<plain::Expr, AllocError>
    ensures told { IfOk result (λ x. x ≡ (part (keeps later (term_of e.now)) number (type_of (term_of e.now)) (low number (term_of e.now) work.old)).1) }
    ensures grown { OnOk result (work.new ≡ (part (keeps later (term_of e.now)) number (type_of (term_of e.now)) (low number (term_of e.now) work.old)).0) }
{
    let value = low(alloc, number, e, work)?;
    part(alloc, keeps(later, e), number, e, value, work)
}

#[cycle(lowering)]
fn boxed_part(
    alloc: Global,
    number: u32,
    e: &Expr,
    later: bool,
    work: &mut Work,
) -> Result<Boxed<plain::Expr>, AllocError>
    ensures told { IfOk result (λ x. x ≡ (part (keeps later (term_of e.now)) number (type_of (term_of e.now)) (low number (term_of e.now) work.old)).1) }
    ensures grown { OnOk result (work.new ≡ (part (keeps later (term_of e.now)) number (type_of (term_of e.now)) (low number (term_of e.now) work.old)).0) }
{
    let value = low_part(alloc, number, e, later, work)?;
    Boxed::new(alloc, value)
}

/// Arguments, from the first to the last.
#[cycle(lowering)]
pub fn low_args(
    alloc: Global,
    number: u32,
    args: &[Expr],
    work: &mut Work,
) -> Result<Items<plain::Expr>, AllocError>
    ensures told { IfOk result (λ es. es ≡ (low_args number (term_list (map term_of args.now)) [] work.old).1) }
    ensures grown { OnOk result (work.new ≡ (low_args number (term_list (map term_of args.now)) [] work.old).0) }
{
    let mut all = Items::new(alloc);
    for i in 0..args.len() {
        let later = are_active(&args[i + 1..]);
        all.push(low_part(alloc, number, &args[i], later, work)?)?;
    }
    Ok(all)
}

#[cycle(lowering)]
fn put_arm(
    alloc: Global,
    number: u32,
    e: &Expr,
    slot: u32,
    work: &mut Work,
) -> Result<(), AllocError>
    ensures { OnOk result (work.new ≡ arm number slot (low number (term_of e.now) work.old)) }
{
    let value = low(alloc, number, e, work)?;
    put(
        number,
        plain::Step::Assign(plain::Lval::Slot(slot), value),
        work,
    )
}

#[cycle(lowering)]
fn put_truth(
    alloc: Global,
    number: u32,
    e: &Expr,
    slot: u32,
    work: &mut Work,
) -> Result<(), AllocError>
    ensures { OnOk result (work.new ≡ arm number slot (mapped truth (low number (term_of e.now) work.old))) }
{
    let value = truth(alloc, boxed(alloc, number, e, work)?)?;
    put(
        number,
        plain::Step::Assign(plain::Lval::Slot(slot), value),
        work,
    )
}

/// Statements inside another that leave the value in the slot.
#[cycle(lowering)]
fn arm_apart(
    alloc: Global,
    number: u32,
    e: &Expr,
    slot: u32,
    work: &mut Work,
) -> Result<Items<plain::Stmt>, AllocError>
    ensures told { IfOk result (λ ss. ss ≡ (apart work.old (arm number slot (low number (term_of e.now) (inside work.old)))).1) }
    ensures grown { OnOk result (work.new ≡ (apart work.old (arm number slot (low number (term_of e.now) (inside work.old)))).0) }
{
    let front = set_aside(alloc, work);
    match put_arm(alloc, number, e, slot, work) {
        Ok(()) => Ok(put_back(front, work)),
        Err(error) => left_over(error, front),
    }
}

/// The same of its truth.
#[cycle(lowering)]
fn truth_apart(
    alloc: Global,
    number: u32,
    e: &Expr,
    slot: u32,
    work: &mut Work,
) -> Result<Items<plain::Stmt>, AllocError>
    ensures told { IfOk result (λ ss. ss ≡ (apart work.old (arm number slot (mapped truth (low number (term_of e.now) (inside work.old))))).1) }
    ensures grown { OnOk result (work.new ≡ (apart work.old (arm number slot (mapped truth (low number (term_of e.now) (inside work.old))))).0) }
{
    let front = set_aside(alloc, work);
    match put_truth(alloc, number, e, slot, work) {
        Ok(()) => Ok(put_back(front, work)),
        Err(error) => left_over(error, front),
    }
}

/// The array that an index follows, as a pointer that is kept.
#[cycle(lowering)]
fn kept_array(
    alloc: Global,
    number: u32,
    p: &Lval,
    work: &mut Work,
) -> Result<plain::Expr, AllocError>
    ensures told { IfOk result (λ x. x ≡ (kept number (type.Ptr (type_at (lvalue_of p.now))) (mapped expr.Decay (low_place number (lvalue_of p.now) work.old))).1) }
    ensures grown { OnOk result (work.new ≡ (kept number (type.Ptr (type_at (lvalue_of p.now))) (mapped expr.Decay (low_place number (lvalue_of p.now) work.old))).0) }
{
    let array = low_place(alloc, number, p, work)?;
    decayed(alloc, number, p, array, work)
}

#[cycle(lowering)]
fn boxed_array(
    alloc: Global,
    number: u32,
    p: &Lval,
    work: &mut Work,
) -> Result<Boxed<plain::Expr>, AllocError>
    ensures told { IfOk result (λ x. x ≡ (kept number (type.Ptr (type_at (lvalue_of p.now))) (mapped expr.Decay (low_place number (lvalue_of p.now) work.old))).1) }
    ensures grown { OnOk result (work.new ≡ (kept number (type.Ptr (type_at (lvalue_of p.now))) (mapped expr.Decay (low_place number (lvalue_of p.now) work.old))).0) }
{
    let pointer = kept_array(alloc, number, p, work)?;
    Boxed::new(alloc, pointer)
}

fn decayed(
    alloc: Global,
    number: u32,
    p: &Lval,
    array: plain::Lval,
    work: &mut Work,
) -> Result<plain::Expr, AllocError>
    ensures told { IfOk result (λ x. x ≡ (kept number (type.Ptr (type_at (lvalue_of p.now))) (work.old, expr.Decay array)).1) }
    ensures grown { OnOk result (work.new ≡ (kept number (type.Ptr (type_at (lvalue_of p.now))) (work.old, expr.Decay array)).0) }
{
    match pointer_at(alloc, p) {
        Ok(ty) => kept(alloc, number, ty, plain::Expr::Decay(array), work),
        Err(error) => left_over(error, array),
    }
}

fn pointer_at(alloc: Global, p: &Lval) -> Result<plain::Ty, AllocError>
    ensures { IfOk result (λ t. t ≡ type.Ptr (type_at (lvalue_of p.now))) }
{
    pointer_of(alloc, type_at(alloc, p)?)
}

#[cycle(lowering)]
pub fn low_place(
    alloc: Global,
    number: u32,
    p: &Lval,
    work: &mut Work,
) -> Result<plain::Lval, AllocError>
    ensures told { IfOk result (λ x. x ≡ (low_place number (lvalue_of p.now) work.old).1) }
    ensures grown { OnOk result (work.new ≡ (low_place number (lvalue_of p.now) work.old).0) }
{
    match p {
        Lval::Slot(slot, _) => Ok(plain::Lval::Slot(*slot)),
        Lval::Object(slot, _) => Ok(plain::Lval::Object(*slot)),
        Lval::Global(global, _) => Ok(plain::Lval::Global(*global)),
        Lval::Deref(e) => Ok(plain::Lval::Deref(boxed(alloc, number, e.get(), work)?)),
        Lval::Member(p, field, _) => {
            Ok(plain::Lval::Member(boxed_place(alloc, number, p.get(), work)?, *field))
        }
        Lval::Index(p, e) => {
            if is_active(e.get()) {
                let pointer = boxed_array(alloc, number, p.get(), work)?;
                let index = boxed(alloc, number, e.get(), work)?;
                element(alloc, pointer, index)
            } else {
                let array = boxed_place(alloc, number, p.get(), work)?;
                let index = boxed(alloc, number, e.get(), work)?;
                Ok(plain::Lval::Index(array, index))
            }
        }
    }
}

/// Two parts, the left one kept where the right one is active.
#[cycle(lowering)]
fn two_parts(
    alloc: Global,
    number: u32,
    a: &Expr,
    b: &Expr,
    work: &mut Work,
) -> Result<(Boxed<plain::Expr>, Boxed<plain::Expr>), AllocError>
    ensures told { IfOk result (λ p. p ≡ (two_lowered number (term_of a.now) (term_of b.now) work.old).1) }
    ensures grown { OnOk result (work.new ≡ (two_lowered number (term_of a.now) (term_of b.now) work.old).0) }
{
    let left = boxed_part(alloc, number, a, is_active(b), work)?;
    let right = boxed(alloc, number, b, work)?;
    Ok((left, right))
}

/// `&&`, with an active right side as a choice.
#[cycle(lowering)]
fn conjoined(
    alloc: Global,
    number: u32,
    a: &Expr,
    b: &Expr,
    work: &mut Work,
) -> Result<plain::Expr, AllocError>
    ensures told { IfOk result (λ x. x ≡ (low number (Term.And (term_of a.now) (term_of b.now)) work.old).1) }
    ensures grown { OnOk result (work.new ≡ (low number (Term.And (term_of a.now) (term_of b.now)) work.old).0) }
{
    let left = boxed(alloc, number, a, work)?;
    if is_active(b) {
        let slot = truth_kept(alloc, number, left, work)?;
        let one = truth_apart(alloc, number, b, slot, work)?;
        branched(number, slot_value(slot), one, Items::new(alloc), work)?;
        Ok(slot_value(slot))
    } else {
        let right = boxed(alloc, number, b, work)?;
        Ok(plain::Expr::And(left, right))
    }
}

/// `||` behind its left side, with an active right side as a choice.
#[cycle(lowering)]
pub fn either(
    alloc: Global,
    number: u32,
    left: Boxed<plain::Expr>,
    b: &Expr,
    work: &mut Work,
) -> Result<plain::Expr, AllocError>
    ensures told { IfOk result (λ x. x ≡ (either number (work.old, left) (term_of b.now)).1) }
    ensures grown { OnOk result (work.new ≡ (either number (work.old, left) (term_of b.now)).0) }
{
    if is_active(b) {
        let slot = truth_kept(alloc, number, left, work)?;
        let other = truth_apart(alloc, number, b, slot, work)?;
        branched(number, slot_value(slot), Items::new(alloc), other, work)?;
        Ok(slot_value(slot))
    } else {
        let right = boxed(alloc, number, b, work)?;
        Ok(plain::Expr::Or(left, right))
    }
}

/// `||`.
#[cycle(lowering)]
fn disjoined(
    alloc: Global,
    number: u32,
    a: &Expr,
    b: &Expr,
    work: &mut Work,
) -> Result<plain::Expr, AllocError>
    ensures told { IfOk result (λ x. x ≡ (low number (Term.Or (term_of a.now) (term_of b.now)) work.old).1) }
    ensures grown { OnOk result (work.new ≡ (low number (Term.Or (term_of a.now) (term_of b.now)) work.old).0) }
{
    let left = boxed(alloc, number, a, work)?;
    either(alloc, number, left, b, work)
}

/// `c ? a : b`.
#[cycle(lowering)]
fn choice(
    alloc: Global,
    number: u32,
    c: &Expr,
    a: &Expr,
    b: &Expr,
    ty: &plain::Ty,
    work: &mut Work,
) -> Result<plain::Expr, AllocError>
    ensures told { IfOk result (λ x. x ≡ (low number (Term.Cond ty.now (term_of c.now) (term_of a.now) (term_of b.now)) work.old).1) }
    ensures grown { OnOk result (work.new ≡ (low number (Term.Cond ty.now (term_of c.now) (term_of a.now) (term_of b.now)) work.old).0) }
{
    let test = boxed(alloc, number, c, work)?;
    let slot = slot_of(alloc, ty, work)?;
    let one = arm_apart(alloc, number, a, slot, work)?;
    let other = arm_apart(alloc, number, b, slot, work)?;
    branched(number, test.into_inner(), one, other, work)?;
    Ok(slot_value(slot))
}

#[cycle(lowering)]
pub fn low(alloc: Global, number: u32, e: &Expr, work: &mut Work) -> Result<plain::Expr, AllocError>
    ensures told { IfOk result (λ x. x ≡ (low number (term_of e.now) work.old).1) }
    ensures grown { OnOk result (work.new ≡ (low number (term_of e.now) work.old).0) }
{
    match e {
        Expr::Lit(value) => Ok(plain::Expr::Lit(*value)),
        Expr::Load(p) => Ok(plain::Expr::Load(low_place(alloc, number, p, work)?)),
        Expr::Addr(p) => Ok(plain::Expr::Addr(low_place(alloc, number, p, work)?)),
        Expr::Decay(p) => Ok(plain::Expr::Decay(low_place(alloc, number, p, work)?)),
        Expr::Neg(kind, a) => Ok(plain::Expr::Neg(*kind, boxed(alloc, number, a.get(), work)?)),
        Expr::Flip(kind, a) => Ok(plain::Expr::Flip(*kind, boxed(alloc, number, a.get(), work)?)),
        Expr::Not(a) => Ok(plain::Expr::Not(boxed(alloc, number, a.get(), work)?)),
        Expr::Bin(op, kind, a, b) => {
            let (a, b) = two_parts(alloc, number, a.get(), b.get(), work)?;
            Ok(plain::Expr::Bin(*op, *kind, a, b))
        }
        Expr::Rel(op, a, b) => {
            let (a, b) = two_parts(alloc, number, a.get(), b.get(), work)?;
            Ok(plain::Expr::Rel(*op, a, b))
        }
        Expr::And(a, b) => conjoined(alloc, number, a.get(), b.get(), work),
        Expr::Or(a, b) => disjoined(alloc, number, a.get(), b.get(), work),
        Expr::Conv(kind, a) => Ok(plain::Expr::Conv(*kind, boxed(alloc, number, a.get(), work)?)),
        Expr::ToVoid(a) => Ok(plain::Expr::ToVoid(boxed(alloc, number, a.get(), work)?)),
        Expr::FromVoid(ty, a) => from_void(alloc, ty, boxed(alloc, number, a.get(), work)?),
        Expr::Move(back, a, b) => {
            let (a, b) = two_parts(alloc, number, a.get(), b.get(), work)?;
            Ok(plain::Expr::Move(*back, a, b))
        }
        Expr::Diff(a, b) => {
            let (a, b) = two_parts(alloc, number, a.get(), b.get(), work)?;
            Ok(plain::Expr::Diff(a, b))
        }
        Expr::Cond(ty, c, a, b) => choice(alloc, number, c.get(), a.get(), b.get(), ty, work),
        Expr::CallDirect(ty, f, args) => {
            let args = low_args(alloc, number, args.as_slice(), work)?;
            called(alloc, number, ty, direct(*f, args), work)
        }
        Expr::CallThrough(ty, f, args) => {
            let later = are_active(args.as_slice());
            let f = boxed_part(alloc, number, f.get(), later, work)?;
            let args = low_args(alloc, number, args.as_slice(), work)?;
            called(alloc, number, ty, through(f, args), work)
        }
        Expr::CallService(ty, n, args, shape, format) => {
            let args = low_args(alloc, number, args.as_slice(), work)?;
            let form = service(alloc, *n, args, shape, format)?;
            called(alloc, number, ty, form, work)
        }
        Expr::Bump(ty, up, first, p) => {
            let place = boxed_place(alloc, number, p, work)?;
            bumped(alloc, number, ty, *up, *first, place.get(), work)
        }
    }
}
