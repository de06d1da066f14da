// Copies of expressions and lvalues.

ghost use Rattle.std.specs.Prelude.{◌≡◌, IfOk};

use crate::parts::{bump, choice, direct, service, through};
use mdr_core::{Boxed, Items};
use mdr_faults::copied_type;
use mdr_rich::{Expr, Lval};
use std::alloc::{AllocError, Global};

#[cycle(copies)]
fn boxed_expr(alloc: Global, e: &Expr) -> Result<Boxed<Expr>, AllocError>
    ensures { IfOk result (λ c. c ≡ e.now) }
{
    let copy = copied_expr(alloc, e)?;
    Boxed::new(alloc, copy)
}

#[cycle(copies)]
fn boxed_lval(alloc: Global, l: &Lval) -> Result<Boxed<Lval>, AllocError>
    ensures { IfOk result (λ c. c ≡ l.now) }
{
    let copy = copied_lval(alloc, l)?;
    Boxed::new(alloc, copy)
}

#[cycle(copies)]
fn copied_args(alloc: Global, args: &[Expr]) -> Result<Items<Expr>, AllocError>
    ensures { IfOk result (λ es. es ≡ args.now) }
{
    let mut all = Items::new(alloc);
    for e in args {
        all.push(copied_expr(alloc, e)?)?;
    }
    Ok(all)
}

/// The same lvalue once more.
#[cycle(copies)]
pub fn copied_lval(alloc: Global, l: &Lval) -> Result<Lval, AllocError>
    ensures { IfOk result (λ c. c ≡ l.now) }
{
    match l {
        Lval::Slot(slot, ty) => Ok(Lval::Slot(*slot, copied_type(alloc, ty)?)),
        Lval::Object(slot, ty) => Ok(Lval::Object(*slot, copied_type(alloc, ty)?)),
        Lval::Global(global, ty) => Ok(Lval::Global(*global, copied_type(alloc, ty)?)),
        Lval::Deref(e) => Ok(Lval::Deref(boxed_expr(alloc, e.get())?)),
        Lval::Member(l, field, ty) => {
            let l = boxed_lval(alloc, l.get())?;
            Ok(Lval::Member(l, *field, copied_type(alloc, ty)?))
        }
        Lval::Index(l, e) => {
            let l = boxed_lval(alloc, l.get())?;
            let e = boxed_expr(alloc, e.get())?;
            Ok(Lval::Index(l, e))
        }
    }
}

/// The same expression once more.
#[cycle(copies)]
pub fn copied_expr(alloc: Global, e: &Expr) -> Result<Expr, AllocError>
    ensures { IfOk result (λ c. c ≡ e.now) }
{
    match e {
        Expr::Lit(value) => Ok(Expr::Lit(*value)),
        Expr::Load(l) => Ok(Expr::Load(copied_lval(alloc, l)?)),
        Expr::Addr(l) => Ok(Expr::Addr(copied_lval(alloc, l)?)),
        Expr::Decay(l) => Ok(Expr::Decay(copied_lval(alloc, l)?)),
        Expr::Neg(kind, a) => Ok(Expr::Neg(*kind, boxed_expr(alloc, a.get())?)),
        Expr::Flip(kind, a) => Ok(Expr::Flip(*kind, boxed_expr(alloc, a.get())?)),
        Expr::Not(a) => Ok(Expr::Not(boxed_expr(alloc, a.get())?)),
        Expr::Bin(op, kind, a, b) => {
            let a = boxed_expr(alloc, a.get())?;
            let b = boxed_expr(alloc, b.get())?;
            Ok(Expr::Bin(*op, *kind, a, b))
        }
        Expr::Rel(op, a, b) => {
            let a = boxed_expr(alloc, a.get())?;
            let b = boxed_expr(alloc, b.get())?;
            Ok(Expr::Rel(*op, a, b))
        }
        Expr::And(a, b) => {
            let a = boxed_expr(alloc, a.get())?;
            let b = boxed_expr(alloc, b.get())?;
            Ok(Expr::And(a, b))
        }
        Expr::Or(a, b) => {
            let a = boxed_expr(alloc, a.get())?;
            let b = boxed_expr(alloc, b.get())?;
            Ok(Expr::Or(a, b))
        }
        Expr::Conv(kind, a) => Ok(Expr::Conv(*kind, boxed_expr(alloc, a.get())?)),
        Expr::ToVoid(a) => Ok(Expr::ToVoid(boxed_expr(alloc, a.get())?)),
        Expr::FromVoid(ty, a) => {
            let a = boxed_expr(alloc, a.get())?;
            Ok(Expr::FromVoid(copied_type(alloc, ty)?, a))
        }
        Expr::Move(back, a, b) => {
            let a = boxed_expr(alloc, a.get())?;
            let b = boxed_expr(alloc, b.get())?;
            Ok(Expr::Move(*back, a, b))
        }
        Expr::Diff(a, b) => {
            let a = boxed_expr(alloc, a.get())?;
            let b = boxed_expr(alloc, b.get())?;
            Ok(Expr::Diff(a, b))
        }
        Expr::Cond(ty, c, a, b) => {
            let c = boxed_expr(alloc, c.get());
            let a = boxed_expr(alloc, a.get());
            let b = boxed_expr(alloc, b.get());
            choice(alloc, ty, c, a, b)
        }
        Expr::CallDirect(ty, f, args) => {
            direct(alloc, ty, *f, copied_args(alloc, args.as_slice()))
        }
        Expr::CallThrough(ty, f, args) => {
            let f = boxed_expr(alloc, f.get());
            through(alloc, ty, f, copied_args(alloc, args.as_slice()))
        }
        Expr::CallService(ty, n, args, shape, format) => {
            let args = copied_args(alloc, args.as_slice());
            service(alloc, ty, *n, args, shape, format)
        }
        Expr::Bump(ty, up, first, l) => bump(alloc, ty, *up, *first, copied_lval(alloc, l)),
    }
}
