// Copies of lvalues and expressions that were lowered.

ghost use Rattle.std.specs.Prelude.{◌≡◌, IfOk};

use mdr_core::{Boxed, Expr, Lval};
use mdr_faults::copied_type;
use std::alloc::{AllocError, Global};

#[cycle(copies)]
fn boxed_expr(alloc: Global, e: &Expr) -> Result<Boxed<Expr>, AllocError>
    ensures { IfOk result (λ c. c ≡ e.now) }
{
    let copy = copied_expr(alloc, e)?;
    Boxed::new(alloc, copy)
}

#[cycle(copies)]
fn boxed_lval(alloc: Global, l: &Lval) -> Result<Boxed<Lval>, AllocError>
    ensures { IfOk result (λ c. c ≡ l.now) }
{
    let copy = copied_lval(alloc, l)?;
    Boxed::new(alloc, copy)
}

/// The same lvalue once more.
#[cycle(copies)]
pub fn copied_lval(alloc: Global, l: &Lval) -> Result<Lval, AllocError>
    ensures { IfOk result (λ c. c ≡ l.now) }
{
    match l {
        Lval::Slot(slot) => Ok(Lval::Slot(*slot)),
        Lval::Object(slot) => Ok(Lval::Object(*slot)),
        Lval::Global(global) => Ok(Lval::Global(*global)),
        Lval::Deref(e) => Ok(Lval::Deref(boxed_expr(alloc, e.get())?)),
        Lval::Member(l, field) => Ok(Lval::Member(boxed_lval(alloc, l.get())?, *field)),
        Lval::Index(l, e) => {
            let l = boxed_lval(alloc, l.get())?;
            let e = boxed_expr(alloc, e.get())?;
            Ok(Lval::Index(l, e))
        }
    }
}

#[cycle(copies)]
fn copied_expr(alloc: Global, e: &Expr) -> Result<Expr, AllocError>
    ensures { IfOk result (λ c. c ≡ e.now) }
{
    match e {
        Expr::Lit(value) => Ok(Expr::Lit(*value)),
        Expr::Load(l) => Ok(Expr::Load(copied_lval(alloc, l)?)),
        Expr::Addr(l) => Ok(Expr::Addr(copied_lval(alloc, l)?)),
        Expr::Decay(l) => Ok(Expr::Decay(copied_lval(alloc, l)?)),
        Expr::Neg(kind, a) => Ok(Expr::Neg(*kind, boxed_expr(alloc, a.get())?)),
        Expr::Flip(kind, a) => Ok(Expr::Flip(*kind, boxed_expr(alloc, a.get())?)),
        Expr::Not(a) => Ok(Expr::Not(boxed_expr(alloc, a.get())?)),
        Expr::Bin(op, kind, a, b) => {
            let a = boxed_expr(alloc, a.get())?;
            let b = boxed_expr(alloc, b.get())?;
            Ok(Expr::Bin(*op, *kind, a, b))
        }
        Expr::Rel(op, a, b) => {
            let a = boxed_expr(alloc, a.get())?;
            let b = boxed_expr(alloc, b.get())?;
            Ok(Expr::Rel(*op, a, b))
        }
        Expr::And(a, b) => {
            let a = boxed_expr(alloc, a.get())?;
            let b = boxed_expr(alloc, b.get())?;
            Ok(Expr::And(a, b))
        }
        Expr::Or(a, b) => {
            let a = boxed_expr(alloc, a.get())?;
            let b = boxed_expr(alloc, b.get())?;
            Ok(Expr::Or(a, b))
        }
        Expr::Conv(kind, a) => Ok(Expr::Conv(*kind, boxed_expr(alloc, a.get())?)),
        Expr::ToVoid(a) => Ok(Expr::ToVoid(boxed_expr(alloc, a.get())?)),
        Expr::FromVoid(ty, a) => {
            let a = boxed_expr(alloc, a.get())?;
            Ok(Expr::FromVoid(copied_type(alloc, ty)?, a))
        }
        Expr::Move(back, a, b) => {
            let a = boxed_expr(alloc, a.get())?;
            let b = boxed_expr(alloc, b.get())?;
            Ok(Expr::Move(*back, a, b))
        }
        Expr::Diff(a, b) => {
            let a = boxed_expr(alloc, a.get())?;
            let b = boxed_expr(alloc, b.get())?;
            Ok(Expr::Diff(a, b))
        }
    }
}
