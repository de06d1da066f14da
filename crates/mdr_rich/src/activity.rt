// Which forms are active: a call, `++`, `--` or `?:` stands in them (C99 6.5.2.2, 6.5.2.4, 6.5.3.1, 6.5.15).

ghost use Rattle.std.specs.Prelude.{◌≡◌};
ghost use Rattle.mdr_rich.specs.Activity.{is_active, is_active_place};
ghost use Rattle.mdr_rich.specs.Folds.{term_of, lvalue_of};

use crate::code::{Expr, Lval};

/// Whether a call, `++`, `--` or `?:` stands in it.
#[cycle(activity)]
pub fn is_active(e: &Expr) -> bool
    ensures { result ≡ is_active (term_of e.now) }
{
    match e {
        Expr::Lit(_) => false,
        Expr::Load(p) => is_active_place(p),
        Expr::Addr(p) => is_active_place(p),
        Expr::Decay(p) => is_active_place(p),
        Expr::Neg(_, e) => is_active(e.get()),
        Expr::Flip(_, e) => is_active(e.get()),
        Expr::Not(e) => is_active(e.get()),
        Expr::Bin(_, _, a, b) => is_active(a.get()) || is_active(b.get()),
        Expr::Rel(_, a, b) => is_active(a.get()) || is_active(b.get()),
        Expr::And(a, b) => is_active(a.get()) || is_active(b.get()),
        Expr::Or(a, b) => is_active(a.get()) || is_active(b.get()),
        Expr::Conv(_, e) => is_active(e.get()),
        Expr::ToVoid(e) => is_active(e.get()),
        Expr::FromVoid(_, e) => is_active(e.get()),
        Expr::Move(_, p, i) => is_active(p.get()) || is_active(i.get()),
        Expr::Diff(p, q) => is_active(p.get()) || is_active(q.get()),
        Expr::Cond(_, _, _, _) => true,
        Expr::CallDirect(_, _, _) => true,
        Expr::CallThrough(_, _, _) => true,
        Expr::CallService(_, _, _, _, _) => true,
        Expr::Bump(_, _, _, _) => true,
    }
}

/// The same of an lvalue.
#[cycle(activity)]
pub fn is_active_place(p: &Lval) -> bool
    ensures { result ≡ is_active_place (lvalue_of p.now) }
{
    match p {
        Lval::Slot(_, _) | Lval::Object(_, _) | Lval::Global(_, _) => false,
        Lval::Deref(e) => is_active(e.get()),
        Lval::Member(p, _, _) => is_active_place(p.get()),
        Lval::Index(p, e) => is_active_place(p.get()) || is_active(e.get()),
    }
}
