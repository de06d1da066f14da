// The type of a form, from the types that its parts carry.

ghost use Rattle.std.specs.Prelude.{◌≡◌, IfOk};
ghost use Rattle.mdr_core.specs.declared.types.Ty.TheVariants as type;
ghost use Rattle.mdr_rich.specs.Carried.{literal_type, target_of, type_of, type_at};
ghost use Rattle.mdr_rich.specs.Folds.{term_of, lvalue_of};

use mdr_core::{Boxed, Kind, Ty, Value};
use mdr_faults::copied_type;
use mdr_rich::{Expr, Lval};
use std::alloc::{AllocError, Global};

fn literal_type(value: Value) -> Ty
    ensures { result ≡ literal_type value }
{
    match value {
        Value::Int(kind, _) => Ty::Int(kind),
        Value::Null => Ty::VoidPtr,
        Value::Ptr(_) => Ty::VoidPtr,
        Value::Dead => Ty::VoidPtr,
        Value::Fn(_) => Ty::VoidPtr,
        Value::Lock(_) => Ty::Lock,
        Value::NoValue => Ty::Void,
    }
}

fn target_of(ty: Ty) -> Ty
    ensures { result ≡ target_of ty }
{
    match ty {
        Ty::Int(_) => Ty::Void,
        Ty::Lock => Ty::Void,
        Ty::Struct(_) => Ty::Void,
        Ty::Ptr(target) => target.into_inner(),
        Ty::VoidPtr => Ty::Void,
        Ty::Fun(_) => Ty::Void,
        Ty::Void => Ty::Void,
    }
}

/// A pointer to what is of this type.
pub fn pointer_of(alloc: Global, ty: Ty) -> Result<Ty, AllocError>
    ensures { IfOk result (λ t. t ≡ type.Ptr ty) }
{
    Ok(Ty::Ptr(Boxed::new(alloc, ty)?))
}

/// The type of an expression.
#[cycle(types)]
pub fn type_of(alloc: Global, e: &Expr) -> Result<Ty, AllocError>
    ensures { IfOk result (λ t. t ≡ type_of (term_of e.now)) }
{
    match e {
        Expr::Lit(value) => Ok(literal_type(*value)),
        Expr::Load(p) => type_at(alloc, p),
        Expr::Addr(p) => pointer_of(alloc, type_at(alloc, p)?),
        Expr::Decay(p) => pointer_of(alloc, type_at(alloc, p)?),
        Expr::Neg(kind, _) => Ok(Ty::Int(*kind)),
        Expr::Flip(kind, _) => Ok(Ty::Int(*kind)),
        Expr::Not(_) => Ok(Ty::Int(Kind::S32)),
        Expr::Bin(_, kind, _, _) => Ok(Ty::Int(*kind)),
        Expr::Rel(_, _, _) => Ok(Ty::Int(Kind::S32)),
        Expr::And(_, _) => Ok(Ty::Int(Kind::S32)),
        Expr::Or(_, _) => Ok(Ty::Int(Kind::S32)),
        Expr::Conv(kind, _) => Ok(Ty::Int(*kind)),
        Expr::ToVoid(_) => Ok(Ty::VoidPtr),
        Expr::FromVoid(ty, _) => pointer_of(alloc, copied_type(alloc, ty)?),
        Expr::Move(_, p, _) => type_of(alloc, p.get()),
        Expr::Diff(_, _) => Ok(Ty::Int(Kind::S64)),
        Expr::Cond(ty, _, _, _) => copied_type(alloc, ty),
        Expr::CallDirect(ty, _, _) => copied_type(alloc, ty),
        Expr::CallThrough(ty, _, _) => copied_type(alloc, ty),
        Expr::CallService(ty, _, _, _, _) => copied_type(alloc, ty),
        Expr::Bump(ty, _, _, _) => copied_type(alloc, ty),
    }
}

/// The type of what an lvalue designates, of an array that of its elements.
#[cycle(types)]
pub fn type_at(alloc: Global, p: &Lval) -> Result<Ty, AllocError>
    ensures { IfOk result (λ t. t ≡ type_at (lvalue_of p.now)) }
{
    match p {
        Lval::Slot(_, ty) => copied_type(alloc, ty),
        Lval::Object(_, ty) => copied_type(alloc, ty),
        Lval::Global(_, ty) => copied_type(alloc, ty),
        Lval::Deref(e) => Ok(target_of(type_of(alloc, e.get())?)),
        Lval::Member(_, _, ty) => copied_type(alloc, ty),
        Lval::Index(p, _) => type_at(alloc, p.get()),
    }
}
