// Forms with a type, of parts that were copied.

ghost use Rattle.std.specs.Prelude.{◌≡◌, IfOk, List};
ghost use Rattle.mdr_rich.specs.declared.code.Expr.{Expr};
ghost use Rattle.mdr_rich.specs.declared.code.Expr.TheVariants as expr;
ghost use Rattle.mdr_rich.specs.declared.code.Lval.{Lval};

use mdr_core::{Boxed, Items, Name, Ty};
use mdr_faults::{copied, copied_type};
use mdr_rich::{Expr, Lval};
use std::alloc::{AllocError, Global};

pub fn choice(
    alloc: Global,
    ty: &Ty,
    test: Result<Boxed<Expr>, AllocError>,
    one: Result<Boxed<Expr>, AllocError>,
    other: Result<Boxed<Expr>, AllocError>,
) -> Result<Expr, AllocError>
    ensures { (c a b : Expr) → IfOk test (λ x. x ≡ c) → IfOk one (λ x. x ≡ a) → IfOk other (λ x. x ≡ b) → IfOk result (λ e. e ≡ expr.Cond ty.now c a b) }
{
    let test = test?;
    let one = one?;
    let other = other?;
    Ok(Expr::Cond(copied_type(alloc, ty)?, test, one, other))
}

pub fn direct(
    alloc: Global,
    ty: &Ty,
    f: u32,
    args: Result<Items<Expr>, AllocError>,
) -> Result<Expr, AllocError>
    ensures { (es : List Expr) → IfOk args (λ x. x ≡ es) → IfOk result (λ e. e ≡ expr.CallDirect ty.now f es) }
{
    let args = args?;
    Ok(Expr::CallDirect(copied_type(alloc, ty)?, f, args))
}

pub fn through(
    alloc: Global,
    ty: &Ty,
    f: Result<Boxed<Expr>, AllocError>,
    args: Result<Items<Expr>, AllocError>,
) -> Result<Expr, AllocError>
    ensures { (c : Expr) (es : List Expr) → IfOk f (λ x. x ≡ c) → IfOk args (λ x. x ≡ es) → IfOk result (λ e. e ≡ expr.CallThrough ty.now c es) }
{
    let f = f?;
    let args = args?;
    Ok(Expr::CallThrough(copied_type(alloc, ty)?, f, args))
}

fn perhaps_type(alloc: Global, ty: &Option<Ty>) -> Result<Option<Ty>, AllocError>
    ensures { IfOk result (λ t. t ≡ ty.now) }
{
    match ty {
        None => Ok(None),
        Some(ty) => Ok(Some(copied_type(alloc, ty)?)),
    }
}

fn perhaps_text(alloc: Global, text: &Option<Name>) -> Result<Option<Name>, AllocError>
    ensures { IfOk result (λ t. t ≡ text.now) }
{
    match text {
        None => Ok(None),
        Some(text) => Ok(Some(copied(alloc, text.as_slice())?)),
    }
}

pub fn service(
    alloc: Global,
    ty: &Ty,
    n: u32,
    args: Result<Items<Expr>, AllocError>,
    shape: &Option<Ty>,
    format: &Option<Name>,
) -> Result<Expr, AllocError>
    ensures { (es : List Expr) → IfOk args (λ x. x ≡ es) → IfOk result (λ e. e ≡ expr.CallService ty.now n es shape.now format.now) }
{
    let args = args?;
    let ty = copied_type(alloc, ty)?;
    let shape = perhaps_type(alloc, shape)?;
    Ok(Expr::CallService(ty, n, args, shape, perhaps_text(alloc, format)?))
}

pub fn bump(
    alloc: Global,
    ty: &Ty,
    up: bool,
    first: bool,
    place: Result<Lval, AllocError>,
) -> Result<Expr, AllocError>
    ensures { (l : Lval) → IfOk place (λ x. x ≡ l) → IfOk result (λ e. e ≡ expr.Bump ty.now up first l) }
{
    let place = place?;
    Ok(Expr::Bump(copied_type(alloc, ty)?, up, first, place))
}
