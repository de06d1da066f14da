// Calls of parts that were lowered.

ghost use Rattle.std.specs.Prelude.{◌≡◌, None, IfOk};
ghost use Rattle.mdr_core.specs.declared.code.Callee.TheVariants as callee;
ghost use Rattle.mdr_lower.specs.Lowering.{as_call};

use mdr_core::{Boxed, CallForm, Callee, Expr, Items, Name, Ty};
use mdr_faults::{copied, copied_type};
use std::alloc::{AllocError, Global};

pub fn copied_shape(alloc: Global, shape: &Option<Ty>) -> Result<Option<Ty>, AllocError>
    ensures { IfOk result (λ t. t ≡ shape.now) }
{
    match shape {
        None => Ok(None),
        Some(ty) => Ok(Some(copied_type(alloc, ty)?)),
    }
}

pub fn copied_format(alloc: Global, format: &Option<Name>) -> Result<Option<Name>, AllocError>
    ensures { IfOk result (λ text. text ≡ format.now) }
{
    match format {
        None => Ok(None),
        Some(text) => Ok(Some(copied(alloc, text.as_slice())?)),
    }
}

/// A call of a function.
pub fn direct(f: u32, args: Items<Expr>) -> CallForm
    ensures { result ≡ as_call None None (callee.Direct f) args }
{
    CallForm {
        callee: Callee::Direct(f),
        args,
        shape: None,
        format: None,
    }
}

/// A call through a pointer.
pub fn through(f: Boxed<Expr>, args: Items<Expr>) -> CallForm
    ensures { result ≡ as_call None None (callee.Through f) args }
{
    CallForm {
        callee: Callee::Through(f.into_inner()),
        args,
        shape: None,
        format: None,
    }
}

/// A call of a service.
pub fn service(
    alloc: Global,
    number: u32,
    args: Items<Expr>,
    shape: &Option<Ty>,
    format: &Option<Name>,
) -> Result<CallForm, AllocError>
    ensures { IfOk result (λ c. c ≡ as_call shape.now format.now (callee.Service number) args) }
{
    let shape = copied_shape(alloc, shape)?;
    let format = copied_format(alloc, format)?;
    Ok(CallForm {
        callee: Callee::Service(number),
        args,
        shape,
        format,
    })
}
