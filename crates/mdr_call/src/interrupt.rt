// `request_irq`.

ghost use Rattle.std.specs.Prelude.{◌≡◌, ◌∷◌, [], IfOk};
ghost use Rattle.std.specs.Option.{option_copied};
ghost use Rattle.mdr_rich.specs.declared.code.Expr.TheVariants as expr;
ghost use Rattle.mdr_core.specs.declared.value.Value.TheVariants as value;
ghost use Rattle.mdr_faults.specs.Faults.{told};
ghost use Rattle.mdr_call.specs.Services.{is_void_there, is_handler, handler_by, handler, requested, request_irq};

use crate::parts::{Argument, TypedCall, bad_arity, plain_call};
use mdr_core::{Items, Kind, Place, Ty, Value};
use mdr_faults::{Fault, FaultKind, is_void};
use mdr_operand::Operand;
use mdr_rich::{Callee, Expr};
use std::alloc::{AllocError, Global};

fn is_void_there(ty: Option<&Ty>) -> bool
    ensures { result ≡ is_void_there (option_copied ty.entry) }
{
    match ty {
        None => false,
        Some(ty) => is_void(ty),
    }
}

fn is_handler(types: &[Ty]) -> bool
    ensures { result ≡ is_handler types.now }
{
    types.len() == 1 && is_void_there(types.get(0))
}

fn handler_by(x: &Operand) -> Option<u32>
    ensures { result ≡ handler_by x.now }
{
    match x {
        Operand::Function(f, types) => {
            if is_handler(types.as_slice()) {
                Some(*f)
            } else {
                None
            }
        }
        Operand::Value(_)
        | Operand::Zero(_)
        | Operand::Null
        | Operand::Object(_, _)
        | Operand::Array(_, _, _) => None,
    }
}

fn handler(argument: Option<&Argument>) -> Option<u32>
    ensures { result ≡ handler (option_copied argument.entry) }
{
    match argument {
        Some(Argument::Value(x)) => handler_by(x),
        Some(Argument::Text(_)) | Some(Argument::Type(_)) | None => None,
    }
}

fn named(alloc: Global, f: u32) -> Result<Items<Expr>, AllocError>
    ensures { IfOk result (λ es. es ≡ expr.Lit (value.Fn f) ∷ []) }
{
    let mut all = Items::new(alloc);
    all.push(Expr::Lit(Value::Fn(f)))?;
    Ok(all)
}

fn requested(
    alloc: Global,
    place: Place,
    f: Option<u32>,
) -> Result<Result<TypedCall, Fault>, AllocError>
    ensures { IfOk result (λ r. r ≡ told (requested place f)) }
{
    match f {
        None => Ok(Err(Fault {
            place,
            kind: FaultKind::IrqTarget,
        })),
        Some(f) => Ok(Ok(plain_call(Callee::Service(7), named(alloc, f)?, Ty::Int(Kind::S32)))),
    }
}

/// `request_irq(f)`.
#[tactic(auto, unfolding(crate::specs::Services::request_irq))]
pub fn request_irq(
    alloc: Global,
    place: Place,
    arguments: Items<Argument>,
) -> Result<Result<TypedCall, Fault>, AllocError>
    ensures { IfOk result (λ r. r ≡ told (request_irq place arguments)) }
{
    if arguments.len() == 1 {
        requested(alloc, place, handler(arguments.as_slice().get(0)))
    } else {
        Ok(bad_arity(place))
    }
}
