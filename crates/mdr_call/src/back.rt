// `kcall`.

ghost use Rattle.std.specs.Prelude.{◌≡◌, ◌∷◌, IfOk};
ghost use Rattle.mdr_faults.specs.Faults.{Right, told, after};
ghost use Rattle.mdr_rich.specs.declared.code.Callee.TheVariants as callee;
ghost use Rattle.mdr_call.specs.Arguments.{arguments_as, plain_call};
ghost use Rattle.mdr_call.specs.Services.{handle_argument, calling_back, called_back, kcall_of, kcall_by, kcall};

use crate::arguments::{arguments_as, refused};
use crate::function::handle_by;
use crate::parts::{Argument, Handle, TypedCall, bad_arity, first_off, plain_call, result_of};
use mdr_core::{Items, Place, Ty};
use mdr_faults::Fault;
use mdr_operand::{needed, out_of_memory, value_of};
use mdr_postfix::{given_up, nothing};
use mdr_rich::{Callee, Expr};
use std::alloc::{AllocError, Global};

fn handle_argument(argument: Argument) -> Option<Handle>
    ensures { result ≡ handle_argument argument }
{
    match argument {
        Argument::Value(x) => handle_by(value_of(x)),
        Argument::Text(bytes) => nothing(bytes),
        Argument::Type(ty) => nothing(ty),
    }
}

fn with_first(first: Expr, rest: Items<Expr>) -> Result<Items<Expr>, AllocError>
    ensures { IfOk result (λ es. es ≡ first ∷ rest) }
{
    let mut all = rest.into_vec();
    all.insert(0, first)?;
    Ok(Items::from_vec(all))
}

fn calling(value: Expr, args: Items<Expr>, result_type: Ty) -> Result<TypedCall, AllocError>
    ensures { IfOk result (λ c. c ≡ plain_call (callee.Service 15) (value ∷ args) result_type) }
{
    let all = with_first(value, args)?;
    Ok(plain_call(Callee::Service(15), all, result_type))
}

fn calling_back(alloc: Global, h: Handle, args: Items<Expr>) -> Result<TypedCall, AllocError>
    ensures { IfOk result (λ c. c ≡ calling_back h args) }
{
    match result_of(alloc, h.types.as_slice()) {
        Ok(result_type) => calling(h.value, args, result_type),
        Err(error) => out_of_memory(error, h),
    }
}

fn called(
    alloc: Global,
    place: Place,
    rest: Items<Argument>,
    h: Handle,
) -> Result<Result<TypedCall, Fault>, AllocError>
    ensures { IfOk result (λ r. r ≡ told (after (arguments_as place h.types rest) (λ es. Right (calling_back h es)))) }
{
    match arguments_as(alloc, place, h.types.as_slice(), rest) {
        Ok(Ok(args)) => Ok(Ok(calling_back(alloc, h, args)?)),
        Ok(Err(fault)) => Ok(given_up(fault, h)),
        Err(error) => out_of_memory(error, h),
    }
}

#[tactic(auto, unfolding(crate::specs::Services::called_back))]
fn called_back(
    alloc: Global,
    place: Place,
    rest: Items<Argument>,
    h: Handle,
) -> Result<Result<TypedCall, Fault>, AllocError>
    ensures { IfOk result (λ r. r ≡ told (called_back place rest h)) }
{
    if h.types.len() == 2 {
        called(alloc, place, rest, h)
    } else {
        Ok(refused(place, (rest, h)))
    }
}

#[tactic(auto, unfolding(crate::specs::Services::kcall_of))]
fn kcall_of(
    alloc: Global,
    place: Place,
    f: Argument,
    rest: Items<Argument>,
) -> Result<Result<TypedCall, Fault>, AllocError>
    ensures { IfOk result (λ r. r ≡ told (kcall_of place f rest)) }
{
    match needed(place, handle_argument(f)) {
        Ok(h) => called_back(alloc, place, rest, h),
        Err(fault) => Ok(given_up(fault, rest)),
    }
}

fn kcall_by(
    alloc: Global,
    place: Place,
    parts: Option<(Argument, Items<Argument>)>,
) -> Result<Result<TypedCall, Fault>, AllocError>
    ensures { IfOk result (λ r. r ≡ told (kcall_by place parts)) }
{
    match parts {
        None => Ok(bad_arity(place)),
        Some((f, rest)) => kcall_of(alloc, place, f, rest),
    }
}

/// `kcall(f, a)`.
#[tactic(auto, unfolding(crate::specs::Services::kcall))]
pub fn kcall(
    alloc: Global,
    place: Place,
    arguments: Items<Argument>,
) -> Result<Result<TypedCall, Fault>, AllocError>
    ensures { IfOk result (λ r. r ≡ told (kcall place arguments)) }
{
    if arguments.len() == 2 {
        kcall_by(alloc, place, first_off(arguments))
    } else {
        Ok(bad_arity(place))
    }
}
