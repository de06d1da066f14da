// `printk`.

ghost use Rattle.std.specs.Prelude.{◌≡◌, ◌∷◌, IfOk, map};
ghost use Rattle.mdr_core.specs.declared.types.Ty.TheVariants as type;
ghost use Rattle.mdr_faults.specs.Faults.{told};
ghost use Rattle.mdr_call.specs.Services.{text_argument, printing, printed_with, printed, printed_first, printk};

use crate::arguments::{converted, refused};
use crate::directives::directives;
use crate::parts::{Argument, TypedCall, bad_arity, first_off};
use crate::plain::alone;
use mdr_core::{Items, Kind, Name, Place, Ty};
use mdr_faults::Fault;
use mdr_operand::needed;
use mdr_postfix::{given_up, nothing};
use mdr_rich::{CallForm, Callee, Expr};
use std::alloc::{AllocError, Global};

fn text_argument(argument: Argument) -> Option<Name>
    ensures { result ≡ text_argument argument }
{
    match argument {
        Argument::Text(bytes) => Some(bytes),
        Argument::Value(x) => nothing(x),
        Argument::Type(ty) => nothing(ty),
    }
}

fn printing(text: Name, args: Items<Expr>) -> TypedCall
    ensures { result ≡ printing text args }
{
    TypedCall {
        form: CallForm {
            callee: Callee::Service(6),
            args,
            shape: None,
            format: Some(text),
        },
        result: Ty::Void,
    }
}

/// What directives of these kinds take.
fn directive_types(alloc: Global, kinds: &[Kind]) -> Result<Items<Ty>, AllocError>
    ensures { IfOk result (λ types. types ≡ type.Void ∷ map type.Int kinds.now) }
{
    let mut types = alone(alloc, Ty::Void)?;
    for kind in kinds {
        types.push(Ty::Int(*kind))?;
    }
    Ok(types)
}

#[tactic(auto, unfolding(crate::specs::Services::printed_with))]
fn printed_with(
    alloc: Global,
    place: Place,
    text: Name,
    arguments: Items<Argument>,
    kinds: &[Kind],
) -> Result<Result<TypedCall, Fault>, AllocError>
    ensures { IfOk result (λ r. r ≡ told (printed_with place text arguments kinds.now)) }
{
    let types = directive_types(alloc, kinds)?;
    match converted(alloc, place, types.as_slice(), arguments)? {
        Ok(args) => Ok(Ok(printing(text, args))),
        Err(fault) => Ok(given_up(fault, text)),
    }
}

#[tactic(auto, unfolding(crate::specs::Services::printed))]
fn printed(
    alloc: Global,
    place: Place,
    arguments: Items<Argument>,
    text: Name,
) -> Result<Result<TypedCall, Fault>, AllocError>
    ensures { IfOk result (λ r. r ≡ told (printed place arguments text)) }
{
    match directives(alloc, text.as_slice())? {
        Some(kinds) => printed_with(alloc, place, text, arguments, kinds.as_slice()),
        None => Ok(refused(place, arguments)),
    }
}

#[tactic(auto, unfolding(crate::specs::Services::printed_first))]
fn printed_first(
    alloc: Global,
    place: Place,
    first: Argument,
    rest: Items<Argument>,
) -> Result<Result<TypedCall, Fault>, AllocError>
    ensures { IfOk result (λ r. r ≡ told (printed_first place first rest)) }
{
    match needed(place, text_argument(first)) {
        Ok(text) => printed(alloc, place, rest, text),
        Err(fault) => Ok(given_up(fault, rest)),
    }
}

/// `printk("..", ..)`.
#[tactic(auto, unfolding(crate::specs::Services::printk))]
pub fn printk(
    alloc: Global,
    place: Place,
    arguments: Items<Argument>,
) -> Result<Result<TypedCall, Fault>, AllocError>
    ensures { IfOk result (λ r. r ≡ told (printk place arguments)) }
{
    match first_off(arguments) {
        None => Ok(bad_arity(place)),
        Some((first, rest)) => printed_first(alloc, place, first, rest),
    }
}
