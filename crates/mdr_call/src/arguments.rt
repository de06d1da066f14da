// The arguments of a call (C99 6.5.2.2).

ghost use Rattle.std.specs.Prelude.{◌≡◌, IfOk, slice_get};
ghost use Rattle.std.specs.Option.{option_copied};
ghost use Rattle.mdr_faults.specs.declared.fault.FaultKind.TheVariants.{Mismatch};
ghost use Rattle.mdr_faults.specs.Faults.{told, refuse};
ghost use Rattle.mdr_call.specs.Arguments.{argument_as, argument_for, arguments_as, converted};

use crate::parts::{Argument, bad_arity};
use mdr_core::{Items, Place, Ty};
use mdr_faults::{Fault, extended, mismatch};
use mdr_operand::converted_at;
use mdr_rich::Expr;
use std::alloc::{AllocError, Global};

/// A wrong part, which is let go.
pub fn refused<A: Drop, B: Drop>(place: Place, _part: A) -> Result<B, Fault>
    ensures { result ≡ told (refuse {A = B} place Mismatch) }
{
    mismatch(place)
}

#[tactic(auto, unfolding(crate::specs::Arguments::argument_as))]
fn argument_as(
    alloc: Global,
    place: Place,
    ty: &Ty,
    argument: Argument,
) -> Result<Result<Expr, Fault>, AllocError>
    ensures { IfOk result (λ r. r ≡ told (argument_as place ty.now argument)) }
{
    match argument {
        Argument::Value(x) => converted_at(alloc, place, ty, x),
        Argument::Text(bytes) => Ok(refused(place, bytes)),
        Argument::Type(named) => Ok(refused(place, named)),
    }
}

#[tactic(auto, unfolding(crate::specs::Arguments::argument_for))]
fn argument_for(
    alloc: Global,
    place: Place,
    ty: Option<&Ty>,
    argument: Argument,
) -> Result<Result<Expr, Fault>, AllocError>
    ensures { IfOk result (λ r. r ≡ told (argument_for place (option_copied ty.entry) argument)) }
{
    match ty {
        None => Ok(refused(place, argument)),
        Some(ty) => argument_as(alloc, place, ty, argument),
    }
}

fn argument_at(
    alloc: Global,
    place: Place,
    types: &[Ty],
    i: usize,
    argument: Argument,
) -> Result<Result<Expr, Fault>, AllocError>
    ensures { IfOk result (λ r. r ≡ told (argument_for place (slice_get types.now i) argument)) }
{
    argument_for(alloc, place, types.get(i), argument)
}

/// Arguments as values of a function's parameters: its types are its result's and then theirs.
pub fn arguments_as(
    alloc: Global,
    place: Place,
    types: &[Ty],
    arguments: Items<Argument>,
) -> Result<Result<Items<Expr>, Fault>, AllocError>
    ensures { IfOk result (λ r. r ≡ told (arguments_as place types.now arguments)) }
{
    let mut all = Ok(Items::new(alloc));
    let mut i = 0;
    for argument in arguments.into_vec() {
        i += 1;
        all = extended(all, argument_at(alloc, place, types, i, argument)?)?;
    }
    Ok(all)
}

/// The same, where there are as many arguments as parameters.
#[tactic(auto, unfolding(crate::specs::Arguments::converted))]
pub fn converted(
    alloc: Global,
    place: Place,
    types: &[Ty],
    arguments: Items<Argument>,
) -> Result<Result<Items<Expr>, Fault>, AllocError>
    ensures { IfOk result (λ r. r ≡ told (converted place types.now arguments)) }
{
    if types.len() == arguments.len() + 1 {
        arguments_as(alloc, place, types, arguments)
    } else {
        Ok(bad_arity(place))
    }
}
