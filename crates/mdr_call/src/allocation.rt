// Allocations.

ghost use Rattle.std.specs.Prelude.{◌≡◌, ◌∷◌, [], IfOk, List};
ghost use Rattle.std.specs.Option.{option_copied};
ghost use Rattle.mdr_core.specs.declared.kind.Kind.TheVariants.{U64};
ghost use Rattle.mdr_core.specs.declared.types.Ty.TheVariants as type;
ghost use Rattle.mdr_core.specs.declared.types.Ty.{Ty};
ghost use Rattle.mdr_faults.specs.Faults.{Right, told, after};
ghost use Rattle.mdr_operand.specs.Forms.{needed};
ghost use Rattle.mdr_call.specs.Arguments.{arguments_as};
ghost use Rattle.mdr_call.specs.Services.{type_argument, allocated, allocation_of, kzalloc, counted, counted_by, kcalloc};

use crate::arguments::arguments_as;
use crate::parts::{Argument, TypedCall, bad_arity, first_off};
use crate::plain::{alone, one};
use mdr_core::{Boxed, Items, Kind, Place, Ty};
use mdr_faults::{Fault, Scope, cells_of, copied_type, mismatch};
use mdr_postfix::given_up;
use mdr_rich::{CallForm, Callee, Expr};
use std::alloc::{AllocError, Global};

fn type_argument(argument: Option<&Argument>) -> Option<&Ty>
    ensures { option_copied result ≡ type_argument (option_copied argument.entry) }
{
    match argument {
        Some(Argument::Type(ty)) => Some(ty),
        Some(Argument::Value(_)) | Some(Argument::Text(_)) | None => None,
    }
}

fn allocated(alloc: Global, number: u32, ty: Ty, args: Items<Expr>) -> Result<TypedCall, AllocError>
    ensures { IfOk result (λ c. c ≡ allocated number ty args) }
{
    let target = Boxed::new(alloc, copied_type(alloc, &ty)?)?;
    Ok(TypedCall {
        form: CallForm {
            callee: Callee::Service(number),
            args,
            shape: Some(ty),
            format: None,
        },
        result: Ty::Ptr(target),
    })
}

fn allocated_copy(
    alloc: Global,
    number: u32,
    ty: &Ty,
    args: Items<Expr>,
) -> Result<TypedCall, AllocError>
    ensures { IfOk result (λ c. c ≡ allocated number ty.now args) }
{
    let ty = copied_type(alloc, ty)?;
    allocated(alloc, number, ty, args)
}

/// An allocation of elements of a type. The counts are a result's type and then those of the arguments before it.
fn allocation_with(
    alloc: Global,
    place: Place,
    number: u32,
    counts: &[Ty],
    arguments: Items<Argument>,
    ty: &Ty,
) -> Result<Result<TypedCall, Fault>, AllocError>
    ensures { IfOk result (λ r. r ≡ told (after (arguments_as place counts.now arguments) (λ es. Right (allocated number ty.now es)))) }
{
    match arguments_as(alloc, place, counts, arguments)? {
        Ok(args) => Ok(Ok(allocated_copy(alloc, number, ty, args)?)),
        Err(fault) => Ok(Err(fault)),
    }
}

#[tactic(auto, unfolding(crate::specs::Services::allocation_of))]
fn allocation_of(
    alloc: Global,
    scope: &Scope,
    place: Place,
    number: u32,
    counts: Items<Ty>,
    arguments: Items<Argument>,
    ty: &Ty,
) -> Result<Result<TypedCall, Fault>, AllocError>
    ensures { (ts : List Ty) → counts ≡ type.Void ∷ ts → IfOk result (λ r. r ≡ told (allocation_of scope.now place number ts arguments ty.now)) }
{
    match cells_of(scope, place, ty) {
        Ok(_) => allocation_with(alloc, place, number, counts.as_slice(), arguments, ty),
        Err(fault) => Ok(given_up(fault, arguments)),
    }
}

/// `kzalloc(T)`.
#[tactic(auto, unfolding(crate::specs::Services::kzalloc))]
pub fn kzalloc(
    alloc: Global,
    scope: &Scope,
    place: Place,
    arguments: Items<Argument>,
) -> Result<Result<TypedCall, Fault>, AllocError>
    ensures { IfOk result (λ r. r ≡ told (kzalloc scope.now place arguments)) }
{
    if arguments.len() != 1 {
        return Ok(bad_arity(place));
    }
    match type_argument(arguments.as_slice().get(0)) {
        None => Ok(mismatch(place)),
        Some(ty) => {
            let counts = alone(alloc, Ty::Void)?;
            let none = Items::new(alloc);
            allocation_of(alloc, scope, place, 1, counts, none, ty)
        }
    }
}

fn only(alloc: Global, argument: Argument) -> Result<Items<Argument>, AllocError>
    ensures { IfOk result (λ all. all ≡ argument ∷ []) }
{
    let mut all = Items::new(alloc);
    all.push(argument)?;
    Ok(all)
}

fn counted_type(
    alloc: Global,
    scope: &Scope,
    place: Place,
    count: Argument,
    ty: Option<&Ty>,
) -> Result<Result<TypedCall, Fault>, AllocError>
    ensures { IfOk result (λ r. r ≡ told (after (needed place (option_copied ty.entry)) (allocation_of scope.now place 2 (type.Int U64 ∷ []) (count ∷ [])))) }
{
    let arguments = only(alloc, count)?;
    match ty {
        None => Ok(mismatch(place)),
        Some(ty) => {
            let counts = one(alloc, Ty::Void, Ty::Int(Kind::U64))?;
            allocation_of(alloc, scope, place, 2, counts, arguments, ty)
        }
    }
}

#[tactic(auto, unfolding(crate::specs::Services::counted))]
fn counted(
    alloc: Global,
    scope: &Scope,
    place: Place,
    count: Argument,
    rest: &[Argument],
) -> Result<Result<TypedCall, Fault>, AllocError>
    ensures { IfOk result (λ r. r ≡ told (counted scope.now place count rest.now)) }
{
    counted_type(alloc, scope, place, count, type_argument(rest.get(0)))
}

fn counted_by(
    alloc: Global,
    scope: &Scope,
    place: Place,
    parts: Option<(Argument, Items<Argument>)>,
) -> Result<Result<TypedCall, Fault>, AllocError>
    ensures { IfOk result (λ r. r ≡ told (counted_by scope.now place parts)) }
{
    match parts {
        None => Ok(bad_arity(place)),
        Some((count, rest)) => counted(alloc, scope, place, count, rest.as_slice()),
    }
}

/// `kcalloc(n, T)`.
#[tactic(auto, unfolding(crate::specs::Services::kcalloc))]
pub fn kcalloc(
    alloc: Global,
    scope: &Scope,
    place: Place,
    arguments: Items<Argument>,
) -> Result<Result<TypedCall, Fault>, AllocError>
    ensures { IfOk result (λ r. r ≡ told (kcalloc scope.now place arguments)) }
{
    if arguments.len() == 2 {
        counted_by(alloc, scope, place, first_off(arguments))
    } else {
        Ok(bad_arity(place))
    }
}
