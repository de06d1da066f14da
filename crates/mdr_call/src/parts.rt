// The parts of a call.

ghost use Rattle.std.specs.Prelude.{◌≡◌, IfOk};
ghost use Rattle.mdr_faults.specs.Faults.{told, refuse};
ghost use Rattle.mdr_faults.specs.declared.fault.FaultKind.TheVariants.{BadArity};
ghost use Rattle.mdr_call.specs.Arguments.{first_off, plain_call};
ghost use Rattle.mdr_call.specs.Functions.{result_of};

use crate::service::Service;
use mdr_core::{Items, Name, Place, Ty};
use mdr_faults::{Fault, FaultKind, copied_type};
use mdr_operand::Operand;
use mdr_rich::{CallForm, Callee, Expr};
use std::alloc::{AllocError, Global};

/// What is called, as it is found: a service by its word, or what a callee comes to.
#[derive(Drop)]
pub enum Target {
    Service(Service),
    Callee(Operand),
}

/// An argument: a value, or, for the services that take such, a text or a type.
#[derive(Drop)]
pub enum Argument {
    Value(Operand),
    Text(Name),
    Type(Ty),
}

/// A call, and the type of what it gives, `Void` where that is nothing.
#[derive(Drop)]
pub struct TypedCall {
    pub form: CallForm,
    pub result: Ty,
}

/// What can be called: the types of its result and then of its parameters.
#[derive(Drop)]
pub struct Callable {
    pub callee: Callee,
    pub types: Items<Ty>,
}

/// A pointer to a function: the types of its result and then of its parameters.
#[derive(Drop)]
pub struct Handle {
    pub value: Expr,
    pub types: Items<Ty>,
}

/// A call that names no type and no text.
pub fn plain_call(callee: Callee, args: Items<Expr>, ty: Ty) -> TypedCall
    ensures { result ≡ plain_call callee args ty }
{
    TypedCall {
        form: CallForm {
            callee,
            args,
            shape: None,
            format: None,
        },
        result: ty,
    }
}

/// A wrong number of arguments.
pub fn bad_arity<A: Drop>(place: Place) -> Result<A, Fault>
    ensures { result ≡ told (refuse {A = A} place BadArity) }
{
    Err(Fault {
        place,
        kind: FaultKind::BadArity,
    })
}

/// What stands at the head of a function's types.
pub fn result_of(alloc: Global, types: &[Ty]) -> Result<Ty, AllocError>
    ensures { IfOk result (λ t. t ≡ result_of types.now) }
{
    match types.get(0) {
        Some(ty) => copied_type(alloc, ty),
        None => Ok(Ty::Void),
    }
}

/// The first argument, and those behind it.
pub fn first_off(arguments: Items<Argument>) -> Option<(Argument, Items<Argument>)>
    ensures { result ≡ first_off arguments }
{
    let mut rest = arguments.into_vec();
    if rest.is_empty() {
        return None;
    }
    let first = rest.remove(0);
    Some((first, Items::from_vec(rest)))
}
