// Calls of functions (C99 6.5.2.2).

ghost use Rattle.std.specs.Prelude.{◌≡◌, IfOk};
ghost use Rattle.mdr_faults.specs.Faults.{told};
ghost use Rattle.mdr_call.specs.Arguments.{plain_call};
ghost use Rattle.mdr_call.specs.Functions.{is_function, function_of, handle_of, handle_by, through, callable, result_of, call_with, function_call};

use crate::arguments::converted;
use crate::parts::{Argument, Callable, Handle, TypedCall, plain_call, result_of};
use mdr_core::{Items, Place};
use mdr_faults::Fault;
use mdr_operand::{Operand, Scalar, needed, out_of_memory, value_of};
use mdr_postfix::{Located, given_up, nothing};
use mdr_rich::{Callee, Expr};
use std::alloc::{AllocError, Global};

fn is_function(x: &Operand) -> bool
    ensures { result ≡ is_function x.now }
{
    match x {
        Operand::Function(_, _) => true,
        Operand::Value(_)
        | Operand::Zero(_)
        | Operand::Null
        | Operand::Object(_, _)
        | Operand::Array(_, _, _) => false,
    }
}

fn function_of(x: Operand) -> Option<Callable>
    ensures { result ≡ function_of x }
{
    match x {
        Operand::Value(v) => nothing(v),
        Operand::Zero(_) | Operand::Null => None,
        Operand::Object(lval, ty) => nothing(Located { lval, ty }),
        Operand::Array(lval, ty, _) => nothing(Located { lval, ty }),
        Operand::Function(f, types) => Some(Callable {
            callee: Callee::Direct(f),
            types,
        }),
    }
}

fn handle_of(v: Scalar) -> Option<Handle>
    ensures { result ≡ handle_of v }
{
    match v {
        Scalar::Handle(value, types) => Some(Handle { value, types }),
        Scalar::Number(_, _) | Scalar::Pointer(_, _) | Scalar::Opaque(_) => nothing(v),
    }
}

/// A value, where it is a pointer to a function.
pub fn handle_by(v: Option<Scalar>) -> Option<Handle>
    ensures { result ≡ handle_by v }
{
    match v {
        None => None,
        Some(v) => handle_of(v),
    }
}

fn through(h: Option<Handle>) -> Option<Callable>
    ensures { result ≡ through h }
{
    match h {
        None => None,
        Some(h) => Some(Callable {
            callee: Callee::Through(h.value),
            types: h.types,
        }),
    }
}

#[tactic(auto, unfolding(crate::specs::Functions::callable))]
fn callable(x: Operand) -> Option<Callable>
    ensures { result ≡ callable x }
{
    if is_function(&x) {
        function_of(x)
    } else {
        through(handle_by(value_of(x)))
    }
}

fn called_with(alloc: Global, c: Callable, args: Items<Expr>) -> Result<TypedCall, AllocError>
    ensures { IfOk result (λ t. t ≡ plain_call c.callee args (result_of c.types)) }
{
    match result_of(alloc, c.types.as_slice()) {
        Ok(result) => Ok(plain_call(c.callee, args, result)),
        Err(error) => out_of_memory(error, c),
    }
}

/// A call of what can be called.
#[tactic(auto, unfolding(crate::specs::Functions::call_with))]
pub fn call_with(
    alloc: Global,
    place: Place,
    arguments: Items<Argument>,
    c: Callable,
) -> Result<Result<TypedCall, Fault>, AllocError>
    ensures { IfOk result (λ r. r ≡ told (call_with place arguments c)) }
{
    match converted(alloc, place, c.types.as_slice(), arguments) {
        Ok(Ok(args)) => Ok(Ok(called_with(alloc, c, args)?)),
        Ok(Err(fault)) => Ok(given_up(fault, c)),
        Err(error) => out_of_memory(error, c),
    }
}

/// A call of what a callee comes to.
#[tactic(auto, unfolding(crate::specs::Functions::function_call))]
pub fn function_call(
    alloc: Global,
    place: Place,
    arguments: Items<Argument>,
    x: Operand,
) -> Result<Result<TypedCall, Fault>, AllocError>
    ensures { IfOk result (λ r. r ≡ told (function_call place arguments x)) }
{
    match needed(place, callable(x)) {
        Ok(c) => call_with(alloc, place, arguments, c),
        Err(fault) => Ok(given_up(fault, arguments)),
    }
}
