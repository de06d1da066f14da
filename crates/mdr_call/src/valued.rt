// What calls give, as values (C99 6.5.2.2).

ghost use Rattle.std.specs.Prelude.{◌≡◌, IfOk};
ghost use Rattle.mdr_rich.specs.declared.code.Expr.TheVariants as expr;
ghost use Rattle.mdr_faults.specs.Faults.{told};
ghost use Rattle.mdr_call.specs.Calls.{called_by, call_value};

use crate::parts::TypedCall;
use mdr_core::{Boxed, Items, Place, Ty};
use mdr_faults::{Fault, copied_type};
use mdr_operand::{Operand, out_of_memory, value_where};
use mdr_rich::{CallForm, Callee, Expr};
use std::alloc::{AllocError, Global};

fn through(alloc: Global, ty: Ty, f: Expr, args: Items<Expr>) -> Result<Expr, AllocError>
    ensures { IfOk result (λ e. e ≡ expr.CallThrough ty f args) }
{
    match Boxed::new(alloc, f) {
        Ok(f) => Ok(Expr::CallThrough(ty, f, args)),
        Err(error) => out_of_memory(error, (ty, args)),
    }
}

/// What was made, when what isn't in it is let go.
fn only<A: Drop, B: Drop>(made: A, _rest: B) -> A
    ensures { result ≡ made }
{
    made
}

fn called(alloc: Global, ty: Ty, form: CallForm) -> Result<Expr, AllocError>
    ensures { IfOk result (λ e. e ≡ called_by ty form form.callee) }
{
    let CallForm {
        callee,
        args,
        shape,
        format,
    } = form;
    match callee {
        Callee::Direct(f) => Ok(only(Expr::CallDirect(ty, f, args), (shape, format))),
        Callee::Through(f) => only(through(alloc, ty, f, args), (shape, format)),
        Callee::Service(n) => Ok(Expr::CallService(ty, n, args, shape, format)),
    }
}

fn called_copy(alloc: Global, ty: &Ty, form: CallForm) -> Result<Expr, AllocError>
    ensures { IfOk result (λ e. e ≡ called_by ty.now form form.callee) }
{
    match copied_type(alloc, ty) {
        Ok(ty) => called(alloc, ty, form),
        Err(error) => out_of_memory(error, form),
    }
}

/// What a call gives, of the form at this place. One that gives nothing has no value.
#[tactic(auto, unfolding(crate::specs::Calls::call_value))]
pub fn call_value(
    alloc: Global,
    place: Place,
    call: TypedCall,
) -> Result<Result<Operand, Fault>, AllocError>
    ensures { IfOk result (λ r. r ≡ told (call_value place call)) }
{
    let TypedCall { result, form } = call;
    let value = called_copy(alloc, &result, form);
    value_where(place, result, value)
}
