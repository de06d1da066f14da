// What stands behind `=` and `return`: a value, or a call whose value goes there (C99 6.5.16, 6.7.8, 6.8.6.4).

ghost use Rattle.std.specs.Prelude.{◌≡◌, IfOk, map};
ghost use Rattle.mdr_rich.specs.declared.code.CallForm.{CallForm};
ghost use Rattle.mdr_rich.specs.declared.code.Expr.{Expr};
ghost use Rattle.mdr_core.specs.declared.types.Ty.{out-Ty};
ghost use Rattle.mdr_faults.specs.Faults.{Checked, Right, told, after};
ghost use Rattle.mdr_operand.specs.declared.operand.Operand.{Operand};
ghost use Rattle.mdr_operand.specs.Written.{Written, written_of, written_what, written_list};
ghost use Rattle.mdr_express.specs.Expressions.{typed};
ghost use Rattle.mdr_call.specs.declared.parts.TypedCall.{TypedCall};
ghost use Rattle.mdr_typing.specs.declared.source.Source.{Source};
ghost use Rattle.mdr_typing.specs.declared.source.Source.TheVariants as source;
ghost use Rattle.mdr_typing.specs.Sources.{value_source, call_source, is_pointer_value, is_pointer_of, pointer_source, cast_source, source_of};
ghost use Rattle.mdr_typing.specs.Sources.{call_as, value_to, call_to, source_stored, value_back, call_back, source_returned};

use crate::becoming::becomes;
use mdr_assign::told_instead;
use mdr_call::TypedCall;
use mdr_core::{OutOfMemory, Place, Ty};
use mdr_express::{call_at, expression, left_over};
use mdr_faults::{Fault, FaultKind, Scope, is_alike, is_void};
use mdr_operand::{LocalName, Operand, Scalar, converted_at, given_up, out_of_memory};
use mdr_rich::{CallForm, Expr, Lval, Step};
use mdr_syntax::{Form, FormWhat};
use std::alloc::{AllocError, Global};

/// What a right side, an initialiser or a returned expression comes to.
#[derive(Drop)]
pub enum Source {
    Value(Operand),
    /// A call that gives a value.
    Call(TypedCall),
}

// ---- what stands there

fn value_source(x: Result<Operand, Fault>) -> Result<Source, Fault>
    ensures { (c : Checked Operand) → x ≡ told c → result ≡ told (after c value_source) }
{
    match x {
        Ok(x) => Ok(Source::Value(x)),
        Err(fault) => Err(fault),
    }
}

#[tactic(auto, unfolding(crate::specs::Sources::call_source))]
fn call_source(place: Place, call: TypedCall) -> Result<Source, Fault>
    ensures { result ≡ told (call_source place call) }
{
    if is_void(&call.result) {
        given_up(place, FaultKind::Mismatch, call)
    } else {
        Ok(Source::Call(call))
    }
}

fn called_source(place: Place, call: Result<TypedCall, Fault>) -> Result<Source, Fault>
    ensures { (c : Checked TypedCall) → call ≡ told c → result ≡ told (after c (call_source place)) }
{
    match call {
        Ok(call) => call_source(place, call),
        Err(fault) => Err(fault),
    }
}

/// A call by itself.
fn call_alone(
    alloc: Global,
    scope: &Scope,
    locals: &[LocalName],
    place: Place,
    f: &Form,
    args: &[Form],
) -> Result<Result<Source, Fault>, OutOfMemory>
    ensures { IfOk result (λ r. r ≡ told (source_of scope.now locals.now (Written.Call place (written_of f.now) (written_list (map written_of args.now))))) }
{
    let call = call_at(alloc, scope, locals, place, f, args)?;
    Ok(called_source(place, call))
}

fn is_pointer_value(x: &Operand) -> bool
    ensures { result ≡ is_pointer_value x.now }
{
    match x {
        Operand::Value(Scalar::Pointer(_, _)) => true,
        Operand::Value(Scalar::Opaque(_)) => true,
        _ => false,
    }
}

fn is_pointer_of(ty: &Ty, x: &Operand) -> bool
    ensures { result ≡ is_pointer_of (out-Ty ty.now) x.now }
{
    match (ty, x) {
        (Ty::Ptr(t), Operand::Value(Scalar::Pointer(_, u))) => is_alike(t.get(), u),
        (Ty::VoidPtr, Operand::Value(Scalar::Opaque(_))) => true,
        _ => false,
    }
}

fn call_instead<A: Drop>(call: TypedCall, _x: A) -> Source
    ensures { result ≡ source.Call call }
{
    Source::Call(call)
}

fn value_instead<A: Drop>(x: Operand, _inner: A) -> Source
    ensures { result ≡ source.Value x }
{
    Source::Value(x)
}

fn own_call(call: TypedCall, x: Operand) -> Source
    ensures { Right result ≡ pointer_source (Right (source.Call call)) x }
{
    if is_pointer_of(&call.result, &x) {
        call_instead(call, x)
    } else {
        value_instead(x, call)
    }
}

fn own_source(inner: Source, x: Operand) -> Source
    ensures { Right result ≡ pointer_source (Right inner) x }
{
    match inner {
        Source::Call(call) => own_call(call, x),
        Source::Value(y) => value_instead(x, y),
    }
}

/// What stands behind a cast, and what the cast gives.
fn pointer_source(inner: Result<Source, Fault>, x: Operand) -> Result<Source, Fault>
    ensures { (c : Checked Source) → inner ≡ told c → result ≡ told (pointer_source c x) }
{
    match inner {
        Ok(inner) => Ok(own_source(inner, x)),
        Err(fault) => Ok(value_instead(x, fault)),
    }
}

fn pointer_made(
    inner: Result<Result<Source, Fault>, OutOfMemory>,
    x: Operand,
) -> Result<Result<Source, Fault>, OutOfMemory>
    ensures { (c : Checked Source) → IfOk inner (λ r. r ≡ told c) → IfOk result (λ r. r ≡ told (pointer_source c x)) }
{
    match inner {
        Ok(inner) => Ok(pointer_source(inner, x)),
        Err(error) => left_over(error, x),
    }
}

/// A cast of this form, of which x is what it gives. What stands in it is looked at where that is a pointer.
#[cycle(source)]
#[tactic(auto, unfolding(crate::specs::Sources::cast_source))]
fn cast_source(
    alloc: Global,
    scope: &Scope,
    locals: &[LocalName],
    a: &Form,
    x: Operand,
) -> Result<Result<Source, Fault>, OutOfMemory>
    ensures { IfOk result (λ r. r ≡ told (cast_source (source_of scope.now locals.now (written_of a.now)) x)) }
{
    if is_pointer_value(&x) {
        let inner = right_side(alloc, scope, locals, a);
        pointer_made(inner, x)
    } else {
        Ok(Ok(Source::Value(x)))
    }
}

#[cycle(source)]
fn cast_alone(
    alloc: Global,
    scope: &Scope,
    locals: &[LocalName],
    a: &Form,
    x: Result<Operand, Fault>,
) -> Result<Result<Source, Fault>, OutOfMemory>
    ensures { (c : Checked Operand) → x ≡ told c → IfOk result (λ r. r ≡ told (after c (cast_source (source_of scope.now locals.now (written_of a.now))))) }
{
    match x {
        Ok(x) => cast_source(alloc, scope, locals, a, x),
        Err(fault) => Ok(Err(fault)),
    }
}

/// A right side, of which x is what it comes to as an expression.
#[cycle(source)]
fn source_at(
    alloc: Global,
    scope: &Scope,
    locals: &[LocalName],
    place: Place,
    what: &FormWhat,
    x: Result<Operand, Fault>,
) -> Result<Result<Source, Fault>, OutOfMemory>
    ensures { x ≡ told (typed scope.now locals.now (written_what what.now place)) → IfOk result (λ r. r ≡ told (source_of scope.now locals.now (written_what what.now place))) }
{
    match what {
        FormWhat::Call(f, args) => {
            drop(x);
            call_alone(alloc, scope, locals, place, f.get(), args.as_slice())
        }
        FormWhat::Name(_) => Ok(value_source(x)),
        FormWhat::Prefix(_, _) => Ok(value_source(x)),
        FormWhat::Number(_, _) => Ok(value_source(x)),
        FormWhat::Null => Ok(value_source(x)),
        FormWhat::Post(_, _) => Ok(value_source(x)),
        FormWhat::Cast(_, _, a) => cast_alone(alloc, scope, locals, a.get(), x),
        FormWhat::Binary(_, _, _) => Ok(value_source(x)),
        FormWhat::Choice(_, _, _) => Ok(value_source(x)),
        FormWhat::Subscript(_, _) => Ok(value_source(x)),
        FormWhat::Member(_, _, _, _) => Ok(value_source(x)),
        FormWhat::Text(_) => Ok(value_source(x)),
        FormWhat::Base(_, _) => Ok(value_source(x)),
    }
}

/// What a right side comes to, in a scope and among the locals so far.
#[cycle(source)]
pub fn right_side(
    alloc: Global,
    scope: &Scope,
    locals: &[LocalName],
    form: &Form,
) -> Result<Result<Source, Fault>, OutOfMemory>
    ensures { IfOk result (λ r. r ≡ told (source_of scope.now locals.now (written_of form.now))) }
{
    let x = expression(alloc, scope, locals, form)?;
    source_at(alloc, scope, locals, form.place, &form.what, x)
}

/// A call whose value becomes one of this type as if by assignment.
#[tactic(auto, unfolding(crate::specs::Sources::call_as))]
fn call_as(place: Place, ty: &Ty, call: TypedCall) -> Result<CallForm, Fault>
    ensures { result ≡ told (call_as place ty.now call) }
{
    if becomes(&call.result, ty) {
        Ok(call.form)
    } else {
        given_up(place, FaultKind::Mismatch, call)
    }
}

// ---- given to an object

fn value_to(
    object: Lval,
    value: Result<Result<Expr, Fault>, AllocError>,
) -> Result<Result<Step, Fault>, AllocError>
    ensures { (c : Checked Expr) → IfOk value (λ v. v ≡ told c) → IfOk result (λ r. r ≡ told (after c (value_to object))) }
{
    match value {
        Ok(Ok(value)) => Ok(Ok(Step::Assign(object, value))),
        Ok(Err(fault)) => Ok(told_instead(fault, object)),
        Err(error) => out_of_memory(error, object),
    }
}

fn call_to(object: Lval, call: Result<CallForm, Fault>) -> Result<Step, Fault>
    ensures { (c : Checked CallForm) → call ≡ told c → result ≡ told (after c (call_to object)) }
{
    match call {
        Ok(call) => Ok(Step::Call(Some(object), call)),
        Err(fault) => told_instead(fault, object),
    }
}

/// What was found, given to an object of this type. What doesn't suit is told at the place.
#[tactic(auto, unfolding(crate::specs::Sources::source_stored))]
pub fn source_stored(
    alloc: Global,
    place: Place,
    object: Lval,
    ty: &Ty,
    source: Source,
) -> Result<Result<Step, Fault>, AllocError>
    ensures { IfOk result (λ r. r ≡ told (source_stored place object ty.now source)) }
{
    match source {
        Source::Value(x) => value_to(object, converted_at(alloc, place, ty, x)),
        Source::Call(call) => Ok(call_to(object, call_as(place, ty, call))),
    }
}

// ---- given to the caller

fn value_back(
    value: Result<Result<Expr, Fault>, AllocError>,
) -> Result<Result<Step, Fault>, AllocError>
    ensures { (c : Checked Expr) → IfOk value (λ v. v ≡ told c) → IfOk result (λ r. r ≡ told (after c value_back)) }
{
    match value {
        Ok(Ok(value)) => Ok(Ok(Step::Return(Some(value)))),
        Ok(Err(fault)) => Ok(Err(fault)),
        Err(error) => Err(error),
    }
}

fn call_back(call: Result<CallForm, Fault>) -> Result<Step, Fault>
    ensures { (c : Checked CallForm) → call ≡ told c → result ≡ told (after c call_back) }
{
    match call {
        Ok(call) => Ok(Step::ReturnCall(call)),
        Err(fault) => Err(fault),
    }
}

/// What was found, given to the caller of a function that gives this type. What doesn't suit is told at the place.
#[tactic(auto, unfolding(crate::specs::Sources::source_returned))]
pub fn source_returned(
    alloc: Global,
    place: Place,
    ty: &Ty,
    source: Source,
) -> Result<Result<Step, Fault>, AllocError>
    ensures { IfOk result (λ r. r ≡ told (source_returned place ty.now source)) }
{
    match source {
        Source::Value(x) => value_back(converted_at(alloc, place, ty, x)),
        Source::Call(call) => Ok(call_back(call_as(place, ty, call))),
    }
}
