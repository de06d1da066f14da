// Calls as they are written (C99 6.5.2.2).

ghost use Rattle.std.specs.Prelude.{◌≡◌, IfOk, List, map};
ghost use Rattle.mdr_core.specs.Layout.{chosen};
ghost use Rattle.mdr_faults.specs.Faults.{Checked, Right, told, after, extended};
ghost use Rattle.mdr_operand.specs.declared.operand.Operand.{Operand};
ghost use Rattle.mdr_operand.specs.Signs.{prefix_operator};
ghost use Rattle.mdr_operand.specs.Written.{Written, written_of, written_what, written_list};
ghost use Rattle.mdr_express.specs.Expressions.{fronted_rule, typed, arguments_of, target_of, call_at};
ghost use Rattle.mdr_express.specs.Making.{IsMade, call_as_value};
ghost use Rattle.mdr_call.specs.declared.parts.Argument.{Argument};
ghost use Rattle.mdr_call.specs.declared.parts.Target.{Target};
ghost use Rattle.mdr_call.specs.declared.parts.Target.TheVariants as target;
ghost use Rattle.mdr_call.specs.declared.parts.TypedCall.{TypedCall};
ghost use Rattle.mdr_call.specs.Services.{service_named};
ghost use Rattle.mdr_call.specs.Calls.{callee_behind, starred_callee, as_target, named_target};
ghost use Rattle.mdr_call.specs.Calls.{argument_by, call_rule, call_value};

use crate::form::{expression, expression_at, fronted};
use crate::parts::{both_made, left_over};
use mdr_call::{
    Argument, Service, Target, TypedCall, argument, call_rule, call_value, is_star, service_named,
    starred,
};
use mdr_core::{Items, Name, OutOfMemory, Place};
use mdr_faults::{Fault, Scope, extended};
use mdr_operand::{LocalName, Operand, prefix_operator};
use mdr_postfix::name_rule;
use mdr_syntax::{Form, FormWhat};
use std::alloc::Global;

// ---- what is called

fn as_target(x: Result<Operand, Fault>) -> Result<Target, Fault>
    ensures { (c : Checked Operand) → x ≡ told c → result ≡ told (as_target c) }
{
    match x {
        Ok(x) => Ok(Target::Callee(x)),
        Err(fault) => Err(fault),
    }
}

/// A service's word is no name, so what it comes to as one doesn't matter.
fn service_target<A: Drop>(service: Service, _x: A) -> Result<Target, Fault>
    ensures { result ≡ told (Right (target.Service service)) }
{
    Ok(Target::Service(service))
}

fn named_target(name: &[u8], x: Result<Operand, Fault>) -> Result<Target, Fault>
    ensures { (c : Checked Operand) → x ≡ told c → result ≡ told (named_target (service_named name.now) c) }
{
    match service_named(name) {
        Some(service) => service_target(service, x),
        None => as_target(x),
    }
}

fn where_made(
    x: Result<Result<Operand, Fault>, OutOfMemory>,
) -> Result<Result<Target, Fault>, OutOfMemory>
    ensures { (c : Checked Operand) → IfOk x (λ x. x ≡ told c) → IfOk result (λ r. r ≡ told (as_target c)) }
{
    match x {
        Ok(x) => Ok(as_target(x)),
        Err(error) => Err(error),
    }
}

fn starred_or_fronted(
    alloc: Global,
    scope: &Scope,
    place: Place,
    sign: &Name,
    is_star: bool,
    x: Result<Operand, Fault>,
) -> Result<Result<Operand, Fault>, OutOfMemory>
    ensures { (c : Checked Operand) → x ≡ told c → IfOk result (λ r. r ≡ told (chosen is_star (after c (starred_callee place)) (fronted_rule scope.now place sign.now c))) }
{
    if is_star {
        Ok(starred(alloc, place, x)?)
    } else {
        fronted(alloc, scope, place, sign, x)
    }
}

/// A sign in front of a form, as a callee: `*f` is the function that f points to.
#[tactic(auto, unfolding(mdr_call::specs::Calls::callee_behind))]
fn fronted_callee(
    alloc: Global,
    scope: &Scope,
    place: Place,
    sign: &Name,
    x: Result<Operand, Fault>,
) -> Result<Result<Operand, Fault>, OutOfMemory>
    ensures { (c : Checked Operand) → x ≡ told c → IfOk result (λ r. r ≡ told (callee_behind place (prefix_operator sign.now) (fronted_rule scope.now place sign.now c) c)) }
{
    let star = is_star(prefix_operator(sign.as_slice()));
    starred_or_fronted(alloc, scope, place, sign, star, x)
}

#[cycle(expression)]
fn prefix_callee(
    alloc: Global,
    scope: &Scope,
    locals: &[LocalName],
    place: Place,
    sign: &Name,
    a: &Form,
) -> Result<Result<Target, Fault>, OutOfMemory>
    ensures { IfOk result (λ r. r ≡ told (target_of scope.now locals.now (Written.Prefix place sign.now (written_of a.now)))) }
{
    let x = expression(alloc, scope, locals, a)?;
    where_made(fronted_callee(alloc, scope, place, sign, x))
}

fn name_callee(
    alloc: Global,
    scope: &Scope,
    locals: &[LocalName],
    place: Place,
    name: &[u8],
) -> Result<Result<Target, Fault>, OutOfMemory>
    ensures { IfOk result (λ r. r ≡ told (target_of scope.now locals.now (Written.Name place name.now))) }
{
    Ok(named_target(name, name_rule(alloc, scope, locals, place, name)?))
}

#[cycle(expression)]
fn callee_at(
    alloc: Global,
    scope: &Scope,
    locals: &[LocalName],
    place: Place,
    what: &FormWhat,
) -> Result<Result<Target, Fault>, OutOfMemory>
    ensures { IfOk result (λ r. r ≡ told (target_of scope.now locals.now (written_what what.now place))) }
{
    match what {
        FormWhat::Name(name) => name_callee(alloc, scope, locals, place, name.as_slice()),
        FormWhat::Prefix(sign, a) => prefix_callee(alloc, scope, locals, place, sign, a.get()),
        _ => where_made(expression_at(alloc, scope, locals, place, what)),
    }
}

#[cycle(expression)]
pub fn callee(
    alloc: Global,
    scope: &Scope,
    locals: &[LocalName],
    form: &Form,
) -> Result<Result<Target, Fault>, OutOfMemory>
    ensures { IfOk result (λ r. r ≡ told (target_of scope.now locals.now (written_of form.now))) }
{
    callee_at(alloc, scope, locals, form.place, &form.what)
}

// ---- arguments

#[cycle(expression)]
fn argument_form(
    alloc: Global,
    scope: &Scope,
    locals: &[LocalName],
    form: &Form,
) -> Result<Result<Argument, Fault>, OutOfMemory>
    ensures { IfOk result (λ r. r ≡ told (argument_by scope.now (written_of form.now) (typed scope.now locals.now (written_of form.now)))) }
{
    let x = expression(alloc, scope, locals, form)?;
    Ok(argument(alloc, scope, &form.what, x)?)
}

/// One argument behind others.
fn one_further(
    all: Result<Items<Argument>, Fault>,
    one: Result<Result<Argument, Fault>, OutOfMemory>,
) -> Result<Result<Items<Argument>, Fault>, OutOfMemory>
    ensures { (c : Checked Argument) → IfOk one (λ x. x ≡ told c) → IfOk result (λ r. r ≡ extended all (told c)) }
{
    match one {
        Ok(one) => Ok(extended(all, one)?),
        Err(error) => left_over(error, all),
    }
}

#[cycle(expression)]
#[tactic(auto, using(mdr_faults::proofs::Gathered::followed_none))]
pub fn arguments(
    alloc: Global,
    scope: &Scope,
    locals: &[LocalName],
    forms: &[Form],
) -> Result<Result<Items<Argument>, Fault>, OutOfMemory>
    ensures { IfOk result (λ r. r ≡ told (arguments_of scope.now locals.now (written_list (map written_of forms.now)))) }
{
    let mut all = Ok(Items::new(alloc));
    for form in forms {
        all = one_further(all, argument_form(alloc, scope, locals, form))?;
    }
    Ok(all)
}

// ---- calls

pub fn call_of_parts(
    alloc: Global,
    scope: &Scope,
    place: Place,
    callee: Result<Result<Target, Fault>, OutOfMemory>,
    arguments: Result<Result<Items<Argument>, Fault>, OutOfMemory>,
) -> Result<Result<TypedCall, Fault>, OutOfMemory>
    ensures { (t : Checked Target) (args : Checked (List Argument)) → IsMade callee t → IsMade arguments args → IfOk result (λ r. r ≡ told (call_rule scope.now place t args)) }
{
    let parts = both_made(callee, arguments)?;
    Ok(call_rule(alloc, scope, place, parts.0, parts.1)?)
}

/// The call at this place, in a scope and among the locals so far.
#[tactic(auto, unfolding(crate::specs::Expressions::call_at))]
pub fn call_at(
    alloc: Global,
    scope: &Scope,
    locals: &[LocalName],
    place: Place,
    f: &Form,
    args: &[Form],
) -> Result<Result<TypedCall, Fault>, OutOfMemory>
    ensures { IfOk result (λ r. r ≡ told (call_at scope.now locals.now place (written_of f.now) (written_list (map written_of args.now)))) }
{
    let target = callee(alloc, scope, locals, f);
    let given = arguments(alloc, scope, locals, args);
    call_of_parts(alloc, scope, place, target, given)
}

/// What a call comes to as a value.
pub fn valued(
    alloc: Global,
    place: Place,
    call: Result<Result<TypedCall, Fault>, OutOfMemory>,
) -> Result<Result<Operand, Fault>, OutOfMemory>
    ensures { (c : Checked TypedCall) → IfOk call (λ x. x ≡ told c) → IfOk result (λ r. r ≡ told (after c (call_value place))) }
{
    match call? {
        Ok(call) => Ok(call_value(alloc, place, call)?),
        Err(fault) => Ok(Err(fault)),
    }
}

/// A call as a part of an expression.
pub fn call_form(
    alloc: Global,
    scope: &Scope,
    place: Place,
    callee: Result<Result<Target, Fault>, OutOfMemory>,
    arguments: Result<Result<Items<Argument>, Fault>, OutOfMemory>,
) -> Result<Result<Operand, Fault>, OutOfMemory>
    ensures { (t : Checked Target) (args : Checked (List Argument)) → IsMade callee t → IsMade arguments args → IfOk result (λ r. r ≡ told (call_as_value scope.now place t args)) }
{
    let call = call_of_parts(alloc, scope, place, callee, arguments);
    valued(alloc, place, call)
}
