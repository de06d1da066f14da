// Assignments of values and of what calls give, and statements that are expressions (C99 6.5.16, 6.8.3).

ghost use Rattle.std.specs.Prelude.{◌≡◌, IfOk, map};
ghost use Rattle.mdr_faults.specs.Faults.{Checked, told, after, both};
ghost use Rattle.mdr_operand.specs.declared.operand.Operand.{Operand};
ghost use Rattle.mdr_operand.specs.Written.{Written, written_of, written_what, written_list};
ghost use Rattle.mdr_call.specs.declared.parts.TypedCall.{TypedCall};
ghost use Rattle.mdr_call.specs.Calls.{call_value};
ghost use Rattle.mdr_assign.specs.declared.assignment.Assignment.{Assignment};
ghost use Rattle.mdr_assign.specs.declared.assignment.Destination.{Destination};
ghost use Rattle.mdr_typing.specs.declared.source.Source.{Source};
ghost use Rattle.mdr_typing.specs.declared.source.Source.TheVariants as source;
ghost use Rattle.mdr_typing.specs.Sources.{assigning, source_stored, is_plain, value_assigned, call_assigned, source_assigned};
ghost use Rattle.mdr_body.specs.Pieces.{assigned_by};
ghost use Rattle.mdr_typing.specs.Profile.{calling, stepped, called, profile_rules};

use crate::source::{Source, right_side, source_stored};
use mdr_assign::{
    Assignment, Destination, assignment_rule, destination_at, step_operator, step_rule,
    told_instead,
};
use mdr_body::Known;
use mdr_call::{TypedCall, call_value};
use mdr_core::{Name, OutOfMemory, Place};
use mdr_express::{both_made, call_at, expression};
use mdr_faults::{Fault, Scope, both, mismatch};
use mdr_operand::{
    AssignmentOperator, LocalName, Operand, assignment_operator, is_active_operand, out_of_memory,
};
use mdr_rich::Step;
use mdr_syntax::{Form, FormWhat};
use std::alloc::{AllocError, Global};

// ---- assignments

fn assigning(
    assignment: Result<Result<Assignment, Fault>, AllocError>,
) -> Result<Result<Step, Fault>, AllocError>
    ensures { (c : Checked Assignment) → IfOk assignment (λ a. a ≡ told c) → IfOk result (λ r. r ≡ told (after c assigning)) }
{
    match assignment {
        Ok(Ok(a)) => Ok(Ok(Step::Assign(a.left, a.right))),
        Ok(Err(fault)) => Ok(Err(fault)),
        Err(error) => Err(error),
    }
}

#[tactic(auto, unfolding(crate::specs::Sources::value_assigned))]
fn value_assigned(
    alloc: Global,
    scope: &Scope,
    place: Place,
    op: Option<AssignmentOperator>,
    x: Operand,
    y: Operand,
) -> Result<Result<Step, Fault>, AllocError>
    ensures { IfOk result (λ r. r ≡ told (value_assigned scope.now place op x y)) }
{
    assigning(assignment_rule(alloc, scope, place, op, Ok(x), Ok(y)))
}

fn call_stored(
    alloc: Global,
    place: Place,
    call: TypedCall,
    d: Destination,
) -> Result<Result<Step, Fault>, AllocError>
    ensures { IfOk result (λ r. r ≡ told (source_stored place d.object d.ty (source.Call call))) }
{
    source_stored(alloc, place, d.object, &d.ty, Source::Call(call))
}

fn call_given(
    alloc: Global,
    place: Place,
    call: TypedCall,
    d: Result<Destination, Fault>,
) -> Result<Result<Step, Fault>, AllocError>
    ensures { (c : Checked Destination) → d ≡ told c → IfOk result (λ r. r ≡ told (after c (λ d. source_stored place d.object d.ty (source.Call call)))) }
{
    match d {
        Ok(d) => call_stored(alloc, place, call, d),
        Err(fault) => Ok(told_instead(fault, call)),
    }
}

#[tactic(auto, unfolding(crate::specs::Sources::call_assigned))]
fn call_assigned(
    alloc: Global,
    place: Place,
    x: Operand,
    call: TypedCall,
) -> Result<Result<Step, Fault>, AllocError>
    ensures { IfOk result (λ r. r ≡ told (call_assigned place x call)) }
{
    let d = destination_at(place, x);
    call_given(alloc, place, call, d)
}

fn is_plain(op: Option<AssignmentOperator>) -> bool
    ensures { result ≡ is_plain op }
{
    match op {
        Some(AssignmentOperator::Plain) => true,
        Some(AssignmentOperator::Compound(_)) | None => false,
    }
}

/// A call as a part of an assignment.
fn part_assigned(
    alloc: Global,
    scope: &Scope,
    place: Place,
    op: Option<AssignmentOperator>,
    x: Operand,
    call: TypedCall,
) -> Result<Result<Step, Fault>, AllocError>
    ensures { IfOk result (λ r. r ≡ told (after (call_value place call) (value_assigned scope.now place op x))) }
{
    match call_value(alloc, place, call) {
        Ok(Ok(y)) => value_assigned(alloc, scope, place, op, x, y),
        Ok(Err(fault)) => Ok(told_instead(fault, x)),
        Err(error) => out_of_memory(error, x),
    }
}

#[tactic(auto, unfolding(crate::specs::Sources::source_assigned))]
fn source_assigned(
    alloc: Global,
    scope: &Scope,
    place: Place,
    op: Option<AssignmentOperator>,
    x: Operand,
    source: Source,
) -> Result<Result<Step, Fault>, AllocError>
    ensures { IfOk result (λ r. r ≡ told (source_assigned scope.now place op x source)) }
{
    match source {
        Source::Value(y) => value_assigned(alloc, scope, place, op, x, y),
        Source::Call(call) => {
            if is_plain(op) && !is_active_operand(&x) {
                call_assigned(alloc, place, x, call)
            } else {
                part_assigned(alloc, scope, place, op, x, call)
            }
        }
    }
}

fn side_assigned(
    alloc: Global,
    scope: &Scope,
    place: Place,
    op: Option<AssignmentOperator>,
    x: Result<Operand, Fault>,
    source: Result<Source, Fault>,
) -> Result<Result<Step, Fault>, AllocError>
    ensures { (c : Checked Operand) (d : Checked Source) → x ≡ told c → source ≡ told d → IfOk result (λ r. r ≡ told (both c d (source_assigned scope.now place op))) }
{
    match both(x, source) {
        Ok((x, source)) => source_assigned(alloc, scope, place, op, x, source),
        Err(fault) => Ok(Err(fault)),
    }
}

fn sides_assigned(
    alloc: Global,
    scope: &Scope,
    place: Place,
    op: Option<AssignmentOperator>,
    x: Result<Result<Operand, Fault>, OutOfMemory>,
    source: Result<Result<Source, Fault>, OutOfMemory>,
) -> Result<Result<Step, Fault>, OutOfMemory>
    ensures { (c : Checked Operand) (d : Checked Source) → IfOk x (λ x. x ≡ told c) → IfOk source (λ s. s ≡ told d) → IfOk result (λ r. r ≡ told (both c d (source_assigned scope.now place op))) }
{
    let sides = both_made(x, source)?;
    Ok(side_assigned(alloc, scope, place, op, sides.0, sides.1)?)
}

/// An assignment, at its operator's place.
#[tactic(auto, unfolding(crate::specs::Profile::assigned))]
pub fn assigned(
    alloc: Global,
    known: Known,
    assignment: mdr_body::Assignment,
) -> Result<Result<Step, Fault>, OutOfMemory>
    ensures { IfOk result (λ r. r ≡ told (assigned_by profile_rules known.entry.scope.now known.entry.locals.now assignment.entry)) }
{
    let x = expression(alloc, known.scope, known.locals, assignment.left);
    let y = right_side(alloc, known.scope, known.locals, assignment.right);
    let op = assignment_operator(assignment.operator);
    sides_assigned(alloc, known.scope, assignment.at, op, x, y)
}

// ---- statements that are expressions

fn calling(call: Result<TypedCall, Fault>) -> Result<Step, Fault>
    ensures { (c : Checked TypedCall) → call ≡ told c → result ≡ told (after c calling) }
{
    match call {
        Ok(call) => Ok(Step::Call(None, call.form)),
        Err(fault) => Err(fault),
    }
}

fn call_statement(
    alloc: Global,
    scope: &Scope,
    locals: &[LocalName],
    place: Place,
    f: &Form,
    args: &[Form],
) -> Result<Result<Step, Fault>, OutOfMemory>
    ensures { IfOk result (λ r. r ≡ told (called scope.now locals.now (Written.Call place (written_of f.now) (written_list (map written_of args.now))))) }
{
    let call = call_at(alloc, scope, locals, place, f, args)?;
    Ok(calling(call))
}

#[tactic(auto, unfolding(crate::specs::Profile::stepped))]
fn stepped(
    alloc: Global,
    scope: &Scope,
    locals: &[LocalName],
    place: Place,
    sign: &Name,
    a: &Form,
) -> Result<Result<Step, Fault>, OutOfMemory>
    ensures { IfOk result (λ r. r ≡ told (stepped scope.now locals.now place sign.now (written_of a.now))) }
{
    let x = expression(alloc, scope, locals, a)?;
    let step = step_operator(sign.as_slice());
    Ok(assigning(step_rule(alloc, scope, place, step, x))?)
}

fn called_at(
    alloc: Global,
    scope: &Scope,
    locals: &[LocalName],
    place: Place,
    what: &FormWhat,
) -> Result<Result<Step, Fault>, OutOfMemory>
    ensures { IfOk result (λ r. r ≡ told (called scope.now locals.now (written_what what.now place))) }
{
    match what {
        FormWhat::Call(f, args) => {
            call_statement(alloc, scope, locals, place, f.get(), args.as_slice())
        }
        FormWhat::Prefix(sign, a) => stepped(alloc, scope, locals, place, sign, a.get()),
        FormWhat::Post(sign, a) => stepped(alloc, scope, locals, place, sign, a.get()),
        FormWhat::Number(_, _) => Ok(mismatch(place)),
        FormWhat::Null => Ok(mismatch(place)),
        FormWhat::Name(_) => Ok(mismatch(place)),
        FormWhat::Cast(_, _, _) => Ok(mismatch(place)),
        FormWhat::Binary(_, _, _) => Ok(mismatch(place)),
        FormWhat::Choice(_, _, _) => Ok(mismatch(place)),
        FormWhat::Subscript(_, _) => Ok(mismatch(place)),
        FormWhat::Member(_, _, _, _) => Ok(mismatch(place)),
        FormWhat::Text(_) => Ok(mismatch(place)),
        FormWhat::Base(_, _) => Ok(mismatch(place)),
    }
}

/// A statement that is an expression.
pub fn called(
    alloc: Global,
    scope: &Scope,
    locals: &[LocalName],
    form: &Form,
) -> Result<Result<Step, Fault>, OutOfMemory>
    ensures { IfOk result (λ r. r ≡ told (called scope.now locals.now (written_of form.now))) }
{
    called_at(alloc, scope, locals, form.place, &form.what)
}
