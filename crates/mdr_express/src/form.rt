// What each expression comes to (C99 6.5).

ghost use Rattle.std.specs.Prelude.{◌≡◌, IfOk};
ghost use Rattle.mdr_faults.specs.Faults.{Checked, told};
ghost use Rattle.mdr_operand.specs.declared.operand.Operand.{Operand};
ghost use Rattle.mdr_binary.specs.Binaries.{binary_rule};
ghost use Rattle.mdr_binary.specs.Choices.{choice_rule};
ghost use Rattle.mdr_postfix.specs.Subscripts.{subscript_rule};
ghost use Rattle.mdr_operand.specs.Written.{Written, written_of, written_what};
ghost use Rattle.mdr_express.specs.Expressions.{signed_rule, fronted_by, fronted_rule, typed};

use crate::calls::{arguments, call_form, callee};
use crate::parts::{both_made, left_over};
use mdr_assign::{bump_rule, step_operator};
use mdr_binary::{binary_rule, choice_rule};
use mdr_core::{Name, OutOfMemory, Place};
use mdr_faults::{Fault, Scope, mismatch};
use mdr_operand::{
    BinaryOperator, LocalName, Operand, PrefixOperator, binary_operator, cast, literal, prefix,
    prefix_operator,
};
use mdr_postfix::{member_rule, name_rule, subscript_rule};
use mdr_syntax::{Base, Form, FormWhat};
use std::alloc::Global;

/// What an expression comes to, in a scope and among the locals so far.
#[cycle(expression)]
pub fn expression(
    alloc: Global,
    scope: &Scope,
    locals: &[LocalName],
    form: &Form,
) -> Result<Result<Operand, Fault>, OutOfMemory>
    ensures { IfOk result (λ r. r ≡ told (typed scope.now locals.now (written_of form.now))) }
{
    expression_at(alloc, scope, locals, form.place, &form.what)
}

fn fronted_by(
    alloc: Global,
    scope: &Scope,
    place: Place,
    step: Option<bool>,
    op: Option<PrefixOperator>,
    x: Result<Operand, Fault>,
) -> Result<Result<Operand, Fault>, OutOfMemory>
    ensures { (c : Checked Operand) → x ≡ told c → IfOk result (λ r. r ≡ told (fronted_by scope.now place step op c)) }
{
    match step {
        None => Ok(prefix(alloc, place, op, x)?),
        Some(up) => Ok(bump_rule(alloc, scope, place, true, Some(up), x)?),
    }
}

/// An operand with a sign in front of it.
#[tactic(auto, unfolding(crate::specs::Expressions::fronted_rule))]
pub fn fronted(
    alloc: Global,
    scope: &Scope,
    place: Place,
    sign: &Name,
    x: Result<Operand, Fault>,
) -> Result<Result<Operand, Fault>, OutOfMemory>
    ensures { (c : Checked Operand) → x ≡ told c → IfOk result (λ r. r ≡ told (fronted_rule scope.now place sign.now c)) }
{
    let step = step_operator(sign.as_slice());
    let op = prefix_operator(sign.as_slice());
    fronted_by(alloc, scope, place, step, op, x)
}

#[cycle(expression)]
fn prefix_form(
    alloc: Global,
    scope: &Scope,
    locals: &[LocalName],
    place: Place,
    sign: &Name,
    a: &Form,
) -> Result<Result<Operand, Fault>, OutOfMemory>
    ensures { IfOk result (λ r. r ≡ told (typed scope.now locals.now (Written.Prefix place sign.now (written_of a.now)))) }
{
    let x = expression(alloc, scope, locals, a)?;
    fronted(alloc, scope, place, sign, x)
}

#[cycle(expression)]
fn post_form(
    alloc: Global,
    scope: &Scope,
    locals: &[LocalName],
    place: Place,
    sign: &Name,
    a: &Form,
) -> Result<Result<Operand, Fault>, OutOfMemory>
    ensures { IfOk result (λ r. r ≡ told (typed scope.now locals.now (Written.Post place sign.now (written_of a.now)))) }
{
    let x = expression(alloc, scope, locals, a)?;
    Ok(bump_rule(
        alloc,
        scope,
        place,
        false,
        step_operator(sign.as_slice()),
        x,
    )?)
}

#[cycle(expression)]
fn cast_form(
    alloc: Global,
    scope: &Scope,
    locals: &[LocalName],
    place: Place,
    base: &Base,
    stars: u32,
    a: &Form,
) -> Result<Result<Operand, Fault>, OutOfMemory>
    ensures { IfOk result (λ r. r ≡ told (typed scope.now locals.now (Written.Cast place base.now stars (written_of a.now)))) }
{
    let x = expression(alloc, scope, locals, a)?;
    Ok(cast(alloc, scope, place, base, stars, x)?)
}

fn binary_operands(
    alloc: Global,
    scope: &Scope,
    place: Place,
    op: Option<BinaryOperator>,
    a: Result<Result<Operand, Fault>, OutOfMemory>,
    b: Result<Result<Operand, Fault>, OutOfMemory>,
) -> Result<Result<Operand, Fault>, OutOfMemory>
    ensures { (c d : Checked Operand) → IfOk a (λ x. x ≡ told c) → IfOk b (λ y. y ≡ told d) → IfOk result (λ r. r ≡ told (binary_rule scope.now place op c d)) }
{
    let sides = both_made(a, b)?;
    Ok(binary_rule(alloc, scope, place, op, sides.0, sides.1)?)
}

#[tactic(auto, unfolding(crate::specs::Expressions::signed_rule))]
fn binary_form(
    alloc: Global,
    scope: &Scope,
    place: Place,
    sign: &Name,
    a: Result<Result<Operand, Fault>, OutOfMemory>,
    b: Result<Result<Operand, Fault>, OutOfMemory>,
) -> Result<Result<Operand, Fault>, OutOfMemory>
    ensures { (c d : Checked Operand) → IfOk a (λ x. x ≡ told c) → IfOk b (λ y. y ≡ told d) → IfOk result (λ r. r ≡ told (signed_rule scope.now place sign.now c d)) }
{
    let op = binary_operator(sign.as_slice());
    binary_operands(alloc, scope, place, op, a, b)
}

fn choice_form(
    alloc: Global,
    place: Place,
    test: Result<Result<Operand, Fault>, OutOfMemory>,
    one: Result<Result<Operand, Fault>, OutOfMemory>,
    other: Result<Result<Operand, Fault>, OutOfMemory>,
) -> Result<Result<Operand, Fault>, OutOfMemory>
    ensures { (c a b : Checked Operand) → IfOk test (λ x. x ≡ told c) → IfOk one (λ x. x ≡ told a) → IfOk other (λ x. x ≡ told b) → IfOk result (λ r. r ≡ told (choice_rule place c a b)) }
{
    match test {
        Ok(test) => choice_tested(alloc, place, test, one, other),
        Err(error) => left_over(error, (one, other)),
    }
}

fn choice_tested(
    alloc: Global,
    place: Place,
    test: Result<Operand, Fault>,
    one: Result<Result<Operand, Fault>, OutOfMemory>,
    other: Result<Result<Operand, Fault>, OutOfMemory>,
) -> Result<Result<Operand, Fault>, OutOfMemory>
    ensures { (c a b : Checked Operand) → test ≡ told c → IfOk one (λ x. x ≡ told a) → IfOk other (λ x. x ≡ told b) → IfOk result (λ r. r ≡ told (choice_rule place c a b)) }
{
    match one {
        Ok(one) => choice_between(alloc, place, test, one, other),
        Err(error) => left_over(error, (test, other)),
    }
}

fn choice_between(
    alloc: Global,
    place: Place,
    test: Result<Operand, Fault>,
    one: Result<Operand, Fault>,
    other: Result<Result<Operand, Fault>, OutOfMemory>,
) -> Result<Result<Operand, Fault>, OutOfMemory>
    ensures { (c a b : Checked Operand) → test ≡ told c → one ≡ told a → IfOk other (λ x. x ≡ told b) → IfOk result (λ r. r ≡ told (choice_rule place c a b)) }
{
    match other {
        Ok(other) => Ok(choice_rule(alloc, place, test, one, other)?),
        Err(error) => left_over(error, (test, one)),
    }
}

fn subscript_form(
    alloc: Global,
    scope: &Scope,
    place: Place,
    a: Result<Result<Operand, Fault>, OutOfMemory>,
    b: Result<Result<Operand, Fault>, OutOfMemory>,
) -> Result<Result<Operand, Fault>, OutOfMemory>
    ensures { (c d : Checked Operand) → IfOk a (λ x. x ≡ told c) → IfOk b (λ y. y ≡ told d) → IfOk result (λ r. r ≡ told (subscript_rule scope.now place c d)) }
{
    let sides = both_made(a, b)?;
    Ok(subscript_rule(alloc, scope, place, sides.0, sides.1)?)
}

#[cycle(expression)]
fn member_form(
    alloc: Global,
    scope: &Scope,
    locals: &[LocalName],
    place: Place,
    at: Place,
    a: &Form,
    is_arrow: bool,
    name: &Name,
) -> Result<Result<Operand, Fault>, OutOfMemory>
    ensures { IfOk result (λ r. r ≡ told (typed scope.now locals.now (Written.Member place (written_of a.now) is_arrow at name.now))) }
{
    let x = expression(alloc, scope, locals, a)?;
    member_rule(alloc, scope, place, at, is_arrow, name.as_slice(), x)
}

/// What the form at this place comes to.
#[cycle(expression)]
pub fn expression_at(
    alloc: Global,
    scope: &Scope,
    locals: &[LocalName],
    place: Place,
    what: &FormWhat,
) -> Result<Result<Operand, Fault>, OutOfMemory>
    ensures { IfOk result (λ r. r ≡ told (typed scope.now locals.now (written_what what.now place))) }
{
    match what {
        FormWhat::Number(n, kind) => Ok(Ok(literal(*n, *kind))),
        FormWhat::Null => Ok(Ok(Operand::Null)),
        FormWhat::Name(name) => Ok(name_rule(alloc, scope, locals, place, name.as_slice())?),
        FormWhat::Prefix(sign, a) => prefix_form(alloc, scope, locals, place, sign, a.get()),
        FormWhat::Cast(base, stars, a) => {
            cast_form(alloc, scope, locals, place, base, *stars, a.get())
        }
        FormWhat::Binary(sign, a, b) => binary_form(
            alloc,
            scope,
            place,
            sign,
            expression(alloc, scope, locals, a.get()),
            expression(alloc, scope, locals, b.get()),
        ),
        FormWhat::Subscript(a, i) => subscript_form(
            alloc,
            scope,
            place,
            expression(alloc, scope, locals, a.get()),
            expression(alloc, scope, locals, i.get()),
        ),
        FormWhat::Member(a, is_arrow, at, name) => {
            member_form(alloc, scope, locals, place, *at, a.get(), *is_arrow, name)
        }
        FormWhat::Post(sign, a) => post_form(alloc, scope, locals, place, sign, a.get()),
        FormWhat::Choice(c, a, b) => {
            let test = expression(alloc, scope, locals, c.get());
            let one = expression(alloc, scope, locals, a.get());
            let other = expression(alloc, scope, locals, b.get());
            choice_form(alloc, place, test, one, other)
        }
        FormWhat::Call(f, args) => {
            let target = callee(alloc, scope, locals, f.get());
            let given = arguments(alloc, scope, locals, args.as_slice());
            call_form(alloc, scope, place, target, given)
        }
        FormWhat::Text(_) | FormWhat::Base(_, _) => Ok(mismatch(place)),
    }
}
