// Arguments as they are written.

ghost use Rattle.std.specs.Prelude.{◌≡◌, IfOk};
ghost use Rattle.mdr_core.specs.declared.place.Place.{Place};
ghost use Rattle.mdr_faults.specs.Declarations.{type_named};
ghost use Rattle.mdr_faults.specs.Faults.{Checked, Right, told, after};
ghost use Rattle.mdr_operand.specs.declared.operand.Operand.{Operand};
ghost use Rattle.mdr_operand.specs.Written.{written_what};
ghost use Rattle.mdr_call.specs.declared.parts.Argument.TheVariants as argument;
ghost use Rattle.mdr_call.specs.Calls.{argument_by};

use crate::parts::Argument;
use mdr_core::Name;
use mdr_faults::{Fault, Scope, copied, type_named};
use mdr_operand::Operand;
use mdr_syntax::{Base, FormWhat};
use std::alloc::{AllocError, Global};

fn value(x: Result<Operand, Fault>) -> Result<Argument, Fault>
    ensures { (c : Checked Operand) → x ≡ told c → result ≡ told (after c (λ x. Right (argument.Value x))) }
{
    match x {
        Ok(x) => Ok(Argument::Value(x)),
        Err(fault) => Err(fault),
    }
}

/// A text, which is no value.
fn text<A: Drop>(alloc: Global, bytes: &Name, _x: A) -> Result<Result<Argument, Fault>, AllocError>
    ensures { IfOk result (λ r. r ≡ told (Right (argument.Text bytes.now))) }
{
    Ok(Ok(Argument::Text(copied(alloc, bytes.as_slice())?)))
}

/// A type, which is no value.
fn named<A: Drop>(
    alloc: Global,
    scope: &Scope,
    base: &Base,
    stars: u32,
    _x: A,
) -> Result<Result<Argument, Fault>, AllocError>
    ensures { IfOk result (λ r. r ≡ told (after (type_named scope.now base.now stars) (λ t. Right (argument.Type t)))) }
{
    match type_named(alloc, scope, base, stars)? {
        Ok(ty) => Ok(Ok(Argument::Type(ty))),
        Err(fault) => Ok(Err(fault)),
    }
}

/// An argument as it is written, of which x is what it comes to as an expression.
pub fn argument(
    alloc: Global,
    scope: &Scope,
    what: &FormWhat,
    x: Result<Operand, Fault>,
) -> Result<Result<Argument, Fault>, AllocError>
    ensures { IfOk result (λ r. (c : Checked Operand) (p : Place) → x ≡ told c → r ≡ told (argument_by scope.now (written_what what.now p) c)) }
{
    match what {
        FormWhat::Number(_, _) => Ok(value(x)),
        FormWhat::Null => Ok(value(x)),
        FormWhat::Name(_) => Ok(value(x)),
        FormWhat::Prefix(_, _) => Ok(value(x)),
        FormWhat::Post(_, _) => Ok(value(x)),
        FormWhat::Cast(_, _, _) => Ok(value(x)),
        FormWhat::Binary(_, _, _) => Ok(value(x)),
        FormWhat::Choice(_, _, _) => Ok(value(x)),
        FormWhat::Subscript(_, _) => Ok(value(x)),
        FormWhat::Member(_, _, _, _) => Ok(value(x)),
        FormWhat::Call(_, _) => Ok(value(x)),
        FormWhat::Text(bytes) => text(alloc, bytes, x),
        FormWhat::Base(base, stars) => named(alloc, scope, base, *stars, x),
    }
}
