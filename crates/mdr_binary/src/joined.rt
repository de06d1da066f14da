// All operators between two operands.

ghost use Rattle.std.specs.Prelude.{◌≡◌, IfOk};
ghost use Rattle.mdr_operand.specs.declared.operand.Operand.{Operand};
ghost use Rattle.mdr_faults.specs.Faults.{Checked, told};
ghost use Rattle.mdr_binary.specs.Binaries.{calculation_of, binary_of, binary_by, binary_rule};

use crate::compare::{are_numbers, comparison_of};
use crate::number::numbers_calculated;
use crate::pointer::{given_up, pointers_calculated};
use crate::value::{conjunction, disjunction};
use mdr_core::{BinOp, Place};
use mdr_faults::{Fault, Scope, both};
use mdr_operand::{BinaryOperator, Operand};
use std::alloc::{AllocError, Global};

/// A calculation: numbers, or a pointer and what it is moved by.
#[tactic(auto, unfolding(crate::specs::Binaries::calculation_of))]
pub fn calculation_of(
    alloc: Global,
    scope: &Scope,
    place: Place,
    op: BinOp,
    x: Operand,
    y: Operand,
) -> Result<Result<Operand, Fault>, AllocError>
    ensures { IfOk result (λ r. r ≡ told (calculation_of scope.now place op x y)) }
{
    if are_numbers(&x, &y) {
        numbers_calculated(alloc, op, place, x, y)
    } else {
        pointers_calculated(alloc, scope, place, op, x, y)
    }
}

#[tactic(auto, unfolding(crate::specs::Binaries::binary_of))]
fn binary_of(
    alloc: Global,
    scope: &Scope,
    place: Place,
    op: BinaryOperator,
    x: Operand,
    y: Operand,
) -> Result<Result<Operand, Fault>, AllocError>
    ensures { IfOk result (λ r. r ≡ told (binary_of scope.now place op x y)) }
{
    match op {
        BinaryOperator::Calculate(op) => calculation_of(alloc, scope, place, op, x, y),
        BinaryOperator::Compare(op) => comparison_of(alloc, op, place, x, y),
        BinaryOperator::And => conjunction(alloc, place, x, y),
        BinaryOperator::Or => disjunction(alloc, place, x, y),
    }
}

#[tactic(auto, unfolding(crate::specs::Binaries::binary_by))]
fn binary_by(
    alloc: Global,
    scope: &Scope,
    place: Place,
    op: Option<BinaryOperator>,
    x: Operand,
    y: Operand,
) -> Result<Result<Operand, Fault>, AllocError>
    ensures { IfOk result (λ r. r ≡ told (binary_by scope.now place op x y)) }
{
    match op {
        None => Ok(given_up(place, x, y)),
        Some(op) => binary_of(alloc, scope, place, op, x, y),
    }
}

/// A form with an operator between two operands, at the operator's place.
#[tactic(auto, unfolding(crate::specs::Binaries::binary_rule))]
pub fn binary_rule(
    alloc: Global,
    scope: &Scope,
    place: Place,
    op: Option<BinaryOperator>,
    a: Result<Operand, Fault>,
    b: Result<Operand, Fault>,
) -> Result<Result<Operand, Fault>, AllocError>
    ensures { (c d : Checked Operand) → a ≡ told c → b ≡ told d → IfOk result (λ r. r ≡ told (binary_rule scope.now place op c d)) }
{
    match both(a, b) {
        Ok((x, y)) => binary_by(alloc, scope, place, op, x, y),
        Err(fault) => Ok(Err(fault)),
    }
}
