// Operators on values in hand, or on the stops that these came to.

ghost use Rattle.std.specs.Prelude.{◌≡◌, MatchOption, Ok, Result, not};
ghost use Rattle.mdr_core.specs.Conversions.{converted};
ghost use Rattle.mdr_core.specs.Operators.{flipped, negated, operated};
ghost use Rattle.mdr_core.specs.declared.stop.StopKind.{StopKind};
ghost use Rattle.mdr_meaning.specs.declared.wire.Wire.{Wire};
ghost use Rattle.mdr_meaning.specs.declared.wire.Wire.TheVariants as wire;
ghost use Rattle.mdr_meaning.specs.Values.{at_kind, integer, is_true, operand, right_operand, truth, wire_of};
ghost use Rattle.mdr_events.specs.Outcomes.{wired};
ghost use Rattle.mdr_exec.specs.Evaluation.{after_value, and_of, or_of, truth_of};

use crate::integer::{complement, computed, opposite};
use crate::values::{at_kind, integer, is_true, truth};
use mdr_arith::conv;
use mdr_core::{BinOp, Kind, StopKind, Value};

/// The sign changed.
pub(crate) fn negated(kind: Kind, value: Result<Value, StopKind>) -> Result<Value, StopKind>
    ensures { wired result ≡ after_value (wired value) (λ x. at_kind kind (negated kind (operand kind x))) }
{
    match value {
        Ok(value) => at_kind(kind, opposite(kind, integer(value))),
        Err(stop) => Err(stop),
    }
}

/// Each bit turned.
pub(crate) fn flipped(kind: Kind, value: Result<Value, StopKind>) -> Result<Value, StopKind>
    ensures { wired result ≡ after_value (wired value) (λ x. Ok (wire.Int kind (flipped kind (operand kind x)))) }
{
    match value {
        Ok(value) => Ok(Value::Int(kind, complement(kind, integer(value)))),
        Err(stop) => Err(stop),
    }
}

/// 1 where the operand is zero or null, else 0.
pub(crate) fn inverted(operand: Result<Value, StopKind>) -> Result<Value, StopKind>
    ensures { wired result ≡ after_value (wired operand) (λ x. Ok (truth (not (is_true x)))) }
{
    match operand {
        Ok(value) => Ok(truth(!is_true(value))),
        Err(stop) => Err(stop),
    }
}

/// Converted to a kind.
pub(crate) fn converted(kind: Kind, operand: Result<Value, StopKind>) -> Result<Value, StopKind>
    ensures { wired result ≡ after_value (wired operand) (λ x. Ok (wire.Int kind (converted kind (integer x)))) }
{
    match operand {
        Ok(value) => Ok(Value::Int(kind, conv(kind, integer(value)))),
        Err(stop) => Err(stop),
    }
}

fn combined_values(op: BinOp, kind: Kind, left: Value, right: Value) -> Result<Value, StopKind>
    ensures { wired result ≡ at_kind kind (operated op kind (operand kind (wire_of left)) (right_operand op kind (integer (wire_of right)))) }
{
    at_kind(kind, computed(op, kind, integer(left), integer(right)))
}

/// What a binary operator comes to at a kind.
pub(crate) fn combined(
    op: BinOp,
    kind: Kind,
    left: Result<Value, StopKind>,
    right: Result<Value, StopKind>,
) -> Result<Value, StopKind>
    ensures { wired result ≡ after_value (wired left) (λ v. after_value (wired right) (λ w. at_kind kind (operated op kind (operand kind v) (right_operand op kind (integer w))))) }
{
    match left {
        Ok(v) => match right {
            Ok(w) => combined_values(op, kind, v, w),
            Err(stop) => Err(stop),
        },
        Err(stop) => Err(stop),
    }
}

/// 1 or 0, as an operand is.
pub(crate) fn as_truth(operand: Result<Value, StopKind>) -> Result<Value, StopKind>
    ensures { wired result ≡ truth_of (wired operand) }
{
    match operand {
        Ok(value) => Ok(truth(is_true(value))),
        Err(stop) => Err(stop),
    }
}

/// `&&` by its left operand, where that decides or stops. Where there is none the right operand is evaluated, and
/// its truth counts.
pub(crate) fn both_by(left: Result<Value, StopKind>) -> Option<Result<Value, StopKind>>
    ensures { MatchOption result ((right : Result Wire StopKind) → and_of (wired left) right ≡ truth_of right) (λ r. (right : Result Wire StopKind) → and_of (wired left) right ≡ wired r) }
{
    match left {
        Ok(value) => {
            if is_true(value) {
                None
            } else {
                Some(Ok(truth(false)))
            }
        }
        Err(stop) => Some(Err(stop)),
    }
}

/// `||` by its left operand, where that decides or stops. Where there is none the right operand is evaluated, and
/// its truth counts.
pub(crate) fn either_by(left: Result<Value, StopKind>) -> Option<Result<Value, StopKind>>
    ensures { MatchOption result ((right : Result Wire StopKind) → or_of (wired left) right ≡ truth_of right) (λ r. (right : Result Wire StopKind) → or_of (wired left) right ≡ wired r) }
{
    match left {
        Ok(value) => {
            if is_true(value) {
                Some(Ok(truth(true)))
            } else {
                None
            }
        }
        Err(stop) => Some(Err(stop)),
    }
}
