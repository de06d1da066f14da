// Integers in hand.

ghost use Rattle.std.specs.Prelude.{◌≡◌, IfSome, Ok, not, true};
ghost use Rattle.mdr_core.specs.declared.program.Program.{Program as AnyProgram};
ghost use Rattle.mdr_core.specs.declared.kind.Kind.{Kind as AnyKind};
ghost use Rattle.mdr_core.specs.Conversions.{converted};
ghost use Rattle.mdr_core.specs.Kinds.{is_in_range};
ghost use Rattle.mdr_core.specs.Operators.{flipped, is_right_operand, negated, operated};
ghost use Rattle.mdr_meaning.specs.declared.wire.Wire.TheVariants as wire;
ghost use Rattle.mdr_meaning.specs.Expressions.{slot_of};
ghost use Rattle.mdr_meaning.specs.Pointers.{related};
ghost use Rattle.mdr_meaning.specs.Values.{at_kind, is_true, right_operand, truth, wire_of};
ghost use Rattle.mdr_events.specs.Integers.{integer_wire};
ghost use Rattle.mdr_events.specs.Values.{wires_of};

use mdr_arith::{bin, conv, flip, neg};
use mdr_core::{BinOp, Kind, RelOp, Undefined, Value};
use mdr_events::Integer;

/// The `int` 1 or 0.
pub(crate) fn truth_of(holds: bool) -> Integer
    ensures { integer_wire result ≡ truth holds }
{
    if holds {
        Integer {
            number: 1,
            kind: Kind::S32,
        }
    } else {
        Integer {
            number: 0,
            kind: Kind::S32,
        }
    }
}

pub(crate) fn as_integer(value: Value) -> Option<Integer>
    ensures { IfSome result (λ n. integer_wire n ≡ wire_of value) }
{
    match value {
        Value::Int(kind, number) => Some(Integer { number, kind }),
        _ => None,
    }
}

/// The integer that a slot holds.
#[tactic(auto, unfolding(mdr_meaning::specs::Expressions::slot_of))]
pub(crate) fn slot_integer(slots: &[Value], i: u32) -> Option<Integer>
    ensures { IfSome result (λ n. integer_wire n ≡ slot_of (wires_of slots.now) i) }
{
    match slots.get(i as usize) {
        Some(value) => as_integer(*value),
        None => None,
    }
}

/// A number as an operator has it at a kind.
fn operand(kind: Kind, number: i128) -> i128
    ensures value { result ≡ converted kind number }
    ensures fits { is_in_range kind result ≡ true }
{
    if kind.contains(number) {
        number
    } else {
        conv(kind, number)
    }
}

/// The same of the number to its right: the count of a shift has a kind of its own.
fn right_operand(op: BinOp, kind: Kind, number: i128) -> i128
    ensures { result ≡ right_operand op kind number }
{
    match op {
        BinOp::Shl => number,
        BinOp::Shr => number,
        BinOp::Add => operand(kind, number),
        BinOp::Sub => operand(kind, number),
        BinOp::Mul => operand(kind, number),
        BinOp::Div => operand(kind, number),
        BinOp::Rem => operand(kind, number),
        BinOp::BitAnd => operand(kind, number),
        BinOp::BitOr => operand(kind, number),
        BinOp::BitXor => operand(kind, number),
    }
}

/// What a binary operator comes to at a kind.
pub(crate) fn computed(op: BinOp, kind: Kind, a: i128, b: i128) -> Result<i128, Undefined>
    ensures { result ≡ operated op kind (converted kind a) (right_operand op kind b) }
{
    bin(op, kind, operand(kind, a), right_operand(op, kind, b))
}

/// The sign changed at a kind.
pub(crate) fn opposite(kind: Kind, a: i128) -> Result<i128, Undefined>
    ensures { result ≡ negated kind (converted kind a) }
{
    neg(kind, operand(kind, a))
}

/// Each bit turned at a kind.
pub(crate) fn complement(kind: Kind, a: i128) -> i128
    ensures { result ≡ flipped kind (converted kind a) }
{
    flip(kind, operand(kind, a))
}

/// What a binary operator comes to at a kind, where it doesn't stop.
pub(crate) fn operated(op: BinOp, kind: Kind, a: i128, b: i128) -> Option<Integer>
    ensures { IfSome result (λ n. Ok (integer_wire n) ≡ at_kind kind (operated op kind (converted kind a) (right_operand op kind b))) }
{
    match computed(op, kind, a, b) {
        Ok(number) => Some(Integer { number, kind }),
        Err(_) => None,
    }
}

/// Whether a comparison of two numbers holds.
fn holds(op: RelOp, a: i128, b: i128) -> bool
    ensures { (program : AnyProgram) (k l : AnyKind) → related program op (wire.Int k a) (wire.Int l b) ≡ Ok (truth result) }
{
    match op {
        RelOp::Eq => a == b,
        RelOp::Ne => a != b,
        RelOp::Lt => a < b,
        RelOp::Le => a <= b,
        RelOp::Gt => a > b,
        RelOp::Ge => a >= b,
    }
}

/// A comparison of two integers.
pub(crate) fn compared(op: RelOp, left: Integer, right: Integer) -> Integer
    ensures { (program : AnyProgram) → Ok (integer_wire result) ≡ related program op (integer_wire left) (integer_wire right) }
{
    truth_of(holds(op, left.number, right.number))
}

/// The sign changed, where that doesn't stop.
pub(crate) fn negated(kind: Kind, a: i128) -> Option<Integer>
    ensures { IfSome result (λ n. Ok (integer_wire n) ≡ at_kind kind (negated kind (converted kind a))) }
{
    match opposite(kind, a) {
        Ok(number) => Some(Integer { number, kind }),
        Err(_) => None,
    }
}

/// Each bit turned.
pub(crate) fn flipped(kind: Kind, a: i128) -> Integer
    ensures { integer_wire result ≡ wire.Int kind (flipped kind (converted kind a)) }
{
    Integer {
        number: complement(kind, a),
        kind,
    }
}

/// Whether an integer compares unequal to 0.
pub(crate) fn is_true(integer: Integer) -> bool
    ensures { result ≡ is_true (integer_wire integer) }
{
    integer.number != 0
}

/// 1 where the operand is zero, else 0.
pub(crate) fn inverted(operand: Integer) -> Integer
    ensures { integer_wire result ≡ truth (not (is_true (integer_wire operand))) }
{
    truth_of(!is_true(operand))
}

/// 1 or 0, as the operand is.
pub(crate) fn as_truth(operand: Integer) -> Integer
    ensures { integer_wire result ≡ truth (is_true (integer_wire operand)) }
{
    truth_of(is_true(operand))
}
