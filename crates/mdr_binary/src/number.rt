// Numbers calculated and compared (C99 6.5.5 to 6.5.12).

ghost use Rattle.std.specs.Prelude.{◌≡◌, IfOk};
ghost use Rattle.mdr_operand.specs.declared.operand.Integer.{Integer};
ghost use Rattle.mdr_faults.specs.Faults.{Checked, Right, told, both};
ghost use Rattle.mdr_operand.specs.Forms.{at_kind};
ghost use Rattle.mdr_binary.specs.Binaries.{bin_at, with_common, arithmetic, shifted, is_shift, calculated, numbers_calculated, compared, compared_at, integers_compared, numbers_compared};

use mdr_arith::{common, promote};
use mdr_core::{BinOp, Boxed, Kind, Place, RelOp};
use mdr_faults::{Fault, both};
use mdr_operand::{Integer, Operand, at_kind, integer_at, number, out_of_memory, truth};
use mdr_rich::Expr;
use std::alloc::{AllocError, Global};

fn boxed_at(alloc: Global, kind: Kind, n: Integer) -> Result<Boxed<Expr>, AllocError>
    ensures { IfOk result (λ e. e ≡ at_kind kind n) }
{
    Boxed::new(alloc, at_kind(alloc, kind, n)?)
}

fn boxed_beside(
    alloc: Global,
    a: Boxed<Expr>,
    kind: Kind,
    n: Integer,
) -> Result<(Boxed<Expr>, Boxed<Expr>), AllocError>
    ensures { IfOk result (λ p. p ≡ (a, at_kind kind n)) }
{
    Ok((a, boxed_at(alloc, kind, n)?))
}

/// The operands at their kinds, each in a box.
fn both_at(
    alloc: Global,
    left: Kind,
    right: Kind,
    m: Integer,
    n: Integer,
) -> Result<(Boxed<Expr>, Boxed<Expr>), AllocError>
    ensures { IfOk result (λ p. p ≡ (at_kind left m, at_kind right n)) }
{
    match boxed_at(alloc, left, m) {
        Ok(a) => boxed_beside(alloc, a, right, n),
        Err(error) => out_of_memory(error, n),
    }
}

/// The operands at their kinds.
fn bin_at(
    alloc: Global,
    op: BinOp,
    left: Kind,
    right: Kind,
    m: Integer,
    n: Integer,
) -> Result<Operand, AllocError>
    ensures { IfOk result (λ x. x ≡ bin_at op left right m n) }
{
    let (a, b) = both_at(alloc, left, right, m, n)?;
    Ok(number(Expr::Bin(op, left, a, b), left))
}

#[tactic(auto, unfolding(crate::specs::Binaries::arithmetic))]
fn arithmetic(alloc: Global, op: BinOp, m: Integer, n: Integer) -> Result<Operand, AllocError>
    ensures { IfOk result (λ x. x ≡ arithmetic op m n) }
{
    let kind = common(m.kind, n.kind);
    bin_at(alloc, op, kind, kind, m, n)
}

#[tactic(auto, unfolding(crate::specs::Binaries::shifted))]
fn shifted(alloc: Global, op: BinOp, m: Integer, n: Integer) -> Result<Operand, AllocError>
    ensures { IfOk result (λ x. x ≡ shifted op m n) }
{
    let left = promote(m.kind);
    let right = promote(n.kind);
    bin_at(alloc, op, left, right, m, n)
}

fn is_shift(op: BinOp) -> bool
    ensures { result ≡ is_shift op }
{
    match op {
        BinOp::Shl | BinOp::Shr => true,
        BinOp::Add
        | BinOp::Sub
        | BinOp::Mul
        | BinOp::Div
        | BinOp::Rem
        | BinOp::BitAnd
        | BinOp::BitOr
        | BinOp::BitXor => false,
    }
}

#[tactic(auto, unfolding(crate::specs::Binaries::calculated))]
fn calculated(alloc: Global, op: BinOp, m: Integer, n: Integer) -> Result<Operand, AllocError>
    ensures { IfOk result (λ x. x ≡ calculated op m n) }
{
    if is_shift(op) {
        shifted(alloc, op, m, n)
    } else {
        arithmetic(alloc, op, m, n)
    }
}

fn both_calculated(
    alloc: Global,
    op: BinOp,
    m: Result<Integer, Fault>,
    n: Result<Integer, Fault>,
) -> Result<Result<Operand, Fault>, AllocError>
    ensures { (c d : Checked Integer) → m ≡ told c → n ≡ told d → IfOk result (λ r. r ≡ told (both c d (λ m n. Right (calculated op m n)))) }
{
    match both(m, n) {
        Ok((m, n)) => Ok(Ok(calculated(alloc, op, m, n)?)),
        Err(fault) => Ok(Err(fault)),
    }
}

/// An operator on numbers.
#[tactic(auto, unfolding(crate::specs::Binaries::numbers_calculated))]
pub fn numbers_calculated(
    alloc: Global,
    op: BinOp,
    place: Place,
    x: Operand,
    y: Operand,
) -> Result<Result<Operand, Fault>, AllocError>
    ensures { IfOk result (λ r. r ≡ told (numbers_calculated op place x y)) }
{
    both_calculated(alloc, op, integer_at(place, x), integer_at(place, y))
}

/// Two numbers at one kind.
fn compared_at(
    alloc: Global,
    op: RelOp,
    kind: Kind,
    m: Integer,
    n: Integer,
) -> Result<Operand, AllocError>
    ensures { IfOk result (λ x. x ≡ compared_at op kind m n) }
{
    let (a, b) = both_at(alloc, kind, kind, m, n)?;
    Ok(truth(Expr::Rel(op, a, b)))
}

#[tactic(auto, unfolding(crate::specs::Binaries::integers_compared))]
fn integers_compared(
    alloc: Global,
    op: RelOp,
    m: Integer,
    n: Integer,
) -> Result<Operand, AllocError>
    ensures { IfOk result (λ x. x ≡ integers_compared op m n) }
{
    let kind = common(m.kind, n.kind);
    compared_at(alloc, op, kind, m, n)
}

fn both_compared(
    alloc: Global,
    op: RelOp,
    m: Result<Integer, Fault>,
    n: Result<Integer, Fault>,
) -> Result<Result<Operand, Fault>, AllocError>
    ensures { (c d : Checked Integer) → m ≡ told c → n ≡ told d → IfOk result (λ r. r ≡ told (both c d (λ m n. Right (integers_compared op m n)))) }
{
    match both(m, n) {
        Ok((m, n)) => Ok(Ok(integers_compared(alloc, op, m, n)?)),
        Err(fault) => Ok(Err(fault)),
    }
}

/// A comparison of numbers.
#[tactic(auto, unfolding(crate::specs::Binaries::numbers_compared))]
pub fn numbers_compared(
    alloc: Global,
    op: RelOp,
    place: Place,
    x: Operand,
    y: Operand,
) -> Result<Result<Operand, Fault>, AllocError>
    ensures { IfOk result (λ r. r ≡ told (numbers_compared op place x y)) }
{
    both_compared(alloc, op, integer_at(place, x), integer_at(place, y))
}
