// The binary operators (C99 6.5.5 to 6.5.12).

ghost use Rattle.std.specs.Prelude.{◌≡◌, true};
ghost use Rattle.mdr_core.specs.Kinds.{is_in_range};
ghost use Rattle.mdr_core.specs.Operators.{operated, is_right_operand};

use crate::bits::{bit_and, bit_or, bit_xor};
use crate::division::{divide, remainder};
use crate::shift::{shift_left, shift_right};
use crate::sum::{add, multiply, subtract};
use mdr_core::{BinOp, Kind, Undefined};

/// The result of an operator at a kind.
#[tactic(auto, unfolding(mdr_core::specs::Operators::operated, mdr_core::specs::Operators::is_right_operand))]
pub fn bin(op: BinOp, kind: Kind, a: i128, b: i128) -> Result<i128, Undefined>
    requires left { is_in_range kind a ≡ true }
    requires right { is_right_operand op kind b ≡ true }
    ensures { result ≡ operated op kind a b }
{
    match op {
        BinOp::Add => add(kind, a, b),
        BinOp::Sub => subtract(kind, a, b),
        BinOp::Mul => multiply(kind, a, b),
        BinOp::Div => divide(kind, a, b),
        BinOp::Rem => remainder(kind, a, b),
        BinOp::Shl => shift_left(kind, a, b),
        BinOp::Shr => shift_right(kind, a, b),
        BinOp::BitAnd => Ok(bit_and(kind, a, b)),
        BinOp::BitOr => Ok(bit_or(kind, a, b)),
        BinOp::BitXor => Ok(bit_xor(kind, a, b)),
    }
}
