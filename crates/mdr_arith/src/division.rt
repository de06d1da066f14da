// Quotients and remainders (C99 6.5.5).

ghost use Rattle.std.specs.Prelude.{◌≡◌, true};
ghost use Rattle.mdr_core.specs.Kinds.{is_in_range};
ghost use Rattle.mdr_core.specs.Operators.{quotient, rest};

use crate::fit::fit;
use mdr_core::{Kind, Undefined};

/// The quotient, truncated toward zero.
#[tactic(auto, unfolding(mdr_core::specs::Operators::fitted, mdr_core::specs::Operators::quotient))]
pub(crate) fn divide(kind: Kind, a: i128, b: i128) -> Result<i128, Undefined>
    requires left { is_in_range kind a ≡ true }
    requires right { is_in_range kind b ≡ true }
    ensures { result ≡ quotient kind a b }
{
    if b == 0 {
        return Err(Undefined::DivZero);
    }
    fit(Undefined::Overflow, kind, a / b)
}

/// What the quotient leaves, undefined where the quotient is.
pub(crate) fn remainder(kind: Kind, a: i128, b: i128) -> Result<i128, Undefined>
    requires left { is_in_range kind a ≡ true }
    requires right { is_in_range kind b ≡ true }
    ensures { result ≡ rest (quotient kind a b) a b }
{
    divide(kind, a, b)?;
    Ok(a % b)
}
