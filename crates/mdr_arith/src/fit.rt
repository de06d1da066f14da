// A mathematical result at a kind.

ghost use Rattle.std.specs.Prelude.{◌≡◌, ◌^◌, pos};
ghost use Rattle.std.specs.Int.{int_rem_euclid};
ghost use Rattle.mdr_core.specs.Kinds.{width};
ghost use Rattle.mdr_core.specs.Operators.{fitted_or};

use mdr_core::{Kind, Undefined};

/// How many numbers a kind has.
pub(crate) fn modulus(kind: Kind) -> i128
    ensures { result ≡ pos (2 ^ width kind) }
{
    1 << kind.width()
}

/// What a number leaves of how many numbers a kind has. No division is made where it is less than
/// that.
pub(crate) fn residue(kind: Kind, number: i128) -> i128
    ensures { result ≡ int_rem_euclid number (pos (2 ^ width kind)) }
{
    let size = modulus(kind);
    if 0 <= number && number < size {
        number
    } else {
        number.rem_euclid(size)
    }
}

/// A result at a kind: an unsigned kind wraps, a signed one has none that is out of its range, for
/// that reason.
#[tactic(auto, unfolding(mdr_core::specs::Operators::fitted_or))]
pub(crate) fn fit(reason: Undefined, kind: Kind, number: i128) -> Result<i128, Undefined>
    ensures { result ≡ fitted_or reason kind number }
{
    if !kind.is_signed() {
        Ok(residue(kind, number))
    } else if kind.contains(number) {
        Ok(number)
    } else {
        Err(reason)
    }
}
