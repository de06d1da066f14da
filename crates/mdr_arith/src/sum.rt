// Sums, differences and products (C99 6.5.3.3, 6.5.5, 6.5.6).

ghost use Rattle.std.specs.Prelude.{◌≡◌, true, ◌+ℤ◌, ◌-ℤ◌, ◌*ℤ◌};
ghost use Rattle.mdr_core.specs.Kinds.{is_in_range};
ghost use Rattle.mdr_core.specs.Operators.{fitted, negated};

use crate::fit::{fit, modulus};
use mdr_core::{Kind, Undefined};

#[tactic(auto, unfolding(mdr_core::specs::Operators::fitted))]
pub(crate) fn add(kind: Kind, a: i128, b: i128) -> Result<i128, Undefined>
    requires left { is_in_range kind a ≡ true }
    requires right { is_in_range kind b ≡ true }
    ensures { result ≡ fitted kind (a +ℤ b) }
{
    fit(Undefined::Overflow, kind, a + b)
}

#[tactic(auto, unfolding(mdr_core::specs::Operators::fitted))]
pub(crate) fn subtract(kind: Kind, a: i128, b: i128) -> Result<i128, Undefined>
    requires left { is_in_range kind a ≡ true }
    requires right { is_in_range kind b ≡ true }
    ensures { result ≡ fitted kind (a -ℤ b) }
{
    fit(Undefined::Overflow, kind, a - b)
}

/// The sign changed.
#[tactic(auto, unfolding(mdr_core::specs::Operators::fitted, mdr_core::specs::Operators::negated))]
pub fn neg(kind: Kind, a: i128) -> Result<i128, Undefined>
    requires { is_in_range kind a ≡ true }
    ensures { result ≡ negated kind a }
{
    fit(Undefined::Overflow, kind, -a)
}

/// A product of unsigned numbers can pass the greatest `i128`, but no `u128`.
#[tactic(auto, unfolding(mdr_core::specs::Operators::fitted))]
pub(crate) fn multiply(kind: Kind, a: i128, b: i128) -> Result<i128, Undefined>
    requires left { is_in_range kind a ≡ true }
    requires right { is_in_range kind b ≡ true }
    ensures { result ≡ fitted kind (a *ℤ b) }
{
    if kind.is_signed() {
        return fit(Undefined::Overflow, kind, a * b);
    }
    let product = a as u128 * b as u128;
    let size = modulus(kind) as u128;
    let left = if product < size {
        product
    } else {
        product % size
    };
    Ok(left as i128)
}
