// The conversions of integers (C99 6.3.1).

ghost use Rattle.std.specs.Prelude.{◌≡◌};
ghost use Rattle.mdr_core.specs.Conversions.{converted, promoted, common_kind};

use crate::fit::{modulus, residue};
use mdr_core::Kind;

/// A number converted to a kind. A signed kind wraps, as an unsigned one does.
pub fn conv(kind: Kind, number: i128) -> i128
    ensures { result ≡ converted kind number }
{
    if kind.contains(number) {
        number
    } else {
        wrapped(kind, number)
    }
}

/// The number of a kind that has a number's residue.
fn wrapped(kind: Kind, number: i128) -> i128
    ensures { result ≡ converted kind number }
{
    let size = modulus(kind);
    let low = residue(kind, number);
    if low > kind.greatest() {
        low - size
    } else {
        low
    }
}

/// The integer promotions: what is narrower than `int` becomes `int`.
#[tactic(auto, unfolding(mdr_core::specs::Conversions::promoted))]
pub fn promote(kind: Kind) -> Kind
    ensures { result ≡ promoted kind }
{
    if kind.width() < 32 { Kind::S32 } else { kind }
}

/// The kind in which an operator works on numbers of two kinds.
#[tactic(auto, unfolding(mdr_core::specs::Conversions::common_kind))]
pub fn common(a: Kind, b: Kind) -> Kind
    ensures { result ≡ common_kind a b }
{
    let left = promote(a);
    let right = promote(b);
    if left.width() < right.width() {
        right
    } else if right.width() < left.width() {
        left
    } else if left.is_signed() {
        right
    } else {
        left
    }
}
