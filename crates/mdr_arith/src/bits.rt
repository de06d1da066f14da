// Operators on the bits of two's complement (C99 6.5.3.3, 6.5.10 to 6.5.12).

ghost use Rattle.std.specs.Prelude.{◌≡◌, true, ◌+◌, ◌%◌, ◌^◌, min, max, pos};
ghost use Rattle.std.specs.Int.{int_rem_euclid};
ghost use Rattle.mdr_core.specs.Conversions.{converted};
ghost use Rattle.mdr_core.specs.Kinds.{width, is_in_range};
ghost use Rattle.mdr_core.specs.Operators.{bitwise, flipped};

use crate::conversion::conv;
use crate::fit::residue;
use mdr_core::Kind;

/// The bits of a number at a kind.
fn bits(kind: Kind, a: i128) -> u64
    ensures { pos result ≡ int_rem_euclid a (pos (2 ^ width kind)) }
{
    residue(kind, a) as u64
}

/// The number of a kind that has these bits.
fn number(kind: Kind, bits: u64) -> i128
    ensures { result ≡ converted kind (pos bits) }
{
    conv(kind, bits as i128)
}

pub(crate) fn bit_and(kind: Kind, a: i128, b: i128) -> i128
    ensures { result ≡ bitwise min kind a b }
{
    number(kind, bits(kind, a) & bits(kind, b))
}

pub(crate) fn bit_or(kind: Kind, a: i128, b: i128) -> i128
    ensures { result ≡ bitwise max kind a b }
{
    number(kind, bits(kind, a) | bits(kind, b))
}

pub(crate) fn bit_xor(kind: Kind, a: i128, b: i128) -> i128
    ensures { result ≡ bitwise (λ x y. (x + y) % 2) kind a b }
{
    number(kind, bits(kind, a) ^ bits(kind, b))
}

/// Each bit turned.
pub fn flip(kind: Kind, a: i128) -> i128
    requires { is_in_range kind a ≡ true }
    ensures { result ≡ flipped kind a }
{
    conv(kind, !a)
}
