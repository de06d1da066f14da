// Shifts (C99 6.5.7).

ghost use Rattle.std.specs.Prelude.{◌≡◌, true, not, ◌&&◌, pos, int_lt};
ghost use Rattle.mdr_core.specs.Kinds.{is_in_range};
ghost use Rattle.mdr_core.specs.Operators.{is_count, shifted_left, shifted_right};

use crate::fit::fit;
use mdr_core::{Kind, Undefined};

/// Whether a kind's shift takes this count.
fn takes(kind: Kind, count: i128) -> bool
    ensures { result ≡ is_count kind count }
{
    0 <= count && count < kind.width() as i128
}

pub(crate) fn shift_left(kind: Kind, a: i128, count: i128) -> Result<i128, Undefined>
    requires { is_in_range kind a ≡ true }
    ensures { result ≡ shifted_left (is_count kind count && not (int_lt a (pos 0))) kind a count }
{
    if !takes(kind, count) || a < 0 {
        return Err(Undefined::Shift);
    }
    fit(Undefined::Shift, kind, a << count)
}

/// The sign of a negative number is copied.
pub(crate) fn shift_right(kind: Kind, a: i128, count: i128) -> Result<i128, Undefined>
    ensures { result ≡ shifted_right (is_count kind count) a count }
{
    if !takes(kind, count) {
        return Err(Undefined::Shift);
    }
    Ok(a >> count)
}
