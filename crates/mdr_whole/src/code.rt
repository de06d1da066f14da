// The code that runs.

ghost use Rattle.std.specs.Prelude.{◌≡◌};
ghost use Rattle.mdr_whole.specs.Going.{is_half};

use mdr_core::{Half, Program};
use mdr_exec::Side;

/// The code of a driver that runs: all of it, or, by the halves of its functions, that of one half.
#[derive(Clone, Copy)]
pub struct Code<'a> {
    pub program: &'a Program,
    pub halves: &'a [Half],
    pub side: Side,
}

/// Whether it is one half's, and not all of the driver's.
pub(crate) fn is_half(side: Side) -> bool
    ensures { result ≡ is_half side }
{
    match side {
        Side::Whole => false,
        Side::Kernel => true,
        Side::User => true,
    }
}
