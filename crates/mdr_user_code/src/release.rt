// Large values that are let go: a function here is generic, so that letting go is proved once.

ghost use Rattle.std.specs.Prelude.{◌≡◌, Err};

use mdr_core::OutOfMemory;

/// Where memory was wanting, what was at work is let go.
pub(crate) fn given_up<A, T: Drop>(error: OutOfMemory, _at_work: T) -> Result<A, OutOfMemory>
    ensures { result ≡ Err error }
{
    Err(error)
}
