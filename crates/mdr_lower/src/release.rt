// What was lowered, where memory is wanting behind it. The function is generic, so that no caller lets go of code itself.

ghost use Rattle.std.specs.Prelude.{◌≡◌, Err};

use std::alloc::AllocError;

/// Want of memory in place of what was lowered.
pub fn left_over<A: Drop, B: Drop>(error: AllocError, _lowered: A) -> Result<B, AllocError>
    ensures { result ≡ Err error }
{
    Err(error)
}

/// Nothing more is done with it.
pub fn let_go<A: Drop>(_lowered: A) {}
