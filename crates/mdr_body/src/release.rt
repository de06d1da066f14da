// What was made, where memory is wanting behind it. The function is generic, so that no caller lets go of statements
// itself.

ghost use Rattle.std.specs.Prelude.{◌≡◌, Err};

use mdr_core::OutOfMemory;

/// Want of memory in place of what was made.
pub fn left_over<A: Drop, B: Drop>(error: OutOfMemory, _made: A) -> Result<B, OutOfMemory>
    ensures { result ≡ Err error }
{
    Err(error)
}

/// What is new in place of what was made.
pub fn replaced<A: Drop, B: Drop>(_old: A, new: B) -> B
    ensures { result ≡ new }
{
    new
}
