// What was made and isn't asked for, beside a fault. The functions are generic, so that no caller lets go of an operand
// itself.

ghost use Rattle.std.specs.Prelude.{◌≡◌, Err, None};
ghost use Rattle.mdr_faults.specs.Faults.{told, refuse};

use mdr_core::Place;
use mdr_faults::{Fault, FaultKind};
use std::alloc::AllocError;

/// A fault in place of what was made.
pub fn given_up<A: Drop, B: Drop>(place: Place, kind: FaultKind, _x: A) -> Result<B, Fault>
    ensures { result ≡ told (refuse {A = B} place kind) }
{
    Err(Fault { place, kind })
}

/// A fault in place of two things that were made.
pub fn both_given_up<A: Drop, B: Drop, C: Drop>(
    place: Place,
    kind: FaultKind,
    _x: A,
    _y: B,
) -> Result<C, Fault>
    ensures { result ≡ told (refuse {A = C} place kind) }
{
    Err(Fault { place, kind })
}

/// Want of memory in place of what was made.
pub fn out_of_memory<A: Drop, B: Drop>(error: AllocError, _x: A) -> Result<B, AllocError>
    ensures { result ≡ Err error }
{
    Err(error)
}

/// Nothing in place of what was given.
pub(crate) fn nothing<A: Drop, B: Drop>(_x: A) -> Option<B>
    ensures { result ≡ None }
{
    None
}
