// Why something was not bound.

ghost use Rattle.std.specs.Prelude.{◌≡◌};
ghost use Rattle.mdr_script.specs.declared.unbound.Unbound.TheVariants.{OutOfMemory};

use crate::script_error::ScriptKind;
use std::alloc::{AllocError, AllocFailed};

/// Why something was not bound.
#[derive(Clone, Copy)]
pub enum Unbound {
    Kind(ScriptKind),
    OutOfMemory,
}

impl From<AllocError> for Unbound {
    ghost from_gives = { λ _ e. e ≡ OutOfMemory };

    fn from(_e: AllocError) -> Unbound {
        Unbound::OutOfMemory
    }
}

impl<T: Drop> From<AllocFailed<T>> for Unbound {
    ghost from_gives = { λ _ e. e ≡ OutOfMemory };

    fn from(_e: AllocFailed<T>) -> Unbound {
        Unbound::OutOfMemory
    }
}
