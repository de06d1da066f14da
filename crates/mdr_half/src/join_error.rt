// Why two trees aren't the halves of one.

ghost use Rattle.std.specs.Prelude.{◌≡◌};
ghost use Rattle.mdr_half.specs.declared.join_error.JoinError.TheVariants.{OutOfMemory as Wanting};

use mdr_core::OutOfMemory;
use std::alloc::{AllocError, AllocFailed};
use thiserror::Error;

/// Why two trees aren't the halves of one.
#[derive(Clone, Copy, Debug, Error)]
pub enum JoinError {
    /// The line of the first item of the user half's tree that doesn't fit, or of its last where only the kernel
    /// half's goes on.
    #[error("the halves differ")]
    Differ(u32),
    #[error("out of memory")]
    OutOfMemory,
}

impl From<AllocError> for JoinError {
    ghost from_gives = { λ _ e. e ≡ Wanting };

    fn from(_e: AllocError) -> JoinError {
        JoinError::OutOfMemory
    }
}

impl<T: Drop> From<AllocFailed<T>> for JoinError {
    ghost from_gives = { λ _ e. e ≡ Wanting };

    fn from(_e: AllocFailed<T>) -> JoinError {
        JoinError::OutOfMemory
    }
}

impl From<OutOfMemory> for JoinError {
    ghost from_gives = { λ _ e. e ≡ Wanting };

    fn from(_e: OutOfMemory) -> JoinError {
        JoinError::OutOfMemory
    }
}
