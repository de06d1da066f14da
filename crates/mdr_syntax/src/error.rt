// Why a source has no tokens.

ghost use Rattle.std.specs.Prelude.{◌≡◌};
ghost use Rattle.mdr_syntax.specs.declared.error.LexError.TheVariants.{OutOfMemory as Wanting};

use mdr_core::{OutOfMemory, Place};
use std::alloc::{AllocError, AllocFailed};

/// The first fault of a source, and its place.
#[derive(Clone, Copy)]
pub enum LexError {
    /// A byte that begins no token.
    BadByte(Place),
    /// A number of no kind, or one with a letter, a digit, `_` or `.` behind it.
    BadNumber(Place),
    /// A `/*` that nothing closes.
    OpenComment(Place),
    /// A quote that nothing closes on its line, or that holds what it may not.
    OpenText(Place),
    OutOfMemory,
}

impl From<AllocError> for LexError {
    ghost from_gives = { λ _ e. e ≡ Wanting };

    fn from(_e: AllocError) -> LexError {
        LexError::OutOfMemory
    }
}

impl<T: Drop> From<AllocFailed<T>> for LexError {
    ghost from_gives = { λ _ e. e ≡ Wanting };

    fn from(_e: AllocFailed<T>) -> LexError {
        LexError::OutOfMemory
    }
}

impl From<OutOfMemory> for LexError {
    ghost from_gives = { λ _ e. e ≡ Wanting };

    fn from(_e: OutOfMemory) -> LexError {
        LexError::OutOfMemory
    }
}
