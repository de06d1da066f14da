// Why tokens are no source.

ghost use Rattle.std.specs.Prelude.{◌≡◌};

use mdr_core::{Name, Place};
use std::alloc::AllocError;
use thiserror::Error;

/// Why tokens are no source.
#[derive(Debug, Drop, Error)]
pub enum ParseError {
    /// A word or punctuation of C99 that sources do without stands where no source goes on with it.
    #[error("not in profile")]
    NotInProfile(Place, Name),
    /// Here no source goes on.
    #[error("expected something else")]
    Expected(Place),
    #[error("out of memory")]
    OutOfMemory,
}

impl From<AllocError> for ParseError {
    ghost use Rattle.mdr_parse.specs.declared.error.ParseError.TheVariants.{OutOfMemory};

    ghost from_gives = { λ _ e. e ≡ OutOfMemory };

    fn from(_e: AllocError) -> ParseError {
        ParseError::OutOfMemory
    }
}
