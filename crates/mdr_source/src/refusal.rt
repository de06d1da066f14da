// Why a source is refused.

use mdr_core::{Name, Place};
use mdr_faults::Fault;
use thiserror::Error;

/// The one thing for which a source is refused.
#[derive(Debug, Drop, Error)]
pub enum Refusal {
    /// A byte that begins no token.
    #[error("bad byte")]
    BadByte(Place),
    /// A number of no kind, or one with a letter, a digit, `_` or `.` behind it.
    #[error("bad number")]
    BadNumber(Place),
    /// A `/*` that nothing closes.
    #[error("open comment")]
    OpenComment(Place),
    /// A quote that nothing closes on its line, or that holds what it may not.
    #[error("open text")]
    OpenText(Place),
    /// A word or punctuation of C99 that sources do without stands where no source goes on with it.
    #[error("not in profile")]
    NotInProfile(Place, Name),
    /// Here no source goes on.
    #[error("expected something else")]
    Expected(Place),
    /// The first fault of types.
    #[error("wrong type")]
    Fault(Fault),
}
