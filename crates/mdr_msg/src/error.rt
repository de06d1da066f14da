// Why bytes are no message.

ghost use Rattle.std.specs.Prelude.{◌≡◌};
ghost use Rattle.mdr_msg.specs.Decoding.{error_of};
ghost use Rattle.mdr_msg.specs.declared.error.MsgError.TheVariants.{OutOfMemory as Wanting};

use mdr_xdr::XdrError;
use std::alloc::{AllocError, AllocFailed};
use thiserror::Error;

/// Why bytes are no message: the first fault from the left, with its offset.
#[derive(Clone, Copy, Debug, PartialEq, Eq, Error)]
pub enum MsgError {
    /// The item that begins at this offset passes the last byte.
    #[error("the item at {0} is cut off")]
    Short(u64),
    /// The number of the item at this offset isn't in its range.
    #[error("the number at {0} is out of range")]
    Range(u64),
    /// The byte at this offset is padding and isn't zero.
    #[error("the padding at {0} is not zero")]
    Padding(u64),
    /// The number at this offset is no kind of a message, or no tag of a value.
    #[error("the tag at {0} is unknown")]
    Kind(u64),
    /// The byte at this offset stands behind the message.
    #[error("bytes from {0} on are left over")]
    Trailing(u64),
    #[error("out of memory")]
    OutOfMemory,
}

impl From<XdrError> for MsgError {
    ghost from_gives = { λ e m. m ≡ error_of e };

    fn from(e: XdrError) -> MsgError {
        match e {
            XdrError::Short(at) => MsgError::Short(at),
            XdrError::Range(at) => MsgError::Range(at),
            XdrError::Padding(at) => MsgError::Padding(at),
        }
    }
}

impl From<AllocError> for MsgError {
    ghost from_gives = { λ _ m. m ≡ Wanting };

    fn from(_e: AllocError) -> MsgError {
        MsgError::OutOfMemory
    }
}

impl<T: Drop> From<AllocFailed<T>> for MsgError {
    ghost from_gives = { λ _ m. m ≡ Wanting };

    fn from(_e: AllocFailed<T>) -> MsgError {
        MsgError::OutOfMemory
    }
}
