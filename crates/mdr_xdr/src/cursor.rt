// Where bytes are read, and why they can't be.

use thiserror::Error;

/// The offset of the next item. It may lie behind the last byte, and then every item there is short.
#[derive(Clone, Copy)]
pub struct Cursor {
    pub at: u64,
}

/// Why bytes are no item.
#[derive(Clone, Copy, Debug, PartialEq, Eq, Error)]
pub enum XdrError {
    /// The item that begins at this offset passes the last byte.
    #[error("the item at {0} is cut off")]
    Short(u64),
    /// The number of the item at this offset isn't in the range of its kind.
    #[error("the number at {0} is out of range")]
    Range(u64),
    /// The byte at this offset is padding and isn't zero.
    #[error("the padding at {0} is not zero")]
    Padding(u64),
}
