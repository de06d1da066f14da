// Blocks as they are looked up.

/// A block of the user half's memory, as a key.
#[derive(Clone, Copy, PartialEq, Eq, Hash)]
pub struct BlockKey {
    pub slot: u32,
    pub serial: u64,
}
