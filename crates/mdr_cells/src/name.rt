// Cells as they are looked up.

/// A cell of a block, by the block's serial. The order is by serial, and in a block by index.
#[derive(Clone, Copy, PartialEq, Eq, PartialOrd, Ord, Hash)]
pub struct CellName {
    pub serial: u64,
    pub index: u64,
}
