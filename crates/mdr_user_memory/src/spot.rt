// Cells whose index has no bound of 32 bits.

/// A cell of the block with a serial.
#[derive(Clone, Copy)]
pub struct Spot {
    pub serial: u64,
    pub index: usize,
}
