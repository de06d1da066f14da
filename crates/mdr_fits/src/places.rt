// What values are judged by.

use mdr_copy::RisingBlocks;
use mdr_core::Program;

/// The functions whose addresses may be passed.
#[derive(Clone, Copy)]
pub enum Passes<'a> {
    /// All of them.
    All,
    /// Those of a list.
    These(&'a [u32]),
}

/// What values are judged by: the driver's program, the functions whose addresses may be passed, the blocks that both
/// halves know, and the memory that says what blocks were born as.
#[derive(Clone, Copy)]
pub struct Places<'a> {
    pub program: &'a Program,
    pub passes: Passes<'a>,
    pub paired: &'a RisingBlocks,
    pub memory: &'a RisingBlocks,
}
