// What stays the same while cells are looked for.

use crate::layouts::Layouts;
use mdr_core::{Key, Program};
use mdr_region::RegionBlocks;

/// A program and the keys that may be touched, with the table of these, and the memory.
#[derive(Clone, Copy)]
pub struct Scene<'a> {
    pub program: &'a Program,
    pub touched: &'a [Key],
    pub layouts: &'a Layouts,
    pub blocks: &'a RegionBlocks,
}
