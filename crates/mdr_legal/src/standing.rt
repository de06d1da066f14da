// Where the kernel half waits.

use mdr_copy::{CellList, RisingBlocks};
use mdr_core::{Plan, Program};

/// Where the kernel half waits for an answer, as far as an answer is judged by it: the driver and its plan, the functions
/// whose addresses its program takes, the agreed copy, the memory, the cells that user code may touch, the function that
/// the innermost upcall called, how many functions were active before it and the objects of locals that were born in it and
/// live, how many upcalls are open below it, and what was counted.
#[derive(Clone, Copy)]
pub struct Standing<'a> {
    pub program: &'a Program,
    pub plan: &'a Plan,
    pub passes: &'a [u32],
    pub agreed: &'a RisingBlocks,
    pub memory: &'a RisingBlocks,
    pub view: &'a CellList,
    pub func: u32,
    pub depth: u32,
    pub entered: &'a [u64],
    pub below: u64,
    pub exchanges: u64,
    pub ticks: u64,
    pub rest: u64,
    pub calls: u64,
}
