// A script that is bound to a program.

use mdr_core::Items;
use mdr_device::Rule;
use mdr_model::Command;

/// A script for a program: its commands name functions and globals of the program by their numbers, and the arguments
/// fit.
#[derive(Drop)]
pub struct Bound {
    pub words: Items<(u32, u32)>,
    pub rules: Items<Rule>,
    pub fails: Items<u64>,
    pub commands: Items<Command>,
}
