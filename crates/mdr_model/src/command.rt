// The commands of a script.

use mdr_core::{Items, Name, Value};

/// A command. Functions and globals are named by their numbers; in its values no slot is meant.
#[derive(Drop)]
pub enum Command {
    /// Calls a function with arguments.
    Call(u32, Items<Value>),
    /// Lets so many ticks pass.
    Idle(u64),
    /// Shows what a global holds.
    Show(u32),
    /// Puts an integer into a cell of the block with a serial, where the cell holds an integer of a kind that has it. Else
    /// nothing is done. No line of a script gives it.
    Poke(u64, u32, i128),
    /// Notes a line. No line of a script gives it.
    Say(Name),
}
