// What a line of a script says.

use mdr_core::{Items, Name};
use mdr_device::Rule;

/// An argument as it is written.
#[derive(Drop)]
pub enum ArgText {
    Int(i128),
    Null,
    /// The address of the global of this name.
    Global(Name),
}

/// A command as it is written.
#[derive(Drop)]
pub enum LineWhat {
    /// Calls the function of this name.
    Call(Name, Items<ArgText>),
    /// Lets so many ticks pass.
    Idle(u64),
    /// Shows the global of this name.
    Show(Name),
}

/// A command and the number of its line, counted from 1.
#[derive(Drop)]
pub struct ScriptLine {
    pub line: u32,
    pub what: LineWhat,
}

/// What a line says.
#[derive(Drop)]
pub enum Line {
    /// It is empty or a comment.
    Nothing,
    /// A register begins with this word.
    Word(u32, u32),
    Rule(Rule),
    /// The allocation of this number, counted from 1, fails.
    Fail(u64),
    Command(LineWhat),
}
