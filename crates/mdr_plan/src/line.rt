// A line of a plan's text.

use mdr_core::{Half, Key, Name, Ty};

/// Which lines were read last.
#[derive(Clone, Copy)]
pub enum Stage {
    /// None.
    Start,
    Types,
    Functions,
    Downs,
    Ups,
    /// The line `end`.
    Done,
}

/// What a line says. Its number, where it has one that isn't told here, is that of what comes next.
#[derive(Drop)]
pub enum Line {
    Heading,
    /// The next of the types that each table begins with.
    First,
    /// The next struct.
    Struct(Name),
    /// A type of pointers, to functions too, and its text.
    Type(Ty, Name),
    /// The next function, its half, and whether it is a root.
    Function(Name, Half, bool),
    /// A function that the user half may call by a stub.
    Down(usize),
    /// The next function of the user half.
    Up(usize),
    /// A key of the function whose `up` line was read last.
    Key(Key),
    End,
}
