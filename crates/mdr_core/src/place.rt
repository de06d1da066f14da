// Places in a text and in a program.

/// A place in a text: line and column, both counted from 1.
#[derive(Clone, Copy, Debug)]
pub struct Place {
    pub line: u32,
    pub column: u32,
}

/// A statement's place: the function's number and the statement's number in it, which counts from 1.
/// Statement 0 stands for the function as a whole.
#[derive(Clone, Copy, Debug)]
pub struct At {
    pub func: u32,
    pub stmt: u32,
}
