// Which of three texts isn't that of a source, and where.

/// One of the three texts.
#[derive(Clone, Copy)]
pub enum Which {
    /// That of the kernel half.
    Kernel,
    /// That of the user half.
    User,
    /// That of the plan.
    Plan,
}

/// A text that isn't what it should be, and the line, counted from 1, on which it stops to be that. The line is 0 where the
/// texts are those of two halves and the types of the whole are refused.
#[derive(Clone, Copy)]
pub struct Mismatch {
    pub text: Which,
    pub line: u128,
}
