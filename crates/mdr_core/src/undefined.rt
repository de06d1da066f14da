// What C leaves undefined of an operator.

/// Why an operator has no result (C99 6.5, 6.5.5, 6.5.7).
#[derive(Clone, Copy, PartialEq, Eq)]
pub enum Undefined {
    /// A signed result other than a left shift's doesn't fit its kind.
    Overflow,
    /// The divisor is zero.
    DivZero,
    /// The shift count is negative or not below the width, or a signed left shift doesn't fit.
    Shift,
}
