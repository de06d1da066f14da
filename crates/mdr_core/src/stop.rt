// Why a run stops.

/// A cause for which a run stops. In the order of the variants the causes have the numbers 1 to 17.
#[derive(Clone, Copy)]
pub enum StopKind {
    /// A null pointer is used.
    Null,
    /// A pointer to a dead block is loaded or used.
    Dead,
    /// An index, or a register's number, is out of range.
    Bounds,
    /// A signed result doesn't fit its kind (C99 6.5, paragraph 5).
    Overflow,
    /// A divisor is zero (C99 6.5.5).
    DivZero,
    /// A shift is undefined (C99 6.5.7).
    Shift,
    /// Pointers of different objects are compared or subtracted (C99 6.5.6, 6.5.8).
    Compare,
    /// A `void *` is converted to a pointer to another type than it views.
    BadCast,
    /// `kfree` gets what no allocation gave.
    BadCall,
    /// The value of a call is used, and the function ended without one (C99 6.9.1).
    NoValue,
    /// `combolock` on a held lock.
    LockHeld,
    /// `combounlock` on a free lock.
    LockFree,
    /// A call is made with 256 or more functions active.
    Depth,
    /// `BUG()` runs.
    Bug,
    /// An extent fails, or user code touches a cell that isn't visible.
    Annotation,
    /// A tick is needed, and the budget is used.
    Ticks,
    /// The kernel half calls back where it may not sleep.
    Atomic,
}
