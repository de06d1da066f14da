// Why a reply is refused.

/// Why the kernel half refuses a reply of the far side.
#[derive(Clone, Copy)]
pub enum RefuseKind {
    /// The bytes end within an item.
    Short,
    /// A number is out of its type's range.
    Range,
    /// A padding byte isn't zero.
    Padding,
    /// A tag is unknown.
    Kind,
    /// Bytes are left over.
    Trailing,
    /// A message of another kind is awaited, or none.
    NotAwaited,
    /// More ticks are told than were left.
    TooManyTicks,
    /// The place is no statement of a user-half function.
    BadPlace,
    /// The depth isn't over the upcall's, or is over 255.
    BadDepth,
    /// The function has no down stub.
    NoStub,
    /// The service can't be asked for, or not so.
    BadService,
    /// An argument doesn't fit, or their number is wrong.
    BadArgs,
    /// The result doesn't fit.
    BadResult,
    /// User code can't stop for this cause.
    BadStop,
    /// An upcall ends while an object that it entered lives.
    StillEntered,
    /// Runs don't rise, or overlap.
    RunOrder,
    /// A run has a cell that isn't visible.
    OutsideSet,
    /// A pointer names a serial that isn't paired.
    UnknownSerial,
    /// A pointer isn't a view of its block.
    BadView,
    /// A value doesn't fit its cell.
    BadValue,
    /// The far side refused the texts that it was to load.
    Load,
}
