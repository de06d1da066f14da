// Values that mean the same in both halves.

use mdr_core::{Kind, LockState};

/// What a pointer names, by the serial of its block: `count` elements of type `ty` from cell `first`, and of
/// these the one at `index`. `ty` is a number of the type table.
#[derive(Clone, Copy, Debug)]
pub struct WireView {
    pub serial: u64,
    pub first: u32,
    pub ty: u32,
    pub count: u32,
    pub index: u32,
}

/// A value whose pointers name serials, so that it means the same in both halves.
#[derive(Clone, Copy, Debug)]
pub enum Wire {
    /// An integer, which lies in the range of its kind.
    Int(Kind, i128),
    Null,
    Ptr(WireView),
    /// A pointer whose block has died.
    Dead,
    /// A function, by its number.
    Fn(u32),
    Lock(LockState),
    /// What a call without a result gives.
    NoValue,
}
