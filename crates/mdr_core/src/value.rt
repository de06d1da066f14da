// Values of a running driver.

use crate::kind::Kind;

/// A block of memory: where it lies now, and its serial, the count of births before it.
#[derive(Clone, Copy, Debug)]
pub struct Block {
    pub slot: u32,
    pub serial: u64,
}

/// What a pointer names: `count` elements of type `ty` from cell `first` of a block, and of these the one at
/// `index`. `ty` is a number of the program's type table. In a `Program` no slot is meant, and it is 0.
#[derive(Clone, Copy, Debug)]
pub struct View {
    pub block: Block,
    pub first: u32,
    pub ty: u32,
    pub count: u32,
    pub index: u32,
}

/// The state of a lock.
#[derive(Clone, Copy, Debug)]
pub enum LockState {
    Free,
    Spin,
    Sleep,
}

/// A value.
#[derive(Clone, Copy, Debug)]
pub enum Value {
    /// An integer, which lies in the range of its kind.
    Int(Kind, i128),
    Null,
    Ptr(View),
    /// A pointer whose block has died.
    Dead,
    /// A function, by its number.
    Fn(u32),
    Lock(LockState),
    /// What a call without a result gives.
    NoValue,
}
