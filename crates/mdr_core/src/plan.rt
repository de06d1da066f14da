// The plan of the stubs.

use crate::items::{Items, Name};
use crate::types::Ty;

/// Which cells a function may touch: a global's, a struct's field (struct, field), or the elements of a type.
#[derive(Clone, Copy, PartialEq, Eq)]
pub enum Key {
    Global(u32),
    Field(u32, u32),
    Elem(u32),
}

/// A half of the driver.
#[derive(Clone, Copy)]
pub enum Half {
    Kernel,
    User,
}

/// What the two halves must know of each other: of each function its name, its half, whether it is a root,
/// whether the user half may call it by a stub, and the keys of its cells.
#[derive(Drop)]
pub struct Plan {
    pub types: Items<Ty>,
    pub names: Items<Name>,
    pub halves: Items<Half>,
    pub roots: Items<bool>,
    pub down: Items<bool>,
    pub keys: Items<Items<Key>>,
}
