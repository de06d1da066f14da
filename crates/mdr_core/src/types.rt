// Types, annotations and shapes.

use crate::boxed::Boxed;
use crate::items::Items;
use crate::kind::Kind;

/// A type of the profile (C99 6.2.5), without arrays, which are counts beside a type.
#[derive(Drop)]
pub enum Ty {
    Int(Kind),
    /// The profile's `combolock_t`.
    Lock,
    /// A struct, by its number.
    Struct(u32),
    /// A pointer to an object of a type other than `void`.
    Ptr(Boxed<Ty>),
    VoidPtr,
    /// A pointer to a function: its result, then its parameters.
    Fun(Items<Ty>),
    /// The result of a function that gives none.
    Void,
}

/// The length that `__array` names.
#[derive(Clone, Copy)]
pub enum LenOf {
    Const(u32),
    /// A field of the same struct, or a parameter of the same call, by its number.
    Sibling(u32),
    /// A global, by its number.
    Global(u32),
}

/// How far a pointer may be followed.
#[derive(Clone, Copy)]
pub enum Ann {
    /// One element: there is no annotation.
    Single,
    Array(LenOf),
    /// Up to the first element whose field of this number is zero or null.
    Sentinel(u32),
    /// Up to the first element that is zero.
    NullTerm,
    /// No element.
    Opaque,
}

/// What a block is made of: so many elements of a type, which is a number of the program's type table.
#[derive(Clone, Copy)]
pub struct Shape {
    pub ty: u32,
    pub count: u32,
}
