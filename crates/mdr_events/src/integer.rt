// Integers in hand.

use mdr_core::Kind;

/// An integer with its kind.
#[derive(Clone, Copy)]
pub struct Integer {
    pub number: i128,
    pub kind: Kind,
}
