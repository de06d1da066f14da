// What is read besides the tree itself.

use mdr_core::Place;
use mdr_syntax::{Base, Node};

/// A statement, and whether no `else` behind it could belong to it.
#[derive(Drop)]
pub struct Ended {
    pub node: Node,
    pub closed: bool,
}

/// A base type, and the place of its first token.
#[derive(Drop)]
pub struct Specifier {
    pub base: Base,
    pub place: Place,
}
