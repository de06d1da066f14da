// What is read besides the tree itself.

use mdr_core::{Boxed, Items};
use mdr_syntax::{Form, Node};

/// A statement that is a part of another, and whether no `else` behind it could belong to it.
#[derive(Drop)]
pub struct Branch {
    pub node: Boxed<Node>,
    pub closed: bool,
}

/// What stands in the parentheses of a `for`.
#[derive(Drop)]
pub struct LoopHead {
    pub init: Items<Node>,
    pub test: Option<Boxed<Form>>,
    pub step: Option<Boxed<Node>>,
}
