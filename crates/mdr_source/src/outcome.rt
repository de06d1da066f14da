// What a source that is right comes to.

use mdr_core::Program;
use mdr_syntax::Tree;

/// A source that was read, and the program that it declares.
#[derive(Drop)]
pub struct Source {
    pub tree: Tree,
    pub program: Program,
}
