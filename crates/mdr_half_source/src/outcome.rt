// What the texts of a user half come to.

use mdr_core::{Plan, Program};

/// A plan that was read, and the program that the text of a user half has with it.
#[derive(Drop)]
pub struct HalfSource {
    pub plan: Plan,
    pub program: Program,
}
