// What the user half runs.

use mdr_core::{Plan, Program};

/// A driver, or its user half's part of one, and its plan.
#[derive(Clone, Copy)]
pub struct Scene<'a> {
    pub program: &'a Program,
    pub plan: &'a Plan,
}
