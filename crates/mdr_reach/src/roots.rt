// What is passed.

use mdr_core::{Ann, Value};

/// A value that is passed, with its annotation.
#[derive(Clone, Copy)]
pub struct Root {
    pub ann: Ann,
    pub value: Value,
}
