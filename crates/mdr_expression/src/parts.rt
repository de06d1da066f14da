// What is read besides the tree itself.

use mdr_core::{Boxed, Items};
use mdr_syntax::Form;

/// An operand; whether it is a call, or a form with `++` or `--`, which may be a statement; and how many levels
/// are below its own. The form is in its box from the start, as a part of a larger one.
#[derive(Drop)]
pub struct Part {
    pub form: Boxed<Form>,
    pub alone: bool,
    pub height: u32,
}

/// Arguments, and how many levels they add to their call.
#[derive(Drop)]
pub struct Arguments {
    pub forms: Items<Form>,
    pub highest: u32,
}
