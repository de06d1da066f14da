// Blocks that are to be born.

use mdr_core::{Items, Value};
use mdr_model::New;

/// A block that is to be born, with the values that its cells have first, as they are put into cells.
#[derive(Drop)]
pub struct Newborn {
    pub born: New,
    pub first: Items<Value>,
}
