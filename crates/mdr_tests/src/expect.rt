// What a row of a table says is so.

use std::fmt::Debug;
use std::process::Abort;

/// The row is told where it isn't so.
pub(crate) fn expect<T: Debug>(rt: &impl Abort, holds: bool, row: &T) {
    assert!(rt; holds, "not so: {row:?}");
}
