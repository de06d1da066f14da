// Lists, and items of them.

ghost use Rattle.std.specs.Prelude.{◌≡◌, ◌++◌, OnOk, slice_get};

use mdr_core::{Items, OutOfMemory, Value};

/// Adds items at the end.
pub(crate) fn push_all<T: Copy + Drop>(list: &mut Items<T>, more: &[T]) -> Result<(), OutOfMemory>
    ensures { OnOk result (list.new ≡ list.old ++ more.now) }
{
    for item in more {
        list.push(*item)?;
    }
    Ok(())
}

/// A value of a list.
pub(crate) fn item(values: &[Value], index: u64) -> Option<Value>
    ensures { result ≡ slice_get values.now index }
{
    match values.get(index as usize) {
        Some(v) => Some(*v),
        None => None,
    }
}
