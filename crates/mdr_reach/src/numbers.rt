// Numbers of structs, fields and cells in the table.

ghost use Rattle.std.specs.Prelude.{◌≡◌, IfOk};

use mdr_core::{Limit, OutOfMemory, within};

/// A number of 32 bits. A struct with more of anything is too large to be held.
pub(crate) fn small(number: usize) -> Result<u32, OutOfMemory>
    ensures { IfOk result (λ n. n ≡ number) }
{
    within(number as u64, Limit::Cells)?;
    Ok(number as u32)
}
