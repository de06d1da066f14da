// The lines of counts.

ghost use Rattle.std.specs.Prelude.{◌≡◌, ◌++◌, OnOk, codes};
ghost use Rattle.mdr_model.specs.Report.{count_line};

use crate::put::put_count;
use std::alloc::{AllocError, Global};

/// The lines of the ticks and of the live blocks.
pub fn put_counts(alloc: Global, out: &mut Vec<u8>, ticks: u64, live: u64) -> Result<(), AllocError>
    ensures { OnOk result (out.new.items ≡ out.old.items ++ (count_line (codes "ticks ") ticks ++ count_line (codes "live ") live)) }
{
    put_count(alloc, out, "ticks ", ticks)?;
    put_count(alloc, out, "live ", live)
}
