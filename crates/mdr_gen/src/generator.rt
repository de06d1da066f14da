// The texts of a seed.

ghost use Rattle.std.specs.Prelude.{◌≡◌, IfOk};
ghost use Rattle.mdr_gen.specs.Generator.{driver_text, lines_from};

use crate::driver::driver_text;
use crate::script::script_text;
use mdr_core::OutOfMemory;
use std::alloc::Global;

/// The text of a driver, and that of a script of `size` calls of its functions, which the seed chooses.
pub fn generate(alloc: Global, seed: u64, size: u64) -> Result<(Vec<u8>, Vec<u8>), OutOfMemory>
    ensures driver { IfOk result (λ texts. texts.0.items ≡ driver_text) }
    ensures script { IfOk result (λ texts. texts.1.items ≡ lines_from seed size) }
{
    let script = script_text(alloc, seed, size)?;
    let driver = driver_text(alloc)?;
    Ok((driver, script))
}
