// What texts are put together from.

ghost use Rattle.std.specs.Prelude.{◌≡◌, ◌++◌, OnOk, decimal};

use std::alloc::{AllocError, Global};

/// A word as it is.
pub fn put_word(out: &mut Vec<u8>, word: &str) -> Result<(), AllocError>
    ensures { OnOk result (out.new.items ≡ out.old.items ++ word.now) }
{
    out.extend_from_slice(word.as_bytes())
}

/// A number in decimal digits.
pub fn put_number(alloc: Global, out: &mut Vec<u8>, n: u128) -> Result<(), AllocError>
    ensures { OnOk result (out.new.items ≡ out.old.items ++ decimal n) }
{
    let digits = n.to_string(alloc)?;
    put_word(out, digits.as_str())
}
