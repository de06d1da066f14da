// Lists, one behind the other.

ghost use Rattle.std.specs.Prelude.{◌≡◌, ◌++◌, IfOk, IfErr};
ghost use Rattle.mdr_reader.specs.declared.failure.Failure.TheVariants.{Memory};

use crate::failure::Failure;
use mdr_core::Items;

/// Two lists, one behind the other.
pub fn followed<T: Drop>(first: Items<T>, second: Items<T>) -> Result<Items<T>, Failure>
    ensures value { IfOk result (λ l. l ≡ first ++ second) }
    ensures memory { IfErr result (λ e. e ≡ Memory) }
{
    let mut all = first.into_vec();
    all.append(&mut second.into_vec())?;
    Ok(Items::from_vec(all))
}
