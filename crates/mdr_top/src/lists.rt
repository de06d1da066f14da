// The messages of a run, and its answers.

ghost use Rattle.std.specs.Prelude.{◌≡◌, ◌∷◌, ◌++◌, [], IfOk, OnOk};
ghost use Rattle.mdr_exchanges.specs.Runs.{sent_of, answers_of};

use mdr_core::{Items, OutOfMemory};
use mdr_outside::Exchange;
use std::alloc::Global;

/// A copy of a message more.
fn push_copy(alloc: Global, list: &mut Vec<Items<u8>>, bytes: &[u8]) -> Result<(), OutOfMemory>
    ensures { OnOk result (list.new.items ≡ list.old.items ++ bytes.now ∷ []) }
{
    let copy = Items::from_slice(alloc, bytes)?;
    list.push(copy)?;
    Ok(())
}

/// The messages that were sent.
pub(crate) fn sent_of(alloc: Global, exchanges: &[Exchange]) -> Result<Vec<Items<u8>>, OutOfMemory>
    ensures { IfOk result (λ list. list.items ≡ sent_of exchanges.now) }
{
    let mut list = Vec::new(alloc);
    for exchange in exchanges {
        push_copy(alloc, &mut list, exchange.sent.as_slice())?;
    }
    Ok(list)
}

/// The answers, up to the first message that has none.
pub(crate) fn answers_of(
    alloc: Global,
    exchanges: &[Exchange],
) -> Result<Vec<Items<u8>>, OutOfMemory>
    ensures { IfOk result (λ list. list.items ≡ answers_of exchanges.now) }
{
    let mut list = Vec::new(alloc);
    for exchange in exchanges {
        let Some(bytes) = &exchange.got else {
            return Ok(list);
        };
        push_copy(alloc, &mut list, bytes.as_slice())?;
    }
    Ok(list)
}
