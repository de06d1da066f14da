// The blocks that values name.

ghost use Rattle.std.specs.Prelude.{◌≡◌, ◌++◌, ◌∷◌, ℕ, List, IfOk, OnOk};
ghost use Rattle.std.specs.List.Sorted.{IsNonDecreasing};
ghost use Rattle.mdr_copy.specs.Namings.{with_named, named_serials, is_listed};
ghost use Rattle.mdr_model.specs.Copies.{is_named};

use mdr_core::OutOfMemory;
use mdr_model::Wire;
use std::alloc::Global;

/// Adds the serial of the block that a value names.
fn put_named(out: &mut Vec<u64>, value: Wire) -> Result<(), OutOfMemory>
    ensures { OnOk result ((rest : List ℕ) → out.new.items ++ rest ≡ out.old.items ++ with_named value rest) }
{
    match value {
        Wire::Ptr(view) => put_serial(out, view.serial),
        Wire::Int(_, _) => Ok(()),
        Wire::Null => Ok(()),
        Wire::Dead => Ok(()),
        Wire::Fn(_) => Ok(()),
        Wire::Lock(_) => Ok(()),
        Wire::NoValue => Ok(()),
    }
}

fn put_serial(out: &mut Vec<u64>, serial: u64) -> Result<(), OutOfMemory>
    ensures { OnOk result ((rest : List ℕ) → out.new.items ++ rest ≡ out.old.items ++ (serial ∷ rest)) }
{
    out.push(serial)?;
    Ok(())
}

#[tactic(auto, unfolding(crate::specs::Namings::named_serials))]
fn named_serials(alloc: Global, values: &[Wire]) -> Result<Vec<u64>, OutOfMemory>
    ensures { IfOk result (λ s. s.items ≡ named_serials values.now) }
{
    let mut out = Vec::new(alloc);
    for value in values {
        put_named(&mut out, *value)?;
    }
    Ok(out)
}

/// The serials of the blocks that values name, in order.
pub(crate) fn named_in_order(alloc: Global, values: &[Wire]) -> Result<Vec<u64>, OutOfMemory>
    ensures rise { IfOk result (λ s. IsNonDecreasing s.items) }
    ensures exact { IfOk result (λ s. (serial : ℕ) → is_listed s.items serial ≡ is_named values.now serial) }
{
    let mut serials = named_serials(alloc, values)?;
    serials.sort_unstable();
    Ok(serials)
}

/// Whether a serial is one of those in order, found in logarithmic time.
pub(crate) fn is_listed(serials: &[u64], serial: u64) -> bool
    requires { IsNonDecreasing serials.now }
    ensures { result ≡ is_listed serials.now serial }
{
    match serials.binary_search(&serial) {
        Ok(_) => true,
        Err(_) => false,
    }
}
