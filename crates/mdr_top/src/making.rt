// A driver and a script that are made from a seed, and their run.

ghost use Rattle.std.specs.Prelude.{◌≡◌, ◌≢◌, IfOk, OnErr};
ghost use Rattle.mdr_due.specs.declared.status.Status.TheVariants as status;
ghost use Rattle.mdr_due.specs.Statuses.{Counts, HasReadCause};
ghost use Rattle.mdr_outside.specs.Count.{Rose};
ghost use Rattle.mdr_top.specs.Generates.{IsGenerated, IsGeneratedPart};

use crate::recipe::Recipe;
use crate::seed_running::generated;
use mdr_core::OutOfMemory;
use mdr_due::Due;
use mdr_outside::{Far, FarSeen};
use std::alloc::Global;

/// Makes a driver and a script from a seed, and runs the script over the driver's two halves.
pub(crate) fn made<F: Far>(alloc: Global, far: &mut F, recipe: Recipe) -> Result<Due, OutOfMemory>
    ensures done { IfOk result (λ due. IsGenerated recipe (⟦<F as FarSeen>⟧.side far.old) (⟦<F as FarSeen>⟧.side far.new) due.status due.text.items) }
    ensures part { OnErr result (IsGeneratedPart recipe (⟦<F as FarSeen>⟧.side far.old) (⟦<F as FarSeen>⟧.side far.new)) }
    ensures read { IfOk result (λ due. (before after : Counts) → HasReadCause before after due.status) }
    ensures unwritten { IfOk result (λ due. due.status ≢ status.WriteFault) }
    ensures failed { IfOk result (λ due. due.status ≡ status.FarFault → Rose (F.faults far.old) (F.faults far.new)) }
{
    generated(alloc, recipe, far)
}
