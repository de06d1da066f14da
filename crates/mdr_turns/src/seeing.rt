// What messages tell of the state of the run.

ghost use Rattle.std.specs.Prelude.{◌≡◌, IfOk};
ghost use Rattle.mdr_watched.specs.Views.{top};
ghost use Rattle.mdr_watch.specs.declared.watch.Watch.{Watch as AnyWatch};
ghost use Rattle.mdr_turns.specs.States.{IsActive, IsSeen, StandsFor};

use crate::state::{Active, Seen, Tally, Waiting};
use mdr_core::OutOfMemory;
use mdr_kernel_memory::{Counts, Moment, counts_of, moment_of};
use std::alloc::Global;

/// What messages tell of the state stands beside it.
fn beside<'a>(active: Active<'a>, moment: Moment) -> Waiting<'a>
    requires memory { moment.memory ≡ active.guarded.world.memory }
    requires view { moment.view ≡ top active.guarded.world.views }
    ensures same { result.seen.guarded ≡ active.entry.guarded }
    ensures ledger { result.ledger ≡ active.entry.ledger }
    ensures open { result.open ≡ active.entry.open }
    ensures behind { result.behind ≡ active.entry.behind }
    ensures seen { IsSeen result.seen }
{
    let Active {
        guarded,
        ledger,
        open,
        behind,
    } = active;
    let Moment { memory, view } = moment;
    let Counts {
        ticks,
        rest,
        calls,
        below,
    } = counts_of(&guarded);
    let seen = Seen {
        guarded,
        memory,
        view,
        tally: Tally {
            ticks,
            rest,
            calls,
            below,
        },
    };
    Waiting {
        seen,
        ledger,
        open,
        behind,
    }
}

/// Takes what messages tell of the state.
pub(crate) fn seen<'a>(alloc: Global, active: Active<'a>) -> Result<Waiting<'a>, OutOfMemory>
    ensures same { IfOk result (λ w. w.seen.guarded ≡ active.entry.guarded) }
    ensures ledger { IfOk result (λ w. w.ledger ≡ active.entry.ledger) }
    ensures open { IfOk result (λ w. w.open ≡ active.entry.open) }
    ensures behind { IfOk result (λ w. w.behind ≡ active.entry.behind) }
    ensures stands { IfOk result (λ w. (watch : AnyWatch) → IsActive watch active.entry → StandsFor watch w) }
{
    match moment_of(alloc, &active.guarded) {
        Ok(moment) => Ok(beside(active, moment)),
        Err(error) => {
            drop(active);
            Err(error)
        }
    }
}
