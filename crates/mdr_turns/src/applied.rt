// A legal reply is applied.

ghost use Rattle.std.specs.Prelude.{◌≡◌, ◌≤◌, None};
ghost use Rattle.mdr_split.specs.Kernel.{applied};
ghost use Rattle.mdr_split.specs.Legal.{reply_runs_fault};
ghost use Rattle.mdr_watch.specs.declared.watch.Watch.{Watch as AnyWatch};
ghost use Rattle.mdr_watched.specs.Driver.{Driver as AnyDriver};
ghost use Rattle.mdr_kernel_memory.specs.Holding.{AreStorable};
ghost use Rattle.mdr_turns.specs.States.{ChangesVisible, IsActive, agreed_with, kernel_in};

use crate::state::{Active, Ledger};
use mdr_copy::put_runs;
use mdr_kernel_memory::apply;
use mdr_model::Run;

/// Its runs are stored in the agreed copy.
fn agreed_applied(ledger: Ledger, runs: &[Run]) -> Ledger
    ensures { result ≡ agreed_with runs.now ledger }
{
    let Ledger {
        agreed,
        exchanges,
        passes,
    } = ledger;
    let mut copy = agreed;
    put_runs(&mut copy, runs);
    Ledger {
        agreed: copy,
        exchanges,
        passes,
    }
}

/// It is applied: its ticks are spent, and its runs are stored in the memory and in the agreed copy. Of the memory runs
/// without a fault change visible cells alone.
#[tactic(auto, unfolding(mdr_split::specs::Kernel::applied))]
pub(crate) fn applied<'a>(active: Active<'a>, ticks: u64, runs: &[Run]) -> Active<'a>
    requires within { ticks ≤ active.guarded.world.clock.rest }
    requires storable { AreStorable active.guarded.world.memory runs.now }
    ensures is { kernel_in result ≡ applied ticks runs.now (kernel_in active.entry) }
    ensures contained { (d : AnyDriver) → reply_runs_fault d (kernel_in active.entry) runs.now ≡ None → ChangesVisible d (kernel_in active.entry) (kernel_in result) }
    ensures open { result.open ≡ active.entry.open }
    ensures behind { result.behind ≡ active.entry.behind }
    ensures kept { (watch : AnyWatch) → IsActive watch active.entry → IsActive watch result }
{
    let Active {
        guarded,
        ledger,
        open,
        behind,
    } = active;
    let left = apply(guarded, ticks, runs);
    Active {
        guarded: left,
        ledger: agreed_applied(ledger, runs),
        open,
        behind,
    }
}
