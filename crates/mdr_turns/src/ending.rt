// A run ends while a function of the user half is active.

ghost use Rattle.std.specs.Prelude.{◌≡◌, List};
ghost use Rattle.mdr_model.specs.declared.command.Command.{Command as AnyCommand};
ghost use Rattle.mdr_split.specs.State.{Over};
ghost use Rattle.mdr_watch.specs.declared.watch.Watch.{Watch as AnyWatch};
ghost use Rattle.mdr_watched.specs.Driver.{Driver as AnyDriver};
ghost use Rattle.mdr_turns.specs.declared.state.Ledger.{Ledger as AnyLedger};
ghost use Rattle.mdr_turns.specs.Coming.{ComesTo, IsLeft, KeptFor};
ghost use Rattle.mdr_turns.specs.States.{kernel_with};

use crate::state::{Active, Pending, Within};
use mdr_model::End;
use mdr_watch::{Guarded, Parts};
use mdr_world::World;

/// The state of the run, without the sets of the upcalls that are open.
pub(crate) fn left<'a>(guarded: Guarded<'a>) -> World<'a>
    ensures left { IsLeft guarded.entry.world result.world }
    ensures program { result.program ≡ guarded.entry.program }
{
    let Parts { world, sets } = guarded.parts();
    drop(sets);
    world
}

/// The run is over.
fn over<'a>(end: End, guarded: Guarded<'a>) -> Pending<'a>
    ensures kept { (watch : AnyWatch) → guarded.entry.program ≡ watch.program.now → KeptFor watch result }
    ensures comes { (d : AnyDriver) (script : List AnyCommand) (ledger : AnyLedger) → ComesTo d result script (Over end (kernel_with ledger guarded.entry.world)) }
{
    Pending::Over(end, left(guarded))
}

/// The run is over, and what was kept beside its state is let go of.
pub(crate) fn over_in<'a>(end: End, active: Active<'a>) -> Pending<'a>
    ensures kept { (watch : AnyWatch) → active.entry.guarded.program ≡ watch.program.now → KeptFor watch result }
    ensures comes { (d : AnyDriver) (script : List AnyCommand) (ledger : AnyLedger) → ComesTo d result script (Over end (kernel_with ledger active.entry.guarded.world)) }
{
    let Active {
        guarded,
        ledger,
        open,
        behind,
    } = active;
    drop(ledger);
    drop(open);
    drop(behind);
    over(end, guarded)
}

/// The same, where code of the kernel half was at work.
pub(crate) fn over_within<'a>(end: End, within: Within<'a>) -> Pending<'a>
    ensures kept { (watch : AnyWatch) → within.entry.guarded.program ≡ watch.program.now → KeptFor watch result }
    ensures comes { (d : AnyDriver) (script : List AnyCommand) (ledger : AnyLedger) → ComesTo d result script (Over end (kernel_with ledger within.entry.guarded.world)) }
{
    let Within {
        guarded,
        ledger,
        behind,
    } = within;
    drop(ledger);
    drop(behind);
    over(end, guarded)
}
