// A function of the user half is called.

ghost use Rattle.std.specs.Prelude.{◌≡◌, [], Some, IfOk};
ghost use Rattle.mdr_core.specs.declared.stop.StopKind.TheVariants as stop;
ghost use Rattle.mdr_model.specs.declared.outcome.End.TheVariants as ends;
ghost use Rattle.mdr_plain.specs.World.{done};
ghost use Rattle.mdr_viewed.specs.Viewed.{IsOlder};
ghost use Rattle.mdr_watched.specs.Order.{AreLive};
ghost use Rattle.mdr_watched.specs.Views.{opened};
ghost use Rattle.mdr_watch.specs.Watching.{driver_in};
ghost use Rattle.mdr_turns.specs.Coming.{BeginsCall, KeptFor, TellsCall};
ghost use Rattle.mdr_turns.specs.States.{IsBehind, IsBetween, IsWithin};

use crate::ending::over_within;
use crate::sending::call_told;
use crate::state::{Active, Behind, Between, Callee, Open, Pending, Within};
use mdr_cells::CellSet;
use mdr_core::{At, Items, OutOfMemory, StopKind};
use mdr_model::End;
use mdr_watch::{Guarded, Upcall, Watch, first_set};
use std::alloc::Global;

/// An upcall whose set was taken is told: no object was born in it yet.
fn call_opened<'a>(
    alloc: Global,
    watch: Watch<'a>,
    callee: Callee,
    within: Within<'a>,
) -> Result<Pending<'a>, OutOfMemory>
    requires within { IsWithin watch within }
    requires behind { IsBehind watch.program.now within.guarded.world within.behind }
    ensures kept { IfOk result (KeptFor watch.entry) }
    ensures comes { IfOk result (λ p. TellsCall (driver_in watch.entry) p callee.entry (done within.entry.guarded.world) within.entry.ledger within.entry.behind) }
{
    let Within {
        guarded,
        ledger,
        behind,
    } = within;
    let open = Open {
        func: callee.func,
        depth: callee.depth,
        entered: Items::new(alloc),
    };
    let active = Active {
        guarded,
        ledger,
        open,
        behind,
    };
    call_told(alloc, watch, callee, active)
}

/// The place that a failing pointer of an upcall is told of: the function as a whole.
fn no_set(func: u32) -> End
    ensures { result ≡ ends.Stop stop.Annotation (Some (record { func = func; stmt = 0 })) }
{
    End::Stop(StopKind::Annotation, Some(At { func, stmt: 0 }))
}

// ---- while no other function of the user half is active

/// An upcall begins with a set, which is the only one.
fn call_first<'a>(
    alloc: Global,
    watch: Watch<'a>,
    callee: Callee,
    set: CellSet,
    between: Between<'a>,
    behind: Behind,
) -> Result<Pending<'a>, OutOfMemory>
    requires between { IsBetween watch between }
    requires behind { IsBehind watch.program.now (opened set between.world.world) behind }
    requires live { AreLive between.world.world.memory set }
    requires older { IsOlder set between.world.world }
    ensures kept { IfOk result (KeptFor watch.entry) }
    ensures comes { IfOk result (λ p. TellsCall (driver_in watch.entry) p callee.entry (done (opened set between.entry.world.world)) between.entry.ledger behind) }
{
    let Between { world, ledger } = between;
    let guarded = Guarded::new(alloc, world, set);
    let within = Within {
        guarded,
        ledger,
        behind,
    };
    call_opened(alloc, watch, callee, within)
}

/// An upcall begins, while no other function of the user half is active: its set is taken, from its arguments and the
/// globals.
#[tactic(auto, unfolding(mdr_split::specs::Kernel::calls))]
pub(crate) fn calls<'a>(
    alloc: Global,
    watch: Watch<'a>,
    callee: Callee,
    between: Between<'a>,
    behind: Behind,
) -> Result<Pending<'a>, OutOfMemory>
    requires between { IsBetween watch between }
    requires behind { IsBehind watch.program.now (opened [] between.world.world) behind }
    ensures kept { IfOk result (KeptFor watch.entry) }
    ensures comes { IfOk result (λ p. BeginsCall (driver_in watch.entry) p callee.entry between.entry.world.world between.entry.ledger behind) }
{
    let func = callee.func;
    match first_set(alloc, Upcall { watch, func }, callee.args, &between.world) {
        Ok(Ok(set)) => call_first(alloc, watch, callee, set, between, behind),
        Ok(Err(_)) => {
            drop(behind);
            let Between { world, ledger } = between;
            drop(ledger);
            Ok(Pending::Over(no_set(func), world))
        }
        Err(error) => {
            drop(behind);
            drop(between);
            Err(error)
        }
    }
}

// ---- while others are active

/// An upcall begins with a set, over those that are open.
fn call_over<'a>(
    alloc: Global,
    watch: Watch<'a>,
    callee: Callee,
    set: CellSet,
    within: Within<'a>,
) -> Result<Pending<'a>, OutOfMemory>
    requires within { IsWithin watch within }
    requires behind { IsBehind watch.program.now (opened set within.guarded.world) within.behind }
    requires live { AreLive within.guarded.world.memory set }
    requires older { IsOlder set within.guarded.world }
    ensures kept { IfOk result (KeptFor watch.entry) }
    ensures comes { IfOk result (λ p. TellsCall (driver_in watch.entry) p callee.entry (done (opened set within.entry.guarded.world)) within.entry.ledger within.entry.behind) }
{
    let Within {
        guarded,
        ledger,
        behind,
    } = within;
    match guarded.over(set) {
        Ok(guarded) => {
            let inner = Within {
                guarded,
                ledger,
                behind,
            };
            call_opened(alloc, watch, callee, inner)
        }
        Err(error) => {
            drop(ledger);
            drop(behind);
            Err(error)
        }
    }
}

/// An upcall begins in another one: its set is taken in the same way.
#[tactic(auto, unfolding(mdr_split::specs::Kernel::calls))]
pub(crate) fn calls_over<'a>(
    alloc: Global,
    watch: Watch<'a>,
    callee: Callee,
    within: Within<'a>,
) -> Result<Pending<'a>, OutOfMemory>
    requires within { IsWithin watch within }
    requires behind { IsBehind watch.program.now (opened [] within.guarded.world) within.behind }
    ensures kept { IfOk result (KeptFor watch.entry) }
    ensures comes { IfOk result (λ p. BeginsCall (driver_in watch.entry) p callee.entry within.entry.guarded.world within.entry.ledger within.entry.behind) }
{
    let func = callee.func;
    let upcall = Upcall { watch, func };
    match first_set(alloc, upcall, callee.args, within.guarded.world()) {
        Ok(Ok(set)) => call_over(alloc, watch, callee, set, within),
        Ok(Err(_)) => Ok(over_within(no_set(func), within)),
        Err(error) => {
            drop(within);
            Err(error)
        }
    }
}
