// Code of the kernel half that user code called calls back.

ghost use Rattle.std.specs.Prelude.{◌≡◌, Ok, IfOk, OnOk};
ghost use Rattle.mdr_core.specs.Sound.{IsSound};
ghost use Rattle.mdr_events.specs.Values.{wires_of};
ghost use Rattle.mdr_viewed.specs.Viewed.{IsOlder};
ghost use Rattle.mdr_watched.specs.Order.{AreLive};
ghost use Rattle.mdr_watched.specs.Watched.{closing};
ghost use Rattle.mdr_whole.specs.Ending.{gave_as};
ghost use Rattle.mdr_watch.specs.Leaving.{IsWithin};
ghost use Rattle.mdr_watch.specs.Nesting.{IsSent, calls_back_in, entered_in, upcalls_in};
ghost use Rattle.mdr_watch.specs.Watching.{HaveBodies, IsFit, begins_with};

use crate::downcalls::sent;
use crate::guarded::Guarded;
use crate::upcall::{enter, first_set, no_set};
use crate::watch::{Activation, Upcall};
use mdr_cells::CellSet;
use mdr_core::{OutOfMemory, StopKind, Value};
use mdr_events::Crossing;
use mdr_whole::Gave;
use std::alloc::Global;

/// A call with its arguments as they are now.
pub(crate) fn sent_now(
    alloc: Global,
    guarded: &Guarded,
    crossing: &Crossing,
) -> Result<Crossing, OutOfMemory>
    ensures { IfOk result (IsSent crossing.now guarded.now.world) }
{
    let args = sent(alloc, guarded.world(), crossing.args.as_slice())?;
    Ok(Crossing {
        at: crossing.at,
        func: crossing.func,
        args,
        depth: crossing.depth,
    })
}

/// The innermost upcall is over, where its function ended. Where it stopped so did the run, and its set stays.
fn closed_within(alloc: Global, guarded: &mut Guarded, gave: Gave) -> Gave
    requires within { IsWithin gave guarded.old.world }
    ensures kept { guarded.new.program ≡ guarded.old.program }
    ensures gave { gave_as result guarded.new.world ≡ closing (gave_as gave guarded.old.world) }
{
    match gave {
        Gave::Value(value) => {
            guarded.pop(alloc);
            Gave::Value(value)
        }
        Gave::Stopped(kind, at) => Gave::Stopped(kind, at),
    }
}

/// An upcall runs within others, with the set that it begins with.
#[cycle(upcalls)]
fn enter_within(
    alloc: Global,
    activation: Activation,
    guarded: &mut Guarded,
    args: &[Value],
    set: CellSet,
) -> Result<Gave, OutOfMemory>
    requires sound { IsSound activation.upcall.watch.program.now }
    requires fit { IsFit activation.upcall.watch }
    requires bodies { HaveBodies activation.upcall.watch.program.now }
    requires same { guarded.old.program ≡ activation.upcall.watch.program.now }
    requires live { AreLive guarded.old.world.memory set }
    requires older { IsOlder set guarded.old.world }
    requires begins { Ok set ≡ begins_with activation.upcall (wires_of args.now) guarded.old.world }
    ensures kept { OnOk result (guarded.new.program ≡ activation.entry.upcall.watch.program.now) }
    ensures gave { IfOk result (λ g. gave_as g guarded.new.world ≡ entered_in activation.entry (wires_of args.now) set guarded.old.world) }
{
    let _around = guarded.below();
    guarded.push(alloc, set)?;
    let gave = enter(alloc, activation, guarded, args)?;
    Ok(closed_within(alloc, guarded, gave))
}

/// A function of the user half is called, while others are active: its set is taken, from its arguments and the globals.
#[cycle(upcalls)]
fn call_within(
    alloc: Global,
    activation: Activation,
    guarded: &mut Guarded,
    args: &[Value],
) -> Result<Gave, OutOfMemory>
    requires sound { IsSound activation.upcall.watch.program.now }
    requires fit { IsFit activation.upcall.watch }
    requires bodies { HaveBodies activation.upcall.watch.program.now }
    requires same { guarded.old.program ≡ activation.upcall.watch.program.now }
    ensures kept { OnOk result (guarded.new.program ≡ activation.entry.upcall.watch.program.now) }
    ensures gave { IfOk result (λ g. gave_as g guarded.new.world ≡ upcalls_in activation.entry (wires_of args.now) guarded.old.world) }
{
    match first_set(alloc, activation.upcall, args, guarded.world()) {
        Ok(Ok(set)) => enter_within(alloc, activation, guarded, args, set),
        Ok(Err(_)) => Ok(no_set(activation.upcall.func)),
        Err(error) => Err(error),
    }
}

/// Code of the kernel half calls back, below a function of the user half that runs: an upcall, where there is room for one
/// more and it may wait.
#[cycle(upcalls)]
pub(crate) fn call_back(
    alloc: Global,
    activation: Activation,
    guarded: &mut Guarded,
    crossing: &Crossing,
) -> Result<Gave, OutOfMemory>
    requires sound { IsSound activation.upcall.watch.program.now }
    requires fit { IsFit activation.upcall.watch }
    requires bodies { HaveBodies activation.upcall.watch.program.now }
    requires same { guarded.old.program ≡ activation.upcall.watch.program.now }
    ensures kept { OnOk result (guarded.new.program ≡ activation.entry.upcall.watch.program.now) }
    ensures gave { IfOk result (λ g. gave_as g guarded.new.world ≡ calls_back_in activation.entry crossing.now guarded.old.world) }
{
    if activation.room == 0 {
        return Ok(Gave::Stopped(StopKind::Depth, Some(crossing.at)));
    }
    if guarded.atomic() {
        return Ok(Gave::Stopped(StopKind::Atomic, Some(crossing.at)));
    }
    let sent = sent_now(alloc, guarded, crossing)?;
    let watch = activation.upcall.watch;
    let func = crossing.func;
    let inner = Activation {
        upcall: Upcall { watch, func },
        depth: crossing.depth,
        room: activation.room - 1,
    };
    let gave = call_within(alloc, inner, guarded, sent.args.as_slice())?;
    Ok(gave)
}
