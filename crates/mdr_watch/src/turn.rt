// User code runs from event to event.

ghost use Rattle.std.specs.Prelude.{◌≡◌, ◌≤◌, IfOk, OnOk};
ghost use Rattle.mdr_core.specs.Sound.{IsSound};
ghost use Rattle.mdr_events.specs.declared.event.Event.TheVariants as event;
ghost use Rattle.mdr_events.specs.Going.{LeavesAt};
ghost use Rattle.mdr_events.specs.Ready.{IsReady};
ghost use Rattle.mdr_events.specs.Values.{wires_of};
ghost use Rattle.mdr_exec.specs.Holding.{Takes, held_of};
ghost use Rattle.mdr_whole.specs.Ending.{gave_as};
ghost use Rattle.mdr_watch.specs.Going.{GoesOn, GoesOnWith, RanIn, RanThrough, user_does};
ghost use Rattle.mdr_watch.specs.Watching.{HaveBodies, IsFit};

use crate::asks::ask;
use crate::downcalls::downcall;
use crate::guarded::Guarded;
use crate::next::Next;
use crate::watch::{Activation, Upcall};
use mdr_core::{At, Limit, OutOfMemory, StopKind, Value, spent};
use mdr_events::{Asked, Crossing, Event};
use mdr_exec::{Machine, Side};
use mdr_services::Served;
use mdr_whole::Gave;
use std::alloc::Global;

/// Runs a machine with so many ticks, on the code of the user half: with none up to its first event or the first tick that
/// it needs.
fn go(
    machine: &mut Machine,
    alloc: Global,
    upcall: Upcall,
    guarded: &mut Guarded,
    ticks: u64,
) -> Result<Event, OutOfMemory>
    requires sound { IsSound upcall.watch.program.now }
    requires fit { IsFit upcall.watch }
    requires ready { IsReady (held_of upcall.watch.program.now machine.old) }
    ensures ran { IfOk result (λ e. RanIn upcall.entry machine.old guarded.old ticks e machine.new guarded.new) }
    ensures used { OnOk result (machine.new.used ≤ ticks) }
{
    machine.side = Side::User;
    let halves = upcall.watch.plan.halves.as_slice();
    let event = machine.go(alloc, upcall.watch.program, halves, guarded, ticks)?;
    Ok(event)
}

/// Runs a machine with all ticks that are left, since nothing is tried before them, and counts those that it took.
fn run_through(
    machine: &mut Machine,
    alloc: Global,
    activation: Activation,
    guarded: &mut Guarded,
) -> Result<Event, OutOfMemory>
    requires sound { IsSound activation.upcall.watch.program.now }
    requires fit { IsFit activation.upcall.watch }
    requires same { guarded.old.program ≡ activation.upcall.watch.program.now }
    requires ready { IsReady (held_of activation.upcall.watch.program.now machine.old) }
    ensures { IfOk result (λ e. RanThrough activation.entry machine.old guarded.old machine.new e guarded.new) }
{
    let ticks = guarded.rest();
    let event = go(machine, alloc, activation.upcall, guarded, ticks)?;
    guarded.count(machine.used());
    Ok(event)
}

/// A tick is wanted: user code goes on, if one is left.
fn tick(
    machine: &mut Machine,
    alloc: Global,
    activation: Activation,
    guarded: &mut Guarded,
    at: At,
) -> Result<Next, OutOfMemory>
    requires sound { IsSound activation.upcall.watch.program.now }
    requires fit { IsFit activation.upcall.watch }
    requires same { guarded.old.program ≡ activation.upcall.watch.program.now }
    requires ready { IsReady (held_of activation.upcall.watch.program.now machine.old) }
    ensures { IfOk result (λ n. GoesOn activation.entry machine.old (event.TicksOut at) guarded.old machine.new n guarded.new) }
{
    if guarded.rest() == 0 {
        return Ok(Next::Gave(Gave::Stopped(StopKind::Ticks, Some(at))));
    }
    let event = run_through(machine, alloc, activation, guarded)?;
    Ok(Next::Came(event))
}

/// Goes on with the answers of the question that is open.
fn resume(
    machine: &mut Machine,
    alloc: Global,
    activation: Activation,
    guarded: &mut Guarded,
    results: &[Value],
) -> Result<Next, OutOfMemory>
    requires sound { IsSound activation.upcall.watch.program.now }
    requires fit { IsFit activation.upcall.watch }
    requires same { guarded.old.program ≡ activation.upcall.watch.program.now }
    requires takes { Takes activation.upcall.watch.program.now machine.old results.now }
    ensures { IfOk result (λ n. GoesOnWith activation.entry (wires_of results.now) machine.old guarded.old machine.new n guarded.new) }
{
    machine.resume(results);
    let event = go(machine, alloc, activation.upcall, guarded, 0)?;
    Ok(Next::Came(event))
}

/// A service is asked for.
fn answer(
    machine: &mut Machine,
    alloc: Global,
    activation: Activation,
    guarded: &mut Guarded,
    asked: &Asked,
) -> Result<Next, OutOfMemory>
    requires sound { IsSound activation.upcall.watch.program.now }
    requires fit { IsFit activation.upcall.watch }
    requires same { guarded.old.program ≡ activation.upcall.watch.program.now }
    requires waiting { LeavesAt (event.Service asked.now) (held_of activation.upcall.watch.program.now machine.old) }
    ensures { IfOk result (λ n. GoesOn activation.entry machine.old (event.Service asked.now) guarded.old machine.new n guarded.new) }
{
    let served = ask(alloc, activation.upcall, guarded, asked)?;
    match served {
        Served::Done(results) => resume(machine, alloc, activation, guarded, results.as_slice()),
        Served::Stop(kind) => Ok(Next::Gave(Gave::Stopped(kind, Some(asked.at)))),
    }
}

/// A function of the kernel half is called.
#[cycle(upcalls)]
fn cross(
    machine: &mut Machine,
    alloc: Global,
    activation: Activation,
    guarded: &mut Guarded,
    crossing: &Crossing,
) -> Result<Next, OutOfMemory>
    requires sound { IsSound activation.upcall.watch.program.now }
    requires fit { IsFit activation.upcall.watch }
    requires bodies { HaveBodies activation.upcall.watch.program.now }
    requires same { guarded.old.program ≡ activation.upcall.watch.program.now }
    requires waiting { LeavesAt (event.Cross crossing.now) (held_of activation.upcall.watch.program.now machine.old) }
    ensures { IfOk result (λ n. GoesOn activation.entry machine.old (event.Cross crossing.now) guarded.old machine.new n guarded.new) }
{
    let gave = downcall(alloc, activation, guarded, crossing)?;
    match gave {
        Gave::Value(value) => resume(machine, alloc, activation, guarded, &[value]),
        Gave::Stopped(kind, at) => Ok(Next::Gave(Gave::Stopped(kind, at))),
    }
}

/// What follows an event.
#[cycle(upcalls)]
fn follow(
    machine: &mut Machine,
    alloc: Global,
    activation: Activation,
    guarded: &mut Guarded,
    event: &Event,
) -> Result<Next, OutOfMemory>
    requires sound { IsSound activation.upcall.watch.program.now }
    requires fit { IsFit activation.upcall.watch }
    requires bodies { HaveBodies activation.upcall.watch.program.now }
    requires same { guarded.old.program ≡ activation.upcall.watch.program.now }
    requires left { LeavesAt event.now (held_of activation.upcall.watch.program.now machine.old) }
    ensures { IfOk result (λ n. GoesOn activation.entry machine.old event.now guarded.old machine.new n guarded.new) }
{
    match event {
        Event::Done(value) => Ok(Next::Gave(Gave::Value(guarded.now(*value)))),
        Event::Stop(kind, at) => Ok(Next::Gave(Gave::Stopped(*kind, Some(*at)))),
        Event::Service(asked) => answer(machine, alloc, activation, guarded, asked),
        Event::TicksOut(at) => tick(machine, alloc, activation, guarded, *at),
        Event::Cross(crossing) => cross(machine, alloc, activation, guarded, crossing),
    }
}

/// What follows an event, which is let go of then.
#[cycle(upcalls)]
fn follow_up(
    machine: &mut Machine,
    alloc: Global,
    activation: Activation,
    guarded: &mut Guarded,
    event: Event,
) -> Result<Next, OutOfMemory>
    requires sound { IsSound activation.upcall.watch.program.now }
    requires fit { IsFit activation.upcall.watch }
    requires bodies { HaveBodies activation.upcall.watch.program.now }
    requires same { guarded.old.program ≡ activation.upcall.watch.program.now }
    requires left { LeavesAt event (held_of activation.upcall.watch.program.now machine.old) }
    ensures { IfOk result (λ n. GoesOn activation.entry machine.old event guarded.old machine.new n guarded.new) }
{
    let next = follow(machine, alloc, activation, guarded, &event);
    drop(event);
    next
}

/// Runs a machine until the function that was started in it ends.
#[cycle(upcalls)]
pub(crate) fn run(
    machine: &mut Machine,
    alloc: Global,
    activation: Activation,
    guarded: &mut Guarded,
) -> Result<Gave, OutOfMemory>
    requires sound { IsSound activation.upcall.watch.program.now }
    requires fit { IsFit activation.upcall.watch }
    requires bodies { HaveBodies activation.upcall.watch.program.now }
    requires same { guarded.old.program ≡ activation.upcall.watch.program.now }
    requires ready { IsReady (held_of activation.upcall.watch.program.now machine.old) }
    ensures kept { OnOk result (guarded.new.program ≡ activation.entry.upcall.watch.program.now) }
    ensures gave { IfOk result (λ g. gave_as g guarded.new.world ≡ user_does activation.entry guarded.old.world.clock.rest machine.old guarded.old.world) }
{
    let mut event = go(machine, alloc, activation.upcall, guarded, 0)?;
    let mut turns: u64 = 0;
    while turns < u64::MAX {
        turns += 1;
        let next = follow_up(machine, alloc, activation, guarded, event)?;
        match next {
            Next::Came(other) => event = other,
            Next::Gave(gave) => return Ok(gave),
        }
    }
    drop(event);
    Err(spent(turns, Limit::Turns))
}
