// A machine runs from event to event.

ghost use Rattle.std.specs.Prelude.{◌≡◌, ◌≤◌, IfOk, OnOk};
ghost use Rattle.mdr_core.specs.Sound.{IsSound};
ghost use Rattle.mdr_events.specs.declared.event.Event.TheVariants as event;
ghost use Rattle.mdr_events.specs.Going.{LeavesAt};
ghost use Rattle.mdr_events.specs.Ready.{IsReady};
ghost use Rattle.mdr_events.specs.Values.{wires_of};
ghost use Rattle.mdr_exec.specs.Holding.{Takes, held_of};
ghost use Rattle.mdr_whole.specs.Going.{Follows, GoesOnAnyhow, GoesOnIn, GoesOnWith, RanIn, RanThrough, ReachedIn, WaitsAt, side_of};

use crate::before::Before;
use crate::code::Code;
use crate::ending::{Gave, Worked};
use crate::next::Next;
use mdr_core::{At, Items, Limit, OutOfMemory, StopKind, Value, spent};
use mdr_events::{Asked, Crossing, Event};
use mdr_exec::Machine;
use mdr_services::{Served, serve};
use mdr_world::World;
use std::alloc::Global;

/// Runs a machine with so many ticks, on the code that runs: with none up to its first event or the first tick that it
/// needs.
#[tactic(auto, unfolding(mdr_exec::specs::Holding::held_of))]
fn go(
    machine: &mut Machine,
    alloc: Global,
    code: Code,
    world: &mut World,
    ticks: u64,
) -> Result<Event, OutOfMemory>
    requires sound { IsSound code.program.now }
    requires ready { IsReady (held_of code.program.now machine.old) }
    ensures ran { IfOk result (λ e. RanIn code.entry machine.old world.old ticks e machine.new world.new) }
    ensures used { OnOk result (machine.new.used ≤ ticks) }
{
    machine.side = code.side;
    let event = machine.go(alloc, code.program, code.halves, world, ticks)?;
    Ok(event)
}

/// Counts the tick that is wanted, if one is left, and goes on.
fn pass(
    machine: &mut Machine,
    alloc: Global,
    code: Code,
    world: &mut World,
    at: At,
) -> Result<Next, OutOfMemory>
    requires sound { IsSound code.program.now }
    requires same { world.old.program ≡ code.program.now }
    requires ready { IsReady (held_of code.program.now machine.old) }
    ensures { IfOk result (λ n. Follows code.entry.program.now (side_of code.entry) at machine.old world.old machine.new n world.new) }
{
    if world.tick() {
        let event = go(machine, alloc, code, world, 1)?;
        return Ok(Next::Came(event));
    }
    Ok(Next::Gave(Gave::Stopped(StopKind::Ticks, Some(at))))
}

/// Runs a machine with so many ticks, where nothing is done before them, and counts those that it took.
fn run_through(
    machine: &mut Machine,
    alloc: Global,
    code: Code,
    world: &mut World,
    ticks: u64,
) -> Result<Event, OutOfMemory>
    requires sound { IsSound code.program.now }
    requires same { world.old.program ≡ code.program.now }
    requires ready { IsReady (held_of code.program.now machine.old) }
    requires few { ticks ≤ world.old.world.clock.rest }
    ensures { IfOk result (λ e. RanThrough code.entry.program.now (side_of code.entry) machine.old world.old ticks machine.new e world.new) }
{
    let event = go(machine, alloc, code, world, ticks)?;
    world.count(machine.used());
    Ok(event)
}

/// A tick is wanted. The machine runs with it, and with all behind it before which no interrupt is due, or what stands
/// before it is tried first.
fn tick<B: Before>(
    machine: &mut Machine,
    alloc: Global,
    code: Code,
    world: &mut World,
    at: At,
) -> Result<Next, OutOfMemory>
    requires sound { IsSound code.program.now }
    requires same { world.old.program ≡ code.program.now }
    requires ready { IsReady (held_of code.program.now machine.old) }
    ensures { IfOk result (λ n. GoesOnIn B.tries code.entry machine.old (event.TicksOut at) world.old machine.new n world.new) }
{
    let calm = world.calm_ticks(world.rest());
    if calm > 0 {
        let event = run_through(machine, alloc, code, world, calm)?;
        return Ok(Next::Came(event));
    }
    let depth = machine.active();
    let tried = B::attempt(alloc, code, world, depth)?;
    match tried {
        Worked::Done => pass(machine, alloc, code, world, at),
        Worked::Stopped(kind, place) => Ok(Next::Gave(Gave::Stopped(kind, place))),
    }
}

/// Goes on with the answers of the question that is open.
fn resume(
    machine: &mut Machine,
    alloc: Global,
    code: Code,
    world: &mut World,
    results: &[Value],
) -> Result<Event, OutOfMemory>
    requires sound { IsSound code.program.now }
    requires same { world.old.program ≡ code.program.now }
    requires takes { Takes code.program.now machine.old results.now }
    ensures { IfOk result (λ e. GoesOnWith code.entry.program.now (side_of code.entry) (wires_of results.now) machine.old world.old machine.new e world.new) }
{
    machine.resume(results);
    let event = go(machine, alloc, code, world, 0)?;
    Ok(event)
}

/// A service is asked for.
fn answer(
    machine: &mut Machine,
    alloc: Global,
    code: Code,
    world: &mut World,
    asked: &Asked,
) -> Result<Next, OutOfMemory>
    requires sound { IsSound code.program.now }
    requires same { world.old.program ≡ code.program.now }
    requires waiting { LeavesAt (event.Service asked.now) (held_of code.program.now machine.old) }
    ensures { IfOk result (λ n. GoesOnAnyhow code.entry machine.old (event.Service asked.now) world.old machine.new n world.new) }
{
    let served = serve(alloc, world, asked)?;
    match served {
        Served::Done(results) => {
            let event = resume(machine, alloc, code, world, results.as_slice())?;
            Ok(Next::Came(event))
        }
        Served::Stop(kind) => Ok(Next::Gave(Gave::Stopped(kind, Some(asked.at)))),
    }
}

/// What follows an event. Where a function of the other half is called the machine waits.
fn follow<B: Before>(
    machine: &mut Machine,
    alloc: Global,
    code: Code,
    world: &mut World,
    event: Event,
) -> Result<Next, OutOfMemory>
    requires sound { IsSound code.program.now }
    requires same { world.old.program ≡ code.program.now }
    requires left { LeavesAt event (held_of code.program.now machine.old) }
    ensures { IfOk result (λ n. GoesOnIn B.tries code.entry machine.old event world.old machine.new n world.new) }
{
    match event {
        Event::Done(value) => Ok(Next::Gave(Gave::Value(world.now(value)))),
        Event::Stop(kind, at) => Ok(Next::Gave(Gave::Stopped(kind, Some(at)))),
        Event::Service(asked) => {
            let next = answer(machine, alloc, code, world, &asked);
            drop(asked);
            next
        }
        Event::TicksOut(at) => tick::<B>(machine, alloc, code, world, at),
        Event::Cross(crossing) => Ok(Next::Calls(crossing)),
    }
}

/// How far a machine runs.
#[derive(Drop)]
pub(crate) enum Reached {
    Gave(Gave),
    /// Up to a call of a function of the other half, for whose value it waits.
    Calls(Crossing),
}

/// Runs a machine until the function that was started in it ends, or calls a function of the other half.
pub(crate) fn run<B: Before>(
    machine: &mut Machine,
    alloc: Global,
    code: Code,
    world: &mut World,
) -> Result<Reached, OutOfMemory>
    requires sound { IsSound code.program.now }
    requires same { world.old.program ≡ code.program.now }
    requires ready { IsReady (held_of code.program.now machine.old) }
    ensures kept { OnOk result (world.new.program ≡ code.entry.program.now) }
    ensures spent { OnOk result (world.new.world.clock.rest ≤ world.old.world.clock.rest) }
    ensures reached { IfOk result (λ r. ReachedIn B.tries code.entry machine.old world.old.world r machine.new world.new.world) }
    ensures waits { IfOk result (λ r. WaitsAt code.entry.program.now r machine.new) }
{
    let mut event = go(machine, alloc, code, world, 0)?;
    let mut turns: u64 = 0;
    while turns < u64::MAX {
        turns += 1;
        let next = follow::<B>(machine, alloc, code, world, event)?;
        match next {
            Next::Came(other) => event = other,
            Next::Gave(gave) => return Ok(Reached::Gave(gave)),
            Next::Calls(crossing) => return Ok(Reached::Calls(crossing)),
        }
    }
    drop(event);
    Err(spent(turns, Limit::Turns))
}
