// A function of the user half is called.

ghost use Rattle.std.specs.Prelude.{◌≡◌, [], Some, Ok, true, IfOk, OnOk};
ghost use Rattle.mdr_core.specs.declared.stop.StopKind.TheVariants as stop;
ghost use Rattle.mdr_core.specs.Sound.{IsSound};
ghost use Rattle.mdr_events.specs.Values.{wires_of};
ghost use Rattle.mdr_reach.specs.Answers.{answered};
ghost use Rattle.mdr_viewed.specs.Viewed.{IsOlder};
ghost use Rattle.mdr_watched.specs.Driver.{is_user};
ghost use Rattle.mdr_watched.specs.Order.{AreLive};
ghost use Rattle.mdr_watched.specs.Watched.{closing};
ghost use Rattle.mdr_whole.specs.declared.ending.Gave.TheVariants as gave;
ghost use Rattle.mdr_whole.specs.Ending.{gave_as};
ghost use Rattle.mdr_watch.specs.Going.{IsStarted};
ghost use Rattle.mdr_watch.specs.Leaving.{GaveFor, IsOnly};
ghost use Rattle.mdr_watch.specs.Nesting.{IsElsewhere, entered_in, passes_on, runs_in, upcalls_in};
ghost use Rattle.mdr_watch.specs.Watching.{HaveBodies, IsFit, begins_with};

use crate::downcalls::downcall;
use crate::guarded::Guarded;
use crate::next::Closed;
use crate::roots::entry_roots;
use crate::turn::run;
use crate::watch::{Activation, Upcall, is_user, touched};
use mdr_cells::CellSet;
use mdr_core::{At, Items, Limit, OutOfMemory, StopKind, Value, below};
use mdr_events::Crossing;
use mdr_exec::{Machine, Side};
use mdr_reach::{Failing, visible};
use mdr_whole::Gave;
use mdr_world::World;
use std::alloc::Global;

// ---- an upcall that is open

/// A machine in which its function was started.
fn started(alloc: Global, activation: Activation, args: &[Value]) -> Result<Machine, OutOfMemory>
    requires fit { IsFit activation.upcall.watch }
    requires bodies { HaveBodies activation.upcall.watch.program.now }
    requires user { is_user activation.upcall.watch.plan.now activation.upcall.func ≡ true }
    ensures { IfOk result (λ m. IsStarted activation.entry (wires_of args.now) m) }
{
    below(activation.depth as u64, Limit::Active)?;
    let Upcall { watch, func } = activation.upcall;
    let mut machine = Machine::new(alloc, Side::User);
    machine.start(alloc, watch.program, func, args, activation.depth)?;
    Ok(machine)
}

/// The call of its function as one of the other half, at no statement of it.
fn elsewhere(alloc: Global, activation: Activation, args: &[Value]) -> Result<Crossing, OutOfMemory>
    ensures { IfOk result (IsElsewhere activation.entry (wires_of args.now)) }
{
    let func = activation.upcall.func;
    let args = Items::from_slice(alloc, args)?;
    Ok(Crossing {
        at: At { func, stmt: 0 },
        func,
        args,
        depth: activation.depth,
    })
}

/// What the other half gave is passed on, as it is now.
fn passed_on(guarded: &Guarded, gave: Gave) -> Gave
    ensures { gave_as result guarded.now.world ≡ passes_on (gave_as gave guarded.now.world) }
{
    match gave {
        Gave::Value(value) => Gave::Value(guarded.now(value)),
        Gave::Stopped(kind, at) => Gave::Stopped(kind, at),
    }
}

/// Its function runs to its end. One that isn't of the user half is called in the other, and what it gives is passed on.
#[cycle(upcalls)]
pub(crate) fn enter(
    alloc: Global,
    activation: Activation,
    guarded: &mut Guarded,
    args: &[Value],
) -> Result<Gave, OutOfMemory>
    requires sound { IsSound activation.upcall.watch.program.now }
    requires fit { IsFit activation.upcall.watch }
    requires bodies { HaveBodies activation.upcall.watch.program.now }
    requires same { guarded.old.program ≡ activation.upcall.watch.program.now }
    ensures kept { OnOk result (guarded.new.program ≡ activation.entry.upcall.watch.program.now) }
    ensures gave { IfOk result (λ g. gave_as g guarded.new.world ≡ runs_in activation.entry (wires_of args.now) guarded.old.world) }
{
    if is_user(activation.upcall.watch.plan, activation.upcall.func) {
        let mut machine = started(alloc, activation, args)?;
        let gave = run(&mut machine, alloc, activation, guarded);
        drop(machine);
        return gave;
    }
    let crossing = elsewhere(alloc, activation, args)?;
    let gave = downcall(alloc, activation, guarded, &crossing)?;
    Ok(passed_on(guarded, gave))
}

// ---- sets

/// The set with which an upcall begins, from its arguments and the globals, or the pointer that fails.
pub fn first_set(
    alloc: Global,
    upcall: Upcall,
    args: &[Value],
    world: &World,
) -> Result<Result<CellSet, Failing>, OutOfMemory>
    ensures exact { IfOk result (λ r. answered r ≡ begins_with upcall.entry (wires_of args.now) world.now.world) }
    ensures live { IfOk result (λ r. IfOk r (λ set. AreLive world.now.world.memory set)) }
    ensures older { IfOk result (λ r. IfOk r (λ set. IsOlder set world.now.world)) }
{
    let _in_order = world.births();
    let program = upcall.watch.program;
    let keys = touched(upcall.watch.plan, upcall.func);
    let roots = entry_roots(alloc, program, upcall.func, args)?;
    let none = CellSet::new(alloc);
    let memory = world.blocks();
    let taken = visible(alloc, program, keys, memory, &none, roots.as_slice(), args)?;
    Ok(taken)
}

/// A pointer fails: the function as a whole stops.
pub(crate) fn no_set(func: u32) -> Gave
    ensures { result ≡ gave.Stopped stop.Annotation (Some (record { func = func; stmt = 0 })) }
{
    Gave::Stopped(StopKind::Annotation, Some(At { func, stmt: 0 }))
}

// ---- while no other function of the user half is active

/// What is left of an upcall that is the only one, where its function ended or stopped.
fn closed<'a>(gave: Gave, guarded: Guarded<'a>) -> Closed<'a>
    requires only { IsOnly gave guarded.world }
    ensures kept { result.world.program ≡ guarded.entry.program }
    ensures alone { result.world.world.views ≡ [] }
    ensures gave { GaveFor result.gave result.world.world (closing (gave_as gave guarded.entry.world)) }
{
    let _open = guarded.below();
    match gave {
        Gave::Value(value) => {
            let world = guarded.alone();
            let gave = Gave::Value(value);
            Closed { gave, world }
        }
        Gave::Stopped(kind, at) => {
            let world = guarded.leave();
            let gave = Gave::Stopped(kind, at);
            Closed { gave, world }
        }
    }
}

/// It runs, with the set that it begins with.
fn enter_first<'a>(
    alloc: Global,
    activation: Activation,
    args: &[Value],
    set: CellSet,
    world: World<'a>,
) -> Result<Closed<'a>, OutOfMemory>
    requires sound { IsSound activation.upcall.watch.program.now }
    requires fit { IsFit activation.upcall.watch }
    requires bodies { HaveBodies activation.upcall.watch.program.now }
    requires same { world.program ≡ activation.upcall.watch.program.now }
    requires alone { world.world.views ≡ [] }
    requires live { AreLive world.world.memory set }
    requires older { IsOlder set world.world }
    requires begins { Ok set ≡ begins_with activation.upcall (wires_of args.now) world.world }
    ensures kept { IfOk result (λ r. r.world.program ≡ activation.entry.upcall.watch.program.now) }
    ensures alone { IfOk result (λ r. r.world.world.views ≡ []) }
    ensures gave { IfOk result (λ r. GaveFor r.gave r.world.world (entered_in activation.entry (wires_of args.now) set world.entry.world)) }
{
    let mut guarded = Guarded::new(alloc, world, set);
    match enter(alloc, activation, &mut guarded, args) {
        Ok(gave) => Ok(closed(gave, guarded)),
        Err(error) => {
            drop(guarded);
            Err(error)
        }
    }
}

/// It is called, while no other one of the user half is active: its set is taken, from its arguments and the globals.
pub(crate) fn call_user<'a>(
    alloc: Global,
    activation: Activation,
    args: &[Value],
    world: World<'a>,
) -> Result<Closed<'a>, OutOfMemory>
    requires sound { IsSound activation.upcall.watch.program.now }
    requires fit { IsFit activation.upcall.watch }
    requires bodies { HaveBodies activation.upcall.watch.program.now }
    requires same { world.program ≡ activation.upcall.watch.program.now }
    requires alone { world.world.views ≡ [] }
    ensures kept { IfOk result (λ r. r.world.program ≡ activation.entry.upcall.watch.program.now) }
    ensures alone { IfOk result (λ r. r.world.world.views ≡ []) }
    ensures gave { IfOk result (λ r. GaveFor r.gave r.world.world (upcalls_in activation.entry (wires_of args.now) world.entry.world)) }
{
    match first_set(alloc, activation.upcall, args, &world) {
        Ok(Ok(set)) => enter_first(alloc, activation, args, set, world),
        Ok(Err(_)) => Ok(Closed {
            gave: no_set(activation.upcall.func),
            world,
        }),
        Err(error) => {
            drop(world);
            Err(error)
        }
    }
}
