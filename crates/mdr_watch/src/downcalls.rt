// Calls of user code that cross to the kernel half.

ghost use Rattle.std.specs.Prelude.{◌≡◌, ◌≤◌, IfOk, OnOk, map};
ghost use Rattle.mdr_core.specs.Sound.{IsSound};
ghost use Rattle.mdr_events.specs.Values.{wires_of};
ghost use Rattle.mdr_meaning.specs.Values.{wire_of};
ghost use Rattle.mdr_model.specs.Memory.{normal};
ghost use Rattle.mdr_watch.specs.Guarding.{IsGuarded, StaysOpen, sets_of};
ghost use Rattle.mdr_viewed.specs.Viewed.{viewed};
ghost use Rattle.mdr_whole.specs.declared.paused.Went.TheVariants as went;
ghost use Rattle.mdr_whole.specs.Ending.{gave_as};
ghost use Rattle.mdr_whole.specs.Pausing.{IsPaused, IsWaiting};
ghost use Rattle.mdr_watch.specs.Nesting.{called_in, ends_below};
ghost use Rattle.mdr_watch.specs.Watching.{HaveBodies, IsFit, WentBelow, came_below, comes_back, downcalls_in, enters_below, returns_in};

use crate::backs::{call_back, sent_now};
use crate::guarded::{Guarded, forget};
use crate::roots::result_root;
use crate::sets::Sets;
use crate::watch::{Activation, Upcall, Watch, kernel_code, touched};
use mdr_core::{Items, Limit, OutOfMemory, StopKind, Value, spent};
use mdr_events::Crossing;
use mdr_reach::visible;
use mdr_whole::{Gave, Nothing, Paused, Went, enter, go_on};
use mdr_world::World;
use std::alloc::Global;

/// Values as they are now: a pointer whose block has died is a dead one.
pub fn sent(alloc: Global, world: &World, args: &[Value]) -> Result<Items<Value>, OutOfMemory>
    ensures { IfOk result (λ vs. wires_of vs ≡ map (normal world.now.world.memory) (wires_of args.now)) }
{
    let mut values = Items::new(alloc);
    for arg in args {
        values.push(world.now(*arg))?;
    }
    Ok(values)
}

/// The innermost set is taken anew, from the old one and what a function of the kernel half gave. A failing pointer stops
/// user code.
fn take_anew(
    alloc: Global,
    upcall: Upcall,
    world: &World,
    sets: &mut Sets,
    crossing: &Crossing,
    sent: &[Value],
    value: Value,
) -> Result<Gave, OutOfMemory>
    requires sound { IsSound upcall.watch.program.now }
    requires guarded { IsGuarded (sets_of sets.old) world.now.world }
    ensures guarded { OnOk result (IsGuarded (sets_of sets.new) world.now.world) }
    ensures outer { OnOk result (sets.new.outer ≡ sets.old.outer) }
    ensures gave { IfOk result (λ g. gave_as g (viewed (sets_of sets.new) world.now.world) ≡ returns_in upcall.entry sets.old crossing.now (wires_of sent.now) (wire_of value) world.now.world) }
{
    let program = upcall.watch.program;
    let keys = touched(upcall.watch.plan, upcall.func);
    let roots = result_root(program, crossing.func, value);
    let known = &sets.inner;
    let taken = visible(alloc, program, keys, world.blocks(), known, &roots, sent)?;
    match taken {
        Ok(found) => {
            sets.inner = found;
            Ok(Gave::Value(value))
        }
        Err(_) => Ok(Gave::Stopped(StopKind::Annotation, Some(crossing.at))),
    }
}

// ---- up to a call back

/// A function of the kernel half is called in a world beside sets.
fn enter_beside(
    alloc: Global,
    watch: Watch,
    world: &mut World,
    sets: &Sets,
    crossing: &Crossing,
) -> Result<Went, OutOfMemory>
    requires sound { IsSound watch.program.now }
    requires fit { IsFit watch }
    requires same { world.old.program ≡ watch.program.now }
    requires guarded { IsGuarded (sets_of sets.now) world.old.world }
    ensures kept { OnOk result (world.new.program ≡ watch.entry.program.now) }
    ensures guarded { OnOk result (IsGuarded (sets_of sets.now) world.new.world) }
    ensures spent { OnOk result (world.new.world.clock.rest ≤ world.old.world.clock.rest) }
    ensures waiting { IfOk result (IsWaiting watch.entry.program.now) }
    ensures went { IfOk result (λ g. came_below watch.entry g (viewed (sets_of sets.now) world.new.world) ≡ enters_below watch.entry crossing.now (viewed (sets_of sets.now) world.old.world)) }
{
    let _in_order = world.births();
    let code = kernel_code(watch);
    let args = crossing.args.as_slice();
    let went = enter::<Nothing>(alloc, code, world, crossing.func, args, crossing.depth)?;
    Ok(went)
}

/// A function of the kernel half is called with these arguments, and runs to its end or up to where it calls back.
pub fn enter_below(
    alloc: Global,
    watch: Watch,
    guarded: &mut Guarded,
    crossing: &Crossing,
) -> Result<Went, OutOfMemory>
    requires sound { IsSound watch.program.now }
    requires fit { IsFit watch }
    requires same { guarded.old.program ≡ watch.program.now }
    ensures kept { OnOk result (guarded.new.program ≡ watch.entry.program.now) }
    ensures stays { OnOk result (StaysOpen guarded.old.world guarded.new.world) }
    ensures waiting { IfOk result (IsWaiting watch.entry.program.now) }
    ensures went { IfOk result (λ g. came_below watch.entry g guarded.new.world ≡ enters_below watch.entry crossing.now guarded.old.world) }
{
    match enter_beside(alloc, watch, &mut guarded.world, &guarded.sets, crossing) {
        Ok(went) => Ok(went),
        Err(error) => {
            forget(alloc, &mut guarded.world, &mut guarded.sets);
            Err(error)
        }
    }
}

/// Code of the kernel half that waits goes on in a world beside sets.
fn go_on_beside(
    alloc: Global,
    watch: Watch,
    world: &mut World,
    sets: &Sets,
    paused: Paused,
    value: Value,
) -> Result<Went, OutOfMemory>
    requires sound { IsSound watch.program.now }
    requires fit { IsFit watch }
    requires same { world.old.program ≡ watch.program.now }
    requires guarded { IsGuarded (sets_of sets.now) world.old.world }
    requires waits { IsPaused watch.program.now paused }
    ensures kept { OnOk result (world.new.program ≡ watch.entry.program.now) }
    ensures guarded { OnOk result (IsGuarded (sets_of sets.now) world.new.world) }
    ensures spent { OnOk result (world.new.world.clock.rest ≤ world.old.world.clock.rest) }
    ensures waiting { IfOk result (IsWaiting watch.entry.program.now) }
    ensures went { IfOk result (λ g. WentBelow watch.entry paused (wire_of value) (viewed (sets_of sets.now) world.old.world) g (viewed (sets_of sets.now) world.new.world)) }
{
    let _in_order = world.births();
    let code = kernel_code(watch);
    let went = go_on::<Nothing>(alloc, code, world, paused, value)?;
    Ok(went)
}

/// Code of the kernel half that called back goes on with a result.
pub fn go_on_below(
    alloc: Global,
    watch: Watch,
    guarded: &mut Guarded,
    paused: Paused,
    value: Value,
) -> Result<Went, OutOfMemory>
    requires sound { IsSound watch.program.now }
    requires fit { IsFit watch }
    requires same { guarded.old.program ≡ watch.program.now }
    requires waits { IsPaused watch.program.now paused }
    ensures kept { OnOk result (guarded.new.program ≡ watch.entry.program.now) }
    ensures stays { OnOk result (StaysOpen guarded.old.world guarded.new.world) }
    ensures waiting { IfOk result (IsWaiting watch.entry.program.now) }
    ensures went { IfOk result (λ g. WentBelow watch.entry paused (wire_of value) guarded.old.world g guarded.new.world) }
{
    match go_on_beside(
        alloc,
        watch,
        &mut guarded.world,
        &guarded.sets,
        paused,
        value,
    ) {
        Ok(went) => Ok(went),
        Err(error) => {
            forget(alloc, &mut guarded.world, &mut guarded.sets);
            Err(error)
        }
    }
}

/// Code of the kernel half gave a result to user code, which called it with these arguments: the innermost set is taken
/// anew.
pub fn come_back(
    alloc: Global,
    upcall: Upcall,
    guarded: &mut Guarded,
    crossing: &Crossing,
    value: Value,
) -> Result<Gave, OutOfMemory>
    requires sound { IsSound upcall.watch.program.now }
    requires same { guarded.old.program ≡ upcall.watch.program.now }
    ensures kept { OnOk result (guarded.new.program ≡ upcall.entry.watch.program.now) }
    ensures stays { OnOk result (StaysOpen guarded.old.world guarded.new.world) }
    ensures gave { IfOk result (λ g. gave_as g guarded.new.world ≡ comes_back upcall.entry crossing.now (wire_of value) guarded.old.world) }
{
    let _in_order = guarded.world.births();
    let args = crossing.args.as_slice();
    let world = &guarded.world;
    match take_anew(
        alloc,
        upcall,
        world,
        &mut guarded.sets,
        crossing,
        args,
        value,
    ) {
        Ok(gave) => Ok(gave),
        Err(error) => {
            forget(alloc, &mut guarded.world, &mut guarded.sets);
            Err(error)
        }
    }
}

// ---- to the end

/// Code of the kernel half that waits calls back, and goes on with what that gives, if it gives a value.
#[cycle(upcalls)]
fn back_below(
    alloc: Global,
    activation: Activation,
    guarded: &mut Guarded,
    crossing: Crossing,
    paused: Paused,
) -> Result<Went, OutOfMemory>
    requires sound { IsSound activation.upcall.watch.program.now }
    requires fit { IsFit activation.upcall.watch }
    requires bodies { HaveBodies activation.upcall.watch.program.now }
    requires same { guarded.old.program ≡ activation.upcall.watch.program.now }
    requires waits { IsPaused activation.upcall.watch.program.now paused }
    ensures kept { OnOk result (guarded.new.program ≡ activation.entry.upcall.watch.program.now) }
    ensures waiting { IfOk result (IsWaiting activation.entry.upcall.watch.program.now) }
    ensures went { IfOk result (λ g. ends_below activation.entry g guarded.new.world ≡ ends_below activation.entry (went.Calls crossing paused) guarded.old.world) }
{
    match call_back(alloc, activation, guarded, &crossing) {
        Ok(Gave::Value(value)) => {
            drop(crossing);
            go_on_below(alloc, activation.upcall.watch, guarded, paused, value)
        }
        Ok(Gave::Stopped(kind, at)) => {
            drop(crossing);
            drop(paused);
            Ok(Went::Gave(Gave::Stopped(kind, at)))
        }
        Err(error) => {
            drop(crossing);
            drop(paused);
            Err(error)
        }
    }
}

/// A function of the kernel half is called with these arguments, and runs to its end.
#[cycle(upcalls)]
fn call_below(
    alloc: Global,
    activation: Activation,
    guarded: &mut Guarded,
    crossing: &Crossing,
) -> Result<Gave, OutOfMemory>
    requires sound { IsSound activation.upcall.watch.program.now }
    requires fit { IsFit activation.upcall.watch }
    requires bodies { HaveBodies activation.upcall.watch.program.now }
    requires same { guarded.old.program ≡ activation.upcall.watch.program.now }
    ensures kept { OnOk result (guarded.new.program ≡ activation.entry.upcall.watch.program.now) }
    ensures gave { IfOk result (λ g. gave_as g guarded.new.world ≡ called_in activation.entry crossing.now guarded.old.world) }
{
    let mut went = enter_below(alloc, activation.upcall.watch, guarded, crossing)?;
    let mut turns: u64 = 0;
    while turns < u64::MAX {
        turns += 1;
        match went {
            Went::Gave(gave) => return Ok(gave),
            Went::Calls(back, paused) => {
                went = back_below(alloc, activation, guarded, back, paused)?;
            }
        }
    }
    drop(went);
    Err(spent(turns, Limit::Turns))
}

/// A function of the kernel half is called by user code, with its arguments as they are now, and runs in place.
#[cycle(upcalls)]
pub(crate) fn downcall(
    alloc: Global,
    activation: Activation,
    guarded: &mut Guarded,
    crossing: &Crossing,
) -> Result<Gave, OutOfMemory>
    requires sound { IsSound activation.upcall.watch.program.now }
    requires fit { IsFit activation.upcall.watch }
    requires bodies { HaveBodies activation.upcall.watch.program.now }
    requires same { guarded.old.program ≡ activation.upcall.watch.program.now }
    ensures kept { OnOk result (guarded.new.program ≡ activation.entry.upcall.watch.program.now) }
    ensures gave { IfOk result (λ g. gave_as g guarded.new.world ≡ downcalls_in activation.entry crossing.now guarded.old.world) }
{
    let sent = sent_now(alloc, guarded, crossing)?;
    let gave = call_below(alloc, activation, guarded, &sent)?;
    match gave {
        Gave::Value(value) => come_back(alloc, activation.upcall, guarded, &sent, value),
        Gave::Stopped(kind, at) => Ok(Gave::Stopped(kind, at)),
    }
}
