// A function of a driver is called in a world.

ghost use Rattle.std.specs.Prelude.{◌≡◌, ◌≤◌, false, true, IfOk, OnOk, is_some, option_copied, slice_get};
ghost use Rattle.mdr_core.specs.declared.program.Program.{Program as AnyProgram};
ghost use Rattle.mdr_core.specs.Sound.{IsSound};
ghost use Rattle.mdr_events.specs.Ready.{IsReady};
ghost use Rattle.mdr_events.specs.Values.{wires_of};
ghost use Rattle.mdr_exec.specs.Halves.{is_kernel, is_own};
ghost use Rattle.mdr_exec.specs.Holding.{held_of};
ghost use Rattle.mdr_meaning.specs.Bodies.{body_of};
ghost use Rattle.mdr_meaning.specs.Sides.{Side as AnySide};
ghost use Rattle.mdr_meaning.specs.Values.{wire_of};
ghost use Rattle.mdr_plain.specs.Running.{Before as AnyBefore, call};
ghost use Rattle.mdr_plain.specs.World.{World as AnyWorld};
ghost use Rattle.mdr_runs.specs.Following.{setting_by};
ghost use Rattle.mdr_runs.specs.Pausing.{finishes};
ghost use Rattle.mdr_whole.specs.declared.code.Code.{Code as AnyCode};
ghost use Rattle.mdr_whole.specs.declared.paused.Paused.TheVariants as paused;
ghost use Rattle.mdr_whole.specs.Ending.{gave_as};
ghost use Rattle.mdr_whole.specs.Going.{IsStarted, driver_code, side_of, tried_in};
ghost use Rattle.mdr_whole.specs.Pausing.{IsPaused, IsWaiting, MachineWent, WentOn, calls_elsewhere, enters_in, went_as, went_in};

use crate::before::Before;
use crate::code::{Code, is_half};
use crate::ending::Gave;
use crate::paused::{Paused, Went};
use crate::turn::{Reached, run};
use mdr_core::{At, Func, Half, Items, Limit, OutOfMemory, Program, StopKind, Value, below, spent};
use mdr_events::Crossing;
use mdr_exec::{Machine, Side};
use mdr_world::World;
use std::alloc::Global;

fn func_at<'a>(program: &'a Program, func: u32) -> Option<&'a Func>
    ensures { option_copied result ≡ slice_get program.now.funcs func }
{
    program.funcs.as_slice().get(func as usize)
}

/// Whether a function has a body.
#[tactic(auto, unfolding(mdr_meaning::specs::Bodies::body_of))]
fn has_body(program: &Program, func: u32) -> bool
    ensures { result ≡ is_some (body_of program.now func) }
{
    match func_at(program, func) {
        Some(func) => match &func.body {
            Some(_) => true,
            None => false,
        },
        None => false,
    }
}

fn is_kernel(halves: &[Half], func: u32) -> bool
    ensures { result ≡ is_kernel halves.now func }
{
    match halves.get(func as usize) {
        Some(Half::Kernel) => true,
        Some(Half::User) => false,
        None => false,
    }
}

fn is_own(side: Side, kernel: bool) -> bool
    ensures { result ≡ is_own side kernel }
{
    match side {
        Side::Whole => true,
        Side::Kernel => kernel,
        Side::User => !kernel,
    }
}

/// Whether a function is one of those that run.
fn is_among(code: Code, func: u32) -> bool
    ensures { result ≡ is_own code.entry.side (is_kernel code.entry.halves.now func) }
{
    is_own(code.side, is_kernel(code.halves, func))
}

/// Whether a function is one of those that run, and has a body.
fn runs_here(code: Code, func: u32) -> bool
    ensures { result ≡ is_some ((side_of code.entry).own func) }
{
    if is_among(code, func) {
        return has_body(code.program, func);
    }
    false
}

/// A machine in which a function was started, with so many active before it.
fn started(
    alloc: Global,
    code: Code,
    func: u32,
    args: &[Value],
    depth: u32,
) -> Result<Machine, OutOfMemory>
    requires { is_some ((side_of code).own func) ≡ true }
    ensures { IfOk result (λ m. IsStarted code.entry.program.now (side_of code.entry) func (wires_of args.now) depth m) }
{
    below(depth as u64, Limit::Active)?;
    let mut machine = Machine::new(alloc, code.side);
    machine.start(alloc, code.program, func, args, depth)?;
    Ok(machine)
}

/// Runs a machine to its end, or until it waits, and then keeps it.
fn run_on<B: Before>(
    alloc: Global,
    code: Code,
    world: &mut World,
    machine: Machine,
) -> Result<Went, OutOfMemory>
    requires sound { IsSound code.program.now }
    requires same { world.old.program ≡ code.program.now }
    requires ready { IsReady (held_of code.program.now machine) }
    ensures kept { OnOk result (world.new.program ≡ code.entry.program.now) }
    ensures spent { OnOk result (world.new.world.clock.rest ≤ world.old.world.clock.rest) }
    ensures waiting { IfOk result (IsWaiting code.entry.program.now) }
    ensures went { IfOk result (λ g. MachineWent B.tries code.entry machine world.old.world g world.new.world) }
{
    let mut machine = machine;
    match run::<B>(&mut machine, alloc, code, world) {
        Ok(Reached::Gave(gave)) => {
            drop(machine);
            Ok(Went::Gave(gave))
        }
        Ok(Reached::Calls(crossing)) => Ok(Went::Calls(crossing, Paused::Waits(machine))),
        Err(error) => {
            drop(machine);
            Err(error)
        }
    }
}

/// The call of a function that isn't one of those that run, or that has no body.
fn elsewhere(alloc: Global, func: u32, args: &[Value], depth: u32) -> Result<Went, OutOfMemory>
    ensures waiting { IfOk result (λ g. (program : AnyProgram) → IsWaiting program g) }
    ensures went { IfOk result (λ g. (program : AnyProgram) (side : AnySide) (w : AnyWorld) → went_as program side g w ≡ calls_elsewhere func (wires_of args.now) depth w) }
{
    let args = Items::from_slice(alloc, args)?;
    let crossing = Crossing {
        at: At { func, stmt: 0 },
        func,
        args,
        depth,
    };
    Ok(Went::Calls(crossing, Paused::Passes))
}

/// A function is called, with so many active before it, and runs to its end or up to its first call of the other half.
pub fn enter<B: Before>(
    alloc: Global,
    code: Code,
    world: &mut World,
    func: u32,
    args: &[Value],
    depth: u32,
) -> Result<Went, OutOfMemory>
    requires sound { IsSound code.program.now }
    requires same { world.old.program ≡ code.program.now }
    ensures kept { OnOk result (world.new.program ≡ code.entry.program.now) }
    ensures spent { OnOk result (world.new.world.clock.rest ≤ world.old.world.clock.rest) }
    ensures waiting { IfOk result (IsWaiting code.entry.program.now) }
    ensures went { IfOk result (λ g. went_in code.entry g world.new.world ≡ enters_in B.tries code.entry func (wires_of args.now) depth world.old.world) }
{
    if !runs_here(code, func) {
        let went = elsewhere(alloc, func, args, depth)?;
        return Ok(went);
    }
    let machine = started(alloc, code, func, args, depth)?;
    let went = run_on::<B>(alloc, code, world, machine)?;
    Ok(went)
}

/// A machine goes on with the value for which it waits.
fn resumed<B: Before>(
    alloc: Global,
    code: Code,
    world: &mut World,
    machine: Machine,
    value: Value,
) -> Result<Went, OutOfMemory>
    requires sound { IsSound code.program.now }
    requires same { world.old.program ≡ code.program.now }
    requires waits { IsPaused code.program.now (paused.Waits machine) }
    ensures kept { OnOk result (world.new.program ≡ code.entry.program.now) }
    ensures spent { OnOk result (world.new.world.clock.rest ≤ world.old.world.clock.rest) }
    ensures waiting { IfOk result (IsWaiting code.entry.program.now) }
    ensures went { IfOk result (λ g. WentOn B.tries code.entry (paused.Waits machine) (wire_of value) world.old.world g world.new.world) }
{
    let mut machine = machine;
    machine.resume(&[value]);
    let went = run_on::<B>(alloc, code, world, machine)?;
    Ok(went)
}

/// Code that waits goes on with what a function of the other half gave.
pub fn go_on<B: Before>(
    alloc: Global,
    code: Code,
    world: &mut World,
    paused: Paused,
    value: Value,
) -> Result<Went, OutOfMemory>
    requires sound { IsSound code.program.now }
    requires same { world.old.program ≡ code.program.now }
    requires waits { IsPaused code.program.now paused }
    ensures kept { OnOk result (world.new.program ≡ code.entry.program.now) }
    ensures spent { OnOk result (world.new.world.clock.rest ≤ world.old.world.clock.rest) }
    ensures waiting { IfOk result (IsWaiting code.entry.program.now) }
    ensures went { IfOk result (λ g. WentOn B.tries code.entry paused (wire_of value) world.old.world g world.new.world) }
{
    match paused {
        Paused::Waits(machine) => resumed::<B>(alloc, code, world, machine, value),
        Paused::Passes => Ok(Went::Gave(Gave::Value(world.now(value)))),
    }
}

/// Code runs to its end, where a call of the other half gives nothing.
fn run_out<B: Before>(
    alloc: Global,
    code: Code,
    world: &mut World,
    went: Went,
) -> Result<Gave, OutOfMemory>
    requires sound { IsSound code.program.now }
    requires same { world.old.program ≡ code.program.now }
    requires waiting { IsWaiting code.program.now went }
    ensures kept { OnOk result (world.new.program ≡ code.entry.program.now) }
    ensures gave { IfOk result (λ g. gave_as g world.new.world ≡ finishes (setting_by code.entry.program.now false) (tried_in B.tries code.entry) (went_in code.entry went world.old.world)) }
{
    let mut went = went;
    let mut turns: u64 = 0;
    while turns < u64::MAX {
        turns += 1;
        match went {
            Went::Gave(gave) => return Ok(gave),
            Went::Calls(crossing, paused) => {
                drop(crossing);
                went = go_on::<B>(alloc, code, world, paused, Value::NoValue)?;
            }
        }
    }
    drop(went);
    Err(spent(turns, Limit::Turns))
}

/// Code of one half runs to its end, where it may not call the other.
fn stop_out(went: Went) -> Gave
    ensures { (c : AnyCode) (before : AnyBefore) (w : AnyWorld) → gave_as result w ≡ finishes (setting_by c.program.now true) before (went_in c went w) }
{
    match went {
        Went::Gave(gave) => gave,
        Went::Calls(crossing, paused) => {
            let at = crossing.at;
            drop(crossing);
            drop(paused);
            Gave::Stopped(StopKind::Atomic, Some(at))
        }
    }
}

/// Calls a function, with so many active before it, which runs to its end. Where all of a driver's code runs a call of a
/// function that isn't there gives nothing; code of one half may not call the other.
#[tactic(auto, unfolding(mdr_plain::specs::Running::call))]
pub fn call<B: Before>(
    alloc: Global,
    code: Code,
    world: &mut World,
    func: u32,
    args: &[Value],
    depth: u32,
) -> Result<Gave, OutOfMemory>
    requires sound { IsSound code.program.now }
    requires same { world.old.program ≡ code.program.now }
    ensures kept { OnOk result (world.new.program ≡ code.entry.program.now) }
    ensures gave { IfOk result (λ g. gave_as g world.new.world ≡ call (driver_code code.entry) (tried_in B.tries code.entry) func (wires_of args.now) depth world.old.world) }
{
    let went = enter::<B>(alloc, code, world, func, args, depth)?;
    if is_half(code.side) {
        return Ok(stop_out(went));
    }
    let gave = run_out::<B>(alloc, code, world, went)?;
    Ok(gave)
}
