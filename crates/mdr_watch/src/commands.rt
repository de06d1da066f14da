// The commands of a script.

ghost use Rattle.std.specs.Prelude.{◌≡◌, [], IfOk, false, true};
ghost use Rattle.mdr_core.specs.Sound.{IsSound};
ghost use Rattle.mdr_events.specs.Values.{wires_of};
ghost use Rattle.mdr_meaning.specs.Values.{wire_of};
ghost use Rattle.mdr_model.specs.declared.command.Command.TheVariants as command;
ghost use Rattle.mdr_plain.specs.Running.{interrupts};
ghost use Rattle.mdr_plain.specs.Scripts.{begun, commands, returned};
ghost use Rattle.mdr_watched.specs.Driver.{is_user as is_user_in};
ghost use Rattle.mdr_watched.specs.Watched.{does, held, kernel_of};
ghost use Rattle.mdr_whole.specs.declared.paused.Went.TheVariants as went;
ghost use Rattle.mdr_whole.specs.Ending.{gave_as, worked_as};
ghost use Rattle.mdr_whole.specs.Pausing.{IsPaused, IsWaiting};
ghost use Rattle.mdr_world.specs.Driven.{driver};
ghost use Rattle.mdr_watch.specs.Commanding.{ComesOn, WentFor, calls_in, finishes_in, gives_back};
ghost use Rattle.mdr_watch.specs.Leaving.{EndsFor, GaveFor, WorkedFor};
ghost use Rattle.mdr_watch.specs.Watching.{HaveBodies, IsFit, IsNoCall, WentBelow, driver_in};

use crate::downcalls::sent;
use crate::next::Closed;
use crate::upcall::call_user;
use crate::watch::{Activation, Upcall, Watch, is_user, kernel_code};
use mdr_core::{Limit, OutOfMemory, StopKind, Value, spent};
use mdr_events::Crossing;
use mdr_model::Command;
use mdr_services::note_call;
use mdr_whole::{Gave, Interrupts, Paused, Went, Worked, do_command, enter, go_on, returned};
use mdr_world::World;
use std::alloc::Global;

/// A command was done, or stopped the run.
#[derive(Drop)]
pub struct Did<'a> {
    pub worked: Worked,
    pub world: World<'a>,
}

/// How far code of the kernel half ran that a command called, and the world behind it.
#[derive(Drop)]
struct Reached<'a> {
    went: Went,
    world: World<'a>,
}

/// The call of a function is noted.
fn noted<'a>(
    alloc: Global,
    world: World<'a>,
    func: u32,
    args: &[Value],
) -> Result<World<'a>, OutOfMemory>
    ensures { IfOk result (λ w. w ≡ driver world.entry.program (begun world.entry.program func args.now world.entry.world)) }
{
    let mut world = world;
    match note_call(alloc, &mut world, func, args) {
        Ok(()) => Ok(world),
        Err(error) => {
            drop(world);
            Err(error)
        }
    }
}

/// What a call gave is noted, and then the interrupt rule is tried once more.
fn come_back<'a>(alloc: Global, watch: Watch, closed: Closed<'a>) -> Result<Did<'a>, OutOfMemory>
    requires sound { IsSound watch.program.now }
    requires fit { IsFit watch }
    requires same { closed.world.program ≡ watch.program.now }
    requires alone { closed.world.world.views ≡ [] }
    ensures kept { IfOk result (λ r. r.world.program ≡ watch.entry.program.now) }
    ensures alone { IfOk result (λ r. r.world.world.views ≡ []) }
    ensures worked { IfOk result (λ r. worked_as r.worked r.world.world ≡ returned (interrupts (kernel_of (driver_in watch.entry))) (gave_as closed.entry.gave closed.entry.world.world)) }
{
    let Closed { gave, world } = closed;
    let mut world = world;
    match returned(alloc, kernel_code(watch), &mut world, gave) {
        Ok(worked) => Ok(Did { worked, world }),
        Err(error) => {
            drop(world);
            Err(error)
        }
    }
}

/// A function of the user half is called.
fn upcall_command<'a>(
    alloc: Global,
    watch: Watch,
    world: World<'a>,
    func: u32,
    args: &[Value],
) -> Result<Did<'a>, OutOfMemory>
    requires sound { IsSound watch.program.now }
    requires fit { IsFit watch }
    requires bodies { HaveBodies watch.program.now }
    requires same { world.program ≡ watch.program.now }
    requires alone { world.world.views ≡ [] }
    requires user { is_user_in watch.plan.now func ≡ true }
    ensures kept { IfOk result (λ r. r.world.program ≡ watch.entry.program.now) }
    ensures alone { IfOk result (λ r. r.world.world.views ≡ []) }
    ensures worked { IfOk result (λ r. WorkedFor r.worked r.world.world (does (driver_in watch.entry) (held (driver_in watch.entry)) (command.Call func args.now) world.entry.world)) }
{
    let noted = noted(alloc, world, func, args)?;
    let activation = Activation {
        upcall: Upcall { watch, func },
        depth: 0,
        room: 256,
    };
    let closed = call_user(alloc, activation, args, noted)?;
    let did = come_back(alloc, watch, closed)?;
    Ok(did)
}

// ---- a function of the kernel half

/// It is called, and runs to its end or up to where it calls back.
fn enters<'a>(
    alloc: Global,
    watch: Watch,
    world: World<'a>,
    func: u32,
    args: &[Value],
) -> Result<Reached<'a>, OutOfMemory>
    requires sound { IsSound watch.program.now }
    requires fit { IsFit watch }
    requires same { world.program ≡ watch.program.now }
    requires alone { world.world.views ≡ [] }
    ensures kept { IfOk result (λ r. r.world.program ≡ watch.entry.program.now) }
    ensures alone { IfOk result (λ r. r.world.world.views ≡ []) }
    ensures waiting { IfOk result (λ r. IsWaiting watch.entry.program.now r.went) }
    ensures went { IfOk result (λ r. finishes_in watch.entry r.went r.world.world ≡ calls_in watch.entry func (wires_of args.now) world.entry.world) }
{
    let mut world = world;
    let code = kernel_code(watch);
    match enter::<Interrupts>(alloc, code, &mut world, func, args, 0) {
        Ok(went) => Ok(Reached { went, world }),
        Err(error) => {
            drop(world);
            Err(error)
        }
    }
}

/// It called back, and goes on with the result.
fn goes_on<'a>(
    alloc: Global,
    watch: Watch,
    world: World<'a>,
    paused: Paused,
    value: Value,
) -> Result<Reached<'a>, OutOfMemory>
    requires sound { IsSound watch.program.now }
    requires fit { IsFit watch }
    requires same { world.program ≡ watch.program.now }
    requires alone { world.world.views ≡ [] }
    requires waits { IsPaused watch.program.now paused }
    ensures kept { IfOk result (λ r. r.world.program ≡ watch.entry.program.now) }
    ensures alone { IfOk result (λ r. r.world.world.views ≡ []) }
    ensures waiting { IfOk result (λ r. IsWaiting watch.entry.program.now r.went) }
    ensures went { IfOk result (λ r. WentBelow watch.entry paused (wire_of value) world.entry.world r.went r.world.world) }
{
    let mut world = world;
    let code = kernel_code(watch);
    match go_on::<Interrupts>(alloc, code, &mut world, paused, value) {
        Ok(went) => Ok(Reached { went, world }),
        Err(error) => {
            drop(world);
            Err(error)
        }
    }
}

/// It calls back: an upcall with its arguments as they are now, where it may wait.
fn calls_back<'a>(
    alloc: Global,
    watch: Watch,
    crossing: &Crossing,
    world: World<'a>,
) -> Result<Closed<'a>, OutOfMemory>
    requires sound { IsSound watch.program.now }
    requires fit { IsFit watch }
    requires bodies { HaveBodies watch.program.now }
    requires same { world.program ≡ watch.program.now }
    requires alone { world.world.views ≡ [] }
    ensures kept { IfOk result (λ r. r.world.program ≡ watch.entry.program.now) }
    ensures alone { IfOk result (λ r. r.world.world.views ≡ []) }
    ensures gave { IfOk result (λ r. GaveFor r.gave r.world.world (gives_back watch.entry crossing.now world.entry.world)) }
{
    if world.atomic() {
        let gave = Gave::Stopped(StopKind::Atomic, Some(crossing.at));
        return Ok(Closed { gave, world });
    }
    let func = crossing.func;
    let activation = Activation {
        upcall: Upcall { watch, func },
        depth: crossing.depth,
        room: 255,
    };
    match sent(alloc, &world, crossing.args.as_slice()) {
        Ok(args) => {
            let closed = call_user(alloc, activation, args.as_slice(), world);
            drop(args);
            closed
        }
        Err(error) => {
            drop(world);
            Err(error)
        }
    }
}

/// What a call back gave: it goes on with that, or the run stopped.
fn comes_on<'a>(
    alloc: Global,
    watch: Watch,
    paused: Paused,
    closed: Closed<'a>,
) -> Result<Reached<'a>, OutOfMemory>
    requires sound { IsSound watch.program.now }
    requires fit { IsFit watch }
    requires same { closed.world.program ≡ watch.program.now }
    requires alone { closed.world.world.views ≡ [] }
    requires waits { IsPaused watch.program.now paused }
    ensures kept { IfOk result (λ r. r.world.program ≡ watch.entry.program.now) }
    ensures alone { IfOk result (λ r. r.world.world.views ≡ []) }
    ensures waiting { IfOk result (λ r. IsWaiting watch.entry.program.now r.went) }
    ensures went { IfOk result (λ r. ComesOn watch.entry paused closed.entry.gave closed.entry.world.world r.went r.world.world) }
{
    let Closed { gave, world } = closed;
    match gave {
        Gave::Value(value) => goes_on(alloc, watch, world, paused, value),
        Gave::Stopped(kind, at) => {
            drop(paused);
            let went = Went::Gave(Gave::Stopped(kind, at));
            Ok(Reached { went, world })
        }
    }
}

/// It runs from where it calls back to its end, or up to where it calls back again.
fn called_back<'a>(
    alloc: Global,
    watch: Watch,
    crossing: &Crossing,
    paused: Paused,
    world: World<'a>,
) -> Result<Reached<'a>, OutOfMemory>
    requires sound { IsSound watch.program.now }
    requires fit { IsFit watch }
    requires bodies { HaveBodies watch.program.now }
    requires same { world.program ≡ watch.program.now }
    requires alone { world.world.views ≡ [] }
    requires waits { IsPaused watch.program.now paused }
    ensures kept { IfOk result (λ r. r.world.program ≡ watch.entry.program.now) }
    ensures alone { IfOk result (λ r. r.world.world.views ≡ []) }
    ensures waiting { IfOk result (λ r. IsWaiting watch.entry.program.now r.went) }
    ensures went { IfOk result (λ r. WentFor watch.entry r.went r.world.world (finishes_in watch.entry (went.Calls crossing.now paused) world.entry.world)) }
{
    match calls_back(alloc, watch, crossing, world) {
        Ok(closed) => comes_on(alloc, watch, paused, closed),
        Err(error) => {
            drop(paused);
            Err(error)
        }
    }
}

/// It runs to its end.
fn run_out<'a>(alloc: Global, watch: Watch, reached: Reached<'a>) -> Result<Closed<'a>, OutOfMemory>
    requires sound { IsSound watch.program.now }
    requires fit { IsFit watch }
    requires bodies { HaveBodies watch.program.now }
    requires same { reached.world.program ≡ watch.program.now }
    requires alone { reached.world.world.views ≡ [] }
    requires waiting { IsWaiting watch.program.now reached.went }
    ensures kept { IfOk result (λ r. r.world.program ≡ watch.entry.program.now) }
    ensures alone { IfOk result (λ r. r.world.world.views ≡ []) }
    ensures gave { IfOk result (λ r. GaveFor r.gave r.world.world (finishes_in watch.entry reached.entry.went reached.entry.world.world)) }
{
    let mut reached = reached;
    let mut turns: u64 = 0;
    while turns < u64::MAX {
        turns += 1;
        let Reached { went, world } = reached;
        match went {
            Went::Gave(gave) => return Ok(Closed { gave, world }),
            Went::Calls(crossing, paused) => {
                let next = called_back(alloc, watch, &crossing, paused, world);
                drop(crossing);
                reached = next?;
            }
        }
    }
    drop(reached);
    Err(spent(turns, Limit::Turns))
}

/// It is called, and may call back.
fn kernel_call<'a>(
    alloc: Global,
    watch: Watch,
    world: World<'a>,
    func: u32,
    args: &[Value],
) -> Result<Did<'a>, OutOfMemory>
    requires sound { IsSound watch.program.now }
    requires fit { IsFit watch }
    requires bodies { HaveBodies watch.program.now }
    requires same { world.program ≡ watch.program.now }
    requires alone { world.world.views ≡ [] }
    requires kernel { is_user_in watch.plan.now func ≡ false }
    ensures kept { IfOk result (λ r. r.world.program ≡ watch.entry.program.now) }
    ensures alone { IfOk result (λ r. r.world.world.views ≡ []) }
    ensures worked { IfOk result (λ r. WorkedFor r.worked r.world.world (does (driver_in watch.entry) (held (driver_in watch.entry)) (command.Call func args.now) world.entry.world)) }
{
    let noted = noted(alloc, world, func, args)?;
    let reached = enters(alloc, watch, noted, func, args)?;
    let closed = run_out(alloc, watch, reached)?;
    let did = come_back(alloc, watch, closed)?;
    Ok(did)
}

// ---- commands

/// A command in which no function is called.
fn kernel_command<'a>(
    alloc: Global,
    watch: Watch,
    world: World<'a>,
    command: &Command,
) -> Result<Did<'a>, OutOfMemory>
    requires sound { IsSound watch.program.now }
    requires fit { IsFit watch }
    requires same { world.program ≡ watch.program.now }
    requires alone { world.world.views ≡ [] }
    requires none { IsNoCall command.now }
    ensures kept { IfOk result (λ r. r.world.program ≡ watch.entry.program.now) }
    ensures alone { IfOk result (λ r. r.world.world.views ≡ []) }
    ensures worked { IfOk result (λ r. WorkedFor r.worked r.world.world (does (driver_in watch.entry) (held (driver_in watch.entry)) command.now world.entry.world)) }
{
    let mut world = world;
    match do_command(alloc, kernel_code(watch), &mut world, command) {
        Ok(worked) => Ok(Did { worked, world }),
        Err(error) => {
            drop(world);
            Err(error)
        }
    }
}

/// A command is done.
fn do_watched<'a>(
    alloc: Global,
    watch: Watch,
    world: World<'a>,
    command: &Command,
) -> Result<Did<'a>, OutOfMemory>
    requires sound { IsSound watch.program.now }
    requires fit { IsFit watch }
    requires bodies { HaveBodies watch.program.now }
    requires same { world.program ≡ watch.program.now }
    requires alone { world.world.views ≡ [] }
    ensures kept { IfOk result (λ r. r.world.program ≡ watch.entry.program.now) }
    ensures alone { IfOk result (λ r. r.world.world.views ≡ []) }
    ensures worked { IfOk result (λ r. WorkedFor r.worked r.world.world (does (driver_in watch.entry) (held (driver_in watch.entry)) command.now world.entry.world)) }
{
    match command {
        Command::Call(func, args) => {
            if is_user(watch.plan, *func) {
                return upcall_command(alloc, watch, world, *func, args.as_slice());
            }
            kernel_call(alloc, watch, world, *func, args.as_slice())
        }
        Command::Idle(_) => kernel_command(alloc, watch, world, command),
        Command::Show(_) => kernel_command(alloc, watch, world, command),
        Command::Poke(_, _, _) => kernel_command(alloc, watch, world, command),
        Command::Say(_) => kernel_command(alloc, watch, world, command),
    }
}

/// The commands of a script are done in turn.
#[tactic(auto, unfolding(mdr_plain::specs::Scripts::commands))]
pub(crate) fn do_commands<'a>(
    alloc: Global,
    watch: Watch,
    world: World<'a>,
    script: &[Command],
) -> Result<Did<'a>, OutOfMemory>
    requires sound { IsSound watch.program.now }
    requires fit { IsFit watch }
    requires bodies { HaveBodies watch.program.now }
    requires same { world.program ≡ watch.program.now }
    requires alone { world.world.views ≡ [] }
    ensures kept { IfOk result (λ r. r.world.program ≡ watch.entry.program.now) }
    ensures finished { IfOk result (λ r. EndsFor r.worked r.world.world (commands (does (driver_in watch.entry) (held (driver_in watch.entry))) script.now world.entry.world)) }
{
    let mut world = world;
    for command in script {
        let Did {
            worked,
            world: left,
        } = do_watched(alloc, watch, world, command)?;
        world = left;
        match worked {
            Worked::Done => (),
            Worked::Stopped(kind, at) => {
                return Ok(Did {
                    worked: Worked::Stopped(kind, at),
                    world,
                });
            }
        }
    }
    Ok(Did {
        worked: Worked::Done,
        world,
    })
}
