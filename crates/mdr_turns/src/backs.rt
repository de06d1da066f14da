// Code of the kernel half, up to its end or to where it calls back.

ghost use Rattle.std.specs.Prelude.{◌≡◌, [], Some, IfOk};
ghost use Rattle.mdr_core.specs.declared.stop.StopKind.TheVariants as stop;
ghost use Rattle.mdr_core.specs.Sound.{IsSound};
ghost use Rattle.mdr_model.specs.declared.outcome.End.TheVariants as ends;
ghost use Rattle.mdr_plain.specs.Running.{interrupts};
ghost use Rattle.mdr_plain.specs.Scripts.{returned};
ghost use Rattle.mdr_watch.specs.Watching.{IsFit, driver_in};
ghost use Rattle.mdr_watched.specs.Views.{opened};
ghost use Rattle.mdr_watched.specs.Watched.{kernel_of};
ghost use Rattle.mdr_whole.specs.declared.ending.Gave.TheVariants as gave;
ghost use Rattle.mdr_whole.specs.declared.paused.Went.TheVariants as went;
ghost use Rattle.mdr_whole.specs.Ending.{gave_as};
ghost use Rattle.mdr_whole.specs.Pausing.{IsPaused, IsWaiting};
ghost use Rattle.mdr_turns.specs.Coming.{CommandedFor, DownGave, DownGoes, KeptFor, LeadsBack, LeadsOn, PassesOn, RestsBack, came};
ghost use Rattle.mdr_turns.specs.States.{IsActive, IsBehind, IsBetween, IsWithin, waits_over};

use crate::commands::behind;
use crate::ending::over_in;
use crate::sending::back_told;
use crate::state::{
    Active, Base, Behind, Between, Callee, Commanded, Frame, Pending, Wait, Within,
};
use crate::upcalls::{calls, calls_over};
use mdr_core::{At, Items, OutOfMemory, StopKind, Value};
use mdr_events::Crossing;
use mdr_model::End;
use mdr_watch::{Upcall, Watch, come_back, kernel_code, sent};
use mdr_whole::{Gave, Paused, Went, returned};
use std::alloc::Global;

/// Code waits over the code that waited so far.
fn waits_over(frame: Frame, behind: Behind) -> Result<Behind, OutOfMemory>
    ensures { IfOk result (λ b. b ≡ waits_over frame behind) }
{
    let Behind { frames, done } = behind;
    let mut frames = frames.into_vec();
    match frames.insert(0, frame) {
        Ok(()) => Ok(Behind {
            frames: Items::from_vec(frames),
            done,
        }),
        Err(error) => {
            drop(frames);
            Err(error.into())
        }
    }
}

/// Where code may not wait.
fn may_not_wait(at: At) -> End
    ensures { result ≡ ends.Stop stop.Atomic (Some at) }
{
    End::Stop(StopKind::Atomic, Some(at))
}

// ---- code that a command called

/// It gave a result, which is noted, or stopped; and then the interrupt rule is tried.
pub(crate) fn command_gave<'a>(
    alloc: Global,
    watch: Watch<'a>,
    gave: Gave,
    between: Between<'a>,
) -> Result<Commanded<'a>, OutOfMemory>
    requires sound { IsSound watch.program.now }
    requires fit { IsFit watch }
    requires between { IsBetween watch between }
    ensures kept { IfOk result (CommandedFor watch.entry) }
    ensures comes { IfOk result (λ c. LeadsOn (driver_in watch.entry) c between.entry.ledger (returned (interrupts (kernel_of (driver_in watch.entry))) (gave_as gave between.entry.world.world))) }
{
    let mut between = between;
    match returned(alloc, kernel_code(watch), &mut between.world, gave) {
        Ok(worked) => Ok(behind(worked, between)),
        Err(error) => {
            drop(between);
            Err(error)
        }
    }
}

/// It calls a function of the user half, with its arguments as they are now.
fn command_passes<'a>(
    alloc: Global,
    watch: Watch<'a>,
    crossing: &Crossing,
    between: Between<'a>,
    behind: Behind,
) -> Result<Pending<'a>, OutOfMemory>
    requires between { IsBetween watch between }
    requires behind { IsBehind watch.program.now (opened [] between.world.world) behind }
    ensures kept { IfOk result (KeptFor watch.entry) }
    ensures comes { IfOk result (λ p. PassesOn (driver_in watch.entry) p crossing.now between.entry.world.world between.entry.ledger behind) }
{
    match sent(alloc, &between.world, crossing.args.as_slice()) {
        Ok(args) => {
            let callee = Callee {
                func: crossing.func,
                depth: crossing.depth,
                args: args.as_slice(),
            };
            let pending = calls(alloc, watch, callee, between, behind);
            drop(args);
            pending
        }
        Err(error) => {
            drop(between);
            drop(behind);
            Err(error)
        }
    }
}

/// It calls back, where it may wait, and waits itself.
fn command_calls<'a>(
    alloc: Global,
    watch: Watch<'a>,
    crossing: &Crossing,
    paused: Paused,
    between: Between<'a>,
    begun: usize,
) -> Result<Pending<'a>, OutOfMemory>
    requires between { IsBetween watch between }
    requires paused { IsPaused watch.program.now paused }
    ensures kept { IfOk result (KeptFor watch.entry) }
    ensures comes { IfOk result (λ p. RestsBack (driver_in watch.entry) p between.entry.ledger begun (came (driver_in watch.entry) (went.Calls crossing.now paused) between.entry.world.world)) }
{
    if between.world.atomic() {
        drop(paused);
        let Between { world, ledger } = between;
        drop(ledger);
        return Ok(Pending::Over(may_not_wait(crossing.at), world));
    }
    let rest = between.world.rest();
    let frame = Frame {
        wait: Wait { paused, rest },
        base: Base::Commanded,
    };
    let first = Behind {
        frames: Items::new(alloc),
        done: begun,
    };
    match waits_over(frame, first) {
        Ok(behind) => command_passes(alloc, watch, crossing, between, behind),
        Err(error) => {
            drop(between);
            Err(error)
        }
    }
}

/// What it came to: the script goes on, or the run rests. It is the last of so many commands that have begun.
pub(crate) fn command_went<'a>(
    alloc: Global,
    watch: Watch<'a>,
    went: Went,
    between: Between<'a>,
    begun: usize,
) -> Result<Commanded<'a>, OutOfMemory>
    requires sound { IsSound watch.program.now }
    requires fit { IsFit watch }
    requires between { IsBetween watch between }
    requires waiting { IsWaiting watch.program.now went }
    ensures kept { IfOk result (CommandedFor watch.entry) }
    ensures comes { IfOk result (λ c. LeadsBack (driver_in watch.entry) c between.entry.ledger begun (came (driver_in watch.entry) went between.entry.world.world)) }
{
    match went {
        Went::Gave(gave) => command_gave(alloc, watch, gave, between),
        Went::Calls(crossing, paused) => {
            let pending = command_calls(alloc, watch, &crossing, paused, between, begun);
            drop(crossing);
            match pending {
                Ok(pending) => Ok(Commanded::Rests(pending)),
                Err(error) => Err(error),
            }
        }
    }
}

// ---- code that user code called

/// Its result is told, or a failing pointer in it stops the run.
fn comes_back<'a>(
    alloc: Global,
    watch: Watch<'a>,
    crossing: &Crossing,
    value: Value,
    active: Active<'a>,
) -> Result<Pending<'a>, OutOfMemory>
    requires sound { IsSound watch.program.now }
    requires active { IsActive watch active }
    ensures kept { IfOk result (KeptFor watch.entry) }
    ensures comes { IfOk result (λ p. DownGave (driver_in watch.entry) p active.entry crossing.now (gave_as (gave.Value value) active.entry.guarded.world)) }
{
    let mut active = active;
    let upcall = Upcall {
        watch,
        func: active.open.func,
    };
    match come_back(alloc, upcall, &mut active.guarded, crossing, value) {
        Ok(Gave::Value(value)) => back_told(alloc, watch, value, active),
        Ok(Gave::Stopped(kind, at)) => Ok(over_in(End::Stop(kind, at), active)),
        Err(error) => {
            drop(active);
            Err(error)
        }
    }
}

/// It gave a result, for which the set is taken anew, and which is told; or it stopped.
fn down_gave<'a>(
    alloc: Global,
    watch: Watch<'a>,
    crossing: &Crossing,
    gave: Gave,
    active: Active<'a>,
) -> Result<Pending<'a>, OutOfMemory>
    requires sound { IsSound watch.program.now }
    requires active { IsActive watch active }
    ensures kept { IfOk result (KeptFor watch.entry) }
    ensures comes { IfOk result (λ p. DownGave (driver_in watch.entry) p active.entry crossing.now (gave_as gave active.entry.guarded.world)) }
{
    match gave {
        Gave::Value(value) => comes_back(alloc, watch, crossing, value, active),
        Gave::Stopped(kind, at) => Ok(over_in(End::Stop(kind, at), active)),
    }
}

/// It calls a function of the user half, with its arguments as they are now.
fn down_passes<'a>(
    alloc: Global,
    watch: Watch<'a>,
    back: &Crossing,
    within: Within<'a>,
) -> Result<Pending<'a>, OutOfMemory>
    requires within { IsWithin watch within }
    requires behind { IsBehind watch.program.now (opened [] within.guarded.world) within.behind }
    ensures kept { IfOk result (KeptFor watch.entry) }
    ensures comes { IfOk result (λ p. PassesOn (driver_in watch.entry) p back.now within.entry.guarded.world within.entry.ledger within.entry.behind) }
{
    match sent(alloc, within.guarded.world(), back.args.as_slice()) {
        Ok(args) => {
            let callee = Callee {
                func: back.func,
                depth: back.depth,
                args: args.as_slice(),
            };
            let pending = calls_over(alloc, watch, callee, within);
            drop(args);
            pending
        }
        Err(error) => {
            drop(within);
            Err(error)
        }
    }
}

/// It calls back, where it may wait, and waits itself over the upcall that called it.
fn down_calls<'a>(
    alloc: Global,
    watch: Watch<'a>,
    crossing: Crossing,
    back: &Crossing,
    paused: Paused,
    active: Active<'a>,
) -> Result<Pending<'a>, OutOfMemory>
    requires active { IsActive watch active }
    requires paused { IsPaused watch.program.now paused }
    ensures kept { IfOk result (KeptFor watch.entry) }
    ensures comes { IfOk result (λ p. DownGoes (driver_in watch.entry) p active.entry crossing (came (driver_in watch.entry) (went.Calls back.now paused) active.entry.guarded.world)) }
{
    if active.guarded.atomic() {
        drop(crossing);
        drop(paused);
        return Ok(over_in(may_not_wait(back.at), active));
    }
    let Active {
        guarded,
        ledger,
        open,
        behind,
    } = active;
    let rest = guarded.world().rest();
    let frame = Frame {
        wait: Wait { paused, rest },
        base: Base::Down(crossing, open),
    };
    match waits_over(frame, behind) {
        Ok(behind) => {
            let within = Within {
                guarded,
                ledger,
                behind,
            };
            down_passes(alloc, watch, back, within)
        }
        Err(error) => {
            drop(guarded);
            drop(ledger);
            Err(error)
        }
    }
}

/// What it came to, where this call of it is open.
pub(crate) fn down_went<'a>(
    alloc: Global,
    watch: Watch<'a>,
    crossing: Crossing,
    went: Went,
    active: Active<'a>,
) -> Result<Pending<'a>, OutOfMemory>
    requires sound { IsSound watch.program.now }
    requires active { IsActive watch active }
    requires waiting { IsWaiting watch.program.now went }
    ensures kept { IfOk result (KeptFor watch.entry) }
    ensures comes { IfOk result (λ p. DownGoes (driver_in watch.entry) p active.entry crossing (came (driver_in watch.entry) went active.entry.guarded.world)) }
{
    match went {
        Went::Gave(gave) => {
            let pending = down_gave(alloc, watch, &crossing, gave, active);
            drop(crossing);
            pending
        }
        Went::Calls(back, paused) => {
            let pending = down_calls(alloc, watch, crossing, &back, paused, active);
            drop(back);
            pending
        }
    }
}
