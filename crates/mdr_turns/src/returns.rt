// An upcall returns.

ghost use Rattle.std.specs.Prelude.{◌≡◌, ◌≤◌, IfOk};
ghost use Rattle.mdr_core.specs.Sound.{IsSound};
ghost use Rattle.mdr_watch.specs.Watching.{IsFit, driver_in};
ghost use Rattle.mdr_whole.specs.Pausing.{IsPaused};
ghost use Rattle.mdr_turns.specs.Coming.{CommandedFor, DownGoes, KeptFor, LeadsBack, LeadsOn, NotesIn, ResumesIn, ReturnsTo, ScriptGoesOn, gives, resumes};
ghost use Rattle.mdr_turns.specs.States.{IsActive, IsBehind, IsBetween, IsWithin, innermost_of, kernel_in, kernel_with, waits_over};

use crate::backs::{command_gave, command_went, down_went};
use crate::script::do_commands;
use crate::state::{
    Active, Base, Behind, Between, Commanded, Frame, Innermost, Pending, Wait, Within,
};
use mdr_core::{Items, OutOfMemory};
use mdr_events::Crossing;
use mdr_kernel_memory::value_of;
use mdr_model::{Command, Wire};
use mdr_watch::{Watch, go_on_below, kernel_code};
use mdr_whole::{Gave, Interrupts, go_on};
use std::alloc::Global;

// ---- the script goes on

/// The commands that are left are done, where the run doesn't rest.
fn goes_on<'a>(
    alloc: Global,
    watch: Watch<'a>,
    script: &[Command],
    begun: usize,
    commanded: Commanded<'a>,
) -> Result<Pending<'a>, OutOfMemory>
    requires sound { IsSound watch.program.now }
    requires fit { IsFit watch }
    requires kept { CommandedFor watch commanded }
    ensures kept { IfOk result (KeptFor watch.entry) }
    ensures comes { IfOk result (λ p. ScriptGoesOn (driver_in watch.entry) p commanded.entry begun script.now) }
{
    match commanded {
        Commanded::Goes(between) => do_commands(alloc, watch, script, begun, between),
        Commanded::Rests(pending) => Ok(pending),
    }
}

/// A command's upcall is over: its result is noted, and then the interrupt rule is tried.
fn ended<'a>(
    alloc: Global,
    watch: Watch<'a>,
    wire: Wire,
    between: Between<'a>,
) -> Result<Commanded<'a>, OutOfMemory>
    requires sound { IsSound watch.program.now }
    requires fit { IsFit watch }
    requires between { IsBetween watch between }
    ensures kept { IfOk result (CommandedFor watch.entry) }
    ensures comes { IfOk result (λ c. LeadsOn (driver_in watch.entry) c between.entry.ledger (gives (driver_in watch.entry) wire between.entry.world.world)) }
{
    let gave = Gave::Value(value_of(&between.world, wire));
    command_gave(alloc, watch, gave, between)
}

/// And the script goes on.
fn noted<'a>(
    alloc: Global,
    watch: Watch<'a>,
    script: &[Command],
    wire: Wire,
    between: Between<'a>,
    begun: usize,
) -> Result<Pending<'a>, OutOfMemory>
    requires sound { IsSound watch.program.now }
    requires fit { IsFit watch }
    requires between { IsBetween watch between }
    ensures kept { IfOk result (KeptFor watch.entry) }
    ensures comes { IfOk result (λ p. NotesIn (driver_in watch.entry) p wire between.entry.world.world between.entry.ledger begun script.now) }
{
    let commanded = ended(alloc, watch, wire, between)?;
    goes_on(alloc, watch, script, begun, commanded)
}

// ---- code of the kernel half goes on

/// Code that a command called, as the last of so many, goes on with a result.
fn command_resumed<'a>(
    alloc: Global,
    watch: Watch<'a>,
    wire: Wire,
    wait: Wait,
    between: Between<'a>,
    begun: usize,
) -> Result<Commanded<'a>, OutOfMemory>
    requires sound { IsSound watch.program.now }
    requires fit { IsFit watch }
    requires between { IsBetween watch between }
    requires paused { IsPaused watch.program.now wait.paused }
    requires spent { between.world.world.clock.rest ≤ wait.rest }
    ensures kept { IfOk result (CommandedFor watch.entry) }
    ensures comes { IfOk result (λ c. LeadsBack (driver_in watch.entry) c between.entry.ledger begun (resumes (driver_in watch.entry) wait wire between.entry.world.world)) }
{
    let mut between = between;
    let value = value_of(&between.world, wire);
    let code = kernel_code(watch);
    match go_on::<Interrupts>(alloc, code, &mut between.world, wait.paused, value) {
        Ok(went) => command_went(alloc, watch, went, between, begun),
        Err(error) => {
            drop(between);
            Err(error)
        }
    }
}

/// And the script goes on, where it ends.
fn command_back<'a>(
    alloc: Global,
    watch: Watch<'a>,
    script: &[Command],
    wire: Wire,
    wait: Wait,
    between: Between<'a>,
    begun: usize,
) -> Result<Pending<'a>, OutOfMemory>
    requires sound { IsSound watch.program.now }
    requires fit { IsFit watch }
    requires between { IsBetween watch between }
    requires paused { IsPaused watch.program.now wait.paused }
    requires spent { between.world.world.clock.rest ≤ wait.rest }
    ensures kept { IfOk result (KeptFor watch.entry) }
    ensures comes { IfOk result (λ p. ResumesIn (driver_in watch.entry) p wait wire between.entry.world.world between.entry.ledger begun script.now) }
{
    let commanded = command_resumed(alloc, watch, wire, wait, between, begun)?;
    goes_on(alloc, watch, script, begun, commanded)
}

/// Code that user code called so goes on with a result. The upcall of that user code is active again.
fn down_back<'a>(
    alloc: Global,
    watch: Watch<'a>,
    wire: Wire,
    wait: Wait,
    crossing: Crossing,
    active: Active<'a>,
) -> Result<Pending<'a>, OutOfMemory>
    requires sound { IsSound watch.program.now }
    requires fit { IsFit watch }
    requires active { IsActive watch active }
    requires paused { IsPaused watch.program.now wait.paused }
    requires spent { active.guarded.world.clock.rest ≤ wait.rest }
    ensures kept { IfOk result (KeptFor watch.entry) }
    ensures comes { IfOk result (λ p. DownGoes (driver_in watch.entry) p active.entry crossing (resumes (driver_in watch.entry) wait wire active.entry.guarded.world)) }
{
    let mut active = active;
    let value = value_of(active.guarded.world(), wire);
    match go_on_below(alloc, watch, &mut active.guarded, wait.paused, value) {
        Ok(went) => down_went(alloc, watch, crossing, went, active),
        Err(error) => {
            drop(crossing);
            drop(active);
            Err(error)
        }
    }
}

/// Code that called the upcall back goes on with its result.
fn resumed<'a>(
    alloc: Global,
    watch: Watch<'a>,
    script: &[Command],
    wire: Wire,
    frame: Frame,
    within: Within<'a>,
) -> Result<Pending<'a>, OutOfMemory>
    requires sound { IsSound watch.program.now }
    requires fit { IsFit watch }
    requires within { IsWithin watch within }
    requires behind { IsBehind watch.program.now within.guarded.world (waits_over frame within.behind) }
    ensures kept { IfOk result (KeptFor watch.entry) }
    ensures comes { IfOk result (λ p. ReturnsTo (driver_in watch.entry) p wire (kernel_with within.entry.ledger within.entry.guarded.world) (waits_over frame within.entry.behind) script.now) }
{
    let Frame { wait, base } = frame;
    let Within {
        guarded,
        ledger,
        behind,
    } = within;
    match base {
        Base::Commanded => {
            let begun = behind.done;
            drop(behind);
            let world = guarded.alone();
            let between = Between { world, ledger };
            command_back(alloc, watch, script, wire, wait, between, begun)
        }
        Base::Down(crossing, open) => {
            let active = Active {
                guarded: guarded.under(),
                ledger,
                open,
                behind,
            };
            down_back(alloc, watch, wire, wait, crossing, active)
        }
    }
}

// ---- an upcall returns

/// The innermost code that waits is taken from what follows an upcall.
fn innermost(behind: Behind) -> Innermost
    ensures { result ≡ innermost_of behind.frames behind.done }
{
    let Behind { frames, done } = behind;
    let mut frames = frames.into_vec();
    if frames.is_empty() {
        drop(frames);
        Innermost::Nothing(done)
    } else {
        let frame = frames.remove(0);
        let frames = Items::from_vec(frames);
        Innermost::Over(frame, Behind { frames, done })
    }
}

/// The innermost upcall returned: what called it goes on.
pub(crate) fn continued<'a>(
    alloc: Global,
    watch: Watch<'a>,
    script: &[Command],
    wire: Wire,
    active: Active<'a>,
) -> Result<Pending<'a>, OutOfMemory>
    requires sound { IsSound watch.program.now }
    requires fit { IsFit watch }
    requires active { IsActive watch active }
    ensures kept { IfOk result (KeptFor watch.entry) }
    ensures comes { IfOk result (λ p. ReturnsTo (driver_in watch.entry) p wire (kernel_in active.entry) active.entry.behind script.now) }
{
    let Active {
        guarded,
        ledger,
        open,
        behind,
    } = active;
    drop(open);
    match innermost(behind) {
        Innermost::Nothing(done) => {
            let world = guarded.alone();
            noted(alloc, watch, script, wire, Between { world, ledger }, done)
        }
        Innermost::Over(frame, behind) => {
            let within = Within {
                guarded,
                ledger,
                behind,
            };
            resumed(alloc, watch, script, wire, frame, within)
        }
    }
}
