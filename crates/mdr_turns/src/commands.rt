// A command of a script.

ghost use Rattle.std.specs.Prelude.{◌≡◌, List, drop, false, true, IfOk};
ghost use Rattle.mdr_core.specs.Sound.{IsSound};
ghost use Rattle.mdr_events.specs.Values.{wires_of};
ghost use Rattle.mdr_model.specs.declared.command.Command.{Command as AnyCommand};
ghost use Rattle.mdr_model.specs.declared.command.Command.TheVariants as command;
ghost use Rattle.mdr_watched.specs.Driver.{Driver as AnyDriver, is_user as is_user_in};
ghost use Rattle.mdr_watch.specs.declared.watch.Watch.{Watch as AnyWatch};
ghost use Rattle.mdr_watch.specs.Watching.{IsFit, IsNoCall, driver_in};
ghost use Rattle.mdr_whole.specs.Ending.{worked_as};
ghost use Rattle.mdr_turns.specs.Coming.{CommandedFor, LeadsBack, LeadsOn, LeadsTo, commanded_at, enters};
ghost use Rattle.mdr_turns.specs.States.{IsBetween};

use crate::backs::command_went;
use crate::state::{Behind, Between, Callee, Commanded, Pending};
use crate::upcalls::calls;
use mdr_core::{Items, OutOfMemory, Value};
use mdr_model::{Command, End};
use mdr_services::note_call;
use mdr_watch::{Watch, is_user, kernel_code};
use mdr_whole::{Interrupts, Worked, do_command, enter};
use std::alloc::Global;

/// A function of the user half is called, which is the command before `begun` commands have begun.
fn upcall_command<'a>(
    alloc: Global,
    watch: Watch<'a>,
    func: u32,
    args: &[Value],
    between: Between<'a>,
    begun: usize,
) -> Result<Commanded<'a>, OutOfMemory>
    requires between { IsBetween watch between }
    requires user { is_user_in watch.plan.now func ≡ true }
    ensures kept { IfOk result (CommandedFor watch.entry) }
    ensures comes { IfOk result (λ c. LeadsTo (driver_in watch.entry) c (λ script go. commanded_at (driver_in watch.entry) (command.Call func args.now) between.entry (drop begun script) go)) }
{
    let mut between = between;
    match note_call(alloc, &mut between.world, func, args) {
        Ok(()) => {
            let callee = Callee {
                func,
                depth: 0,
                args,
            };
            let behind = Behind {
                frames: Items::new(alloc),
                done: begun,
            };
            let pending = calls(alloc, watch, callee, between, behind)?;
            Ok(Commanded::Rests(pending))
        }
        Err(error) => {
            drop(between);
            Err(error)
        }
    }
}

/// What follows work that the kernel half did.
pub(crate) fn behind<'a>(worked: Worked, between: Between<'a>) -> Commanded<'a>
    ensures kept { (watch : AnyWatch) → IsBetween watch between.entry → CommandedFor watch result }
    ensures comes { (d : AnyDriver) → LeadsOn d result between.entry.ledger (worked_as worked between.entry.world.world) }
{
    match worked {
        Worked::Done => Commanded::Goes(between),
        Worked::Stopped(kind, at) => {
            let Between { world, ledger } = between;
            drop(ledger);
            Commanded::Rests(Pending::Over(End::Stop(kind, at), world))
        }
    }
}

/// A function of the kernel half is called, up to its end or to where it calls back.
fn enters<'a>(
    alloc: Global,
    watch: Watch<'a>,
    func: u32,
    args: &[Value],
    between: Between<'a>,
    begun: usize,
) -> Result<Commanded<'a>, OutOfMemory>
    requires sound { IsSound watch.program.now }
    requires fit { IsFit watch }
    requires between { IsBetween watch between }
    ensures kept { IfOk result (CommandedFor watch.entry) }
    ensures comes { IfOk result (λ c. LeadsBack (driver_in watch.entry) c between.entry.ledger begun (enters (driver_in watch.entry) func (wires_of args.now) between.entry.world.world)) }
{
    let mut between = between;
    let code = kernel_code(watch);
    match enter::<Interrupts>(alloc, code, &mut between.world, func, args, 0) {
        Ok(went) => command_went(alloc, watch, went, between, begun),
        Err(error) => {
            drop(between);
            Err(error)
        }
    }
}

/// It is, by a command, which is the one before `begun` commands have begun.
fn kernel_call<'a>(
    alloc: Global,
    watch: Watch<'a>,
    func: u32,
    args: &[Value],
    between: Between<'a>,
    begun: usize,
) -> Result<Commanded<'a>, OutOfMemory>
    requires sound { IsSound watch.program.now }
    requires fit { IsFit watch }
    requires between { IsBetween watch between }
    requires kernel { is_user_in watch.plan.now func ≡ false }
    ensures kept { IfOk result (CommandedFor watch.entry) }
    ensures comes { IfOk result (λ c. LeadsTo (driver_in watch.entry) c (λ script go. commanded_at (driver_in watch.entry) (command.Call func args.now) between.entry (drop begun script) go)) }
{
    let mut between = between;
    match note_call(alloc, &mut between.world, func, args) {
        Ok(()) => enters(alloc, watch, func, args, between, begun),
        Err(error) => {
            drop(between);
            Err(error)
        }
    }
}

/// A command in which no function is called.
fn kernel_command<'a>(
    alloc: Global,
    watch: Watch<'a>,
    command: &Command,
    between: Between<'a>,
) -> Result<Commanded<'a>, OutOfMemory>
    requires sound { IsSound watch.program.now }
    requires fit { IsFit watch }
    requires between { IsBetween watch between }
    requires none { IsNoCall command.now }
    ensures kept { IfOk result (CommandedFor watch.entry) }
    ensures comes { IfOk result (λ c. (left : List AnyCommand) → LeadsTo (driver_in watch.entry) c (λ script go. commanded_at (driver_in watch.entry) command.now between.entry left go)) }
{
    let mut between = between;
    match do_command(alloc, kernel_code(watch), &mut between.world, command) {
        Ok(worked) => Ok(behind(worked, between)),
        Err(error) => {
            drop(between);
            Err(error)
        }
    }
}

/// A command, which is the one before `begun` commands have begun.
pub(crate) fn command<'a>(
    alloc: Global,
    watch: Watch<'a>,
    command: &Command,
    between: Between<'a>,
    begun: usize,
) -> Result<Commanded<'a>, OutOfMemory>
    requires sound { IsSound watch.program.now }
    requires fit { IsFit watch }
    requires between { IsBetween watch between }
    ensures kept { IfOk result (CommandedFor watch.entry) }
    ensures comes { IfOk result (λ c. LeadsTo (driver_in watch.entry) c (λ script go. commanded_at (driver_in watch.entry) command.now between.entry (drop begun script) go)) }
{
    match command {
        Command::Call(func, args) => {
            if is_user(watch.plan, *func) {
                return upcall_command(alloc, watch, *func, args.as_slice(), between, begun);
            }
            kernel_call(alloc, watch, *func, args.as_slice(), between, begun)
        }
        Command::Idle(_) => kernel_command(alloc, watch, command, between),
        Command::Show(_) => kernel_command(alloc, watch, command, between),
        Command::Poke(_, _, _) => kernel_command(alloc, watch, command, between),
        Command::Say(_) => kernel_command(alloc, watch, command, between),
    }
}
