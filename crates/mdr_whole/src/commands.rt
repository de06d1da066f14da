// The commands of a script.

ghost use Rattle.std.specs.Prelude.{◌≡◌, IfOk, OnOk, map};
ghost use Rattle.mdr_core.specs.Sound.{IsSound};
ghost use Rattle.mdr_meaning.specs.Values.{wire_of};
ghost use Rattle.mdr_model.specs.declared.command.Command.TheVariants as command;
ghost use Rattle.mdr_plain.specs.Plain.{does};
ghost use Rattle.mdr_plain.specs.Running.{call, interrupts};
ghost use Rattle.mdr_plain.specs.Scripts.{begun, commands, idled, returned};
ghost use Rattle.mdr_plain.specs.World.{done};
ghost use Rattle.mdr_whole.specs.Ending.{finished, gave_as, worked_as};
ghost use Rattle.mdr_whole.specs.Going.{driver_code};

use crate::calls::call;
use crate::code::Code;
use crate::ending::{Gave, Worked};
use crate::idling::idle;
use crate::interrupts::{Interrupts, interrupt};
use mdr_core::{Items, OutOfMemory, Value};
use mdr_model::Command;
use mdr_services::{note_call, note_idle, note_return, say, show};
use mdr_world::World;
use std::alloc::Global;

/// The result of a call is noted, and then the interrupt rule is tried once more.
pub fn returned(
    alloc: Global,
    code: Code,
    world: &mut World,
    gave: Gave,
) -> Result<Worked, OutOfMemory>
    requires sound { IsSound code.program.now }
    requires same { world.old.program ≡ code.program.now }
    ensures kept { OnOk result (world.new.program ≡ code.entry.program.now) }
    ensures worked { IfOk result (λ e. worked_as e world.new.world ≡ returned (interrupts (driver_code code.entry)) (gave_as gave world.old.world)) }
{
    match gave {
        Gave::Value(value) => {
            note_return(world, value)?;
            interrupt(alloc, code, world, 0)
        }
        Gave::Stopped(kind, at) => Ok(Worked::Stopped(kind, at)),
    }
}

/// A function is called.
#[tactic(auto, unfolding(mdr_plain::specs::Scripts::begin))]
fn call_command(
    alloc: Global,
    code: Code,
    world: &mut World,
    func: u32,
    args: &[Value],
) -> Result<Worked, OutOfMemory>
    requires sound { IsSound code.program.now }
    requires same { world.old.program ≡ code.program.now }
    ensures kept { OnOk result (world.new.program ≡ code.entry.program.now) }
    ensures worked { IfOk result (λ e. worked_as e world.new.world ≡ does (driver_code code.entry) (command.Call func args.now) world.old.world) }
{
    note_call(alloc, world, func, args)?;
    let gave = call::<Interrupts>(alloc, code, world, func, args, 0)?;
    let worked = returned(alloc, code, world, gave)?;
    Ok(worked)
}

/// Ticks pass, and then the interrupt rule is tried once more.
#[tactic(auto, unfolding(mdr_plain::specs::Scripts::begin))]
fn idle_command(
    alloc: Global,
    code: Code,
    world: &mut World,
    ticks: u64,
) -> Result<Worked, OutOfMemory>
    requires sound { IsSound code.program.now }
    requires same { world.old.program ≡ code.program.now }
    ensures kept { OnOk result (world.new.program ≡ code.entry.program.now) }
    ensures worked { IfOk result (λ e. worked_as e world.new.world ≡ does (driver_code code.entry) (command.Idle ticks) world.old.world) }
{
    note_idle(world, ticks)?;
    let worked = idle(alloc, code, world, ticks)?;
    match worked {
        Worked::Done => interrupt(alloc, code, world, 0),
        Worked::Stopped(kind, at) => Ok(Worked::Stopped(kind, at)),
    }
}

/// What a global holds is shown.
#[tactic(auto, unfolding(mdr_plain::specs::Scripts::begin))]
fn show_command(
    alloc: Global,
    code: Code,
    world: &mut World,
    global: u32,
) -> Result<Worked, OutOfMemory>
    requires same { world.old.program ≡ code.program.now }
    ensures kept { OnOk result (world.new.program ≡ code.entry.program.now) }
    ensures worked { IfOk result (λ e. worked_as e world.new.world ≡ does (driver_code code.entry) (command.Show global) world.old.world) }
{
    show(alloc, world, global)?;
    Ok(Worked::Done)
}

/// An integer is put into a cell that holds one.
#[tactic(auto, unfolding(mdr_plain::specs::Scripts::begin))]
fn poke_command(code: Code, world: &mut World, serial: u64, index: u32, n: i128) -> Worked
    requires same { world.old.program ≡ code.program.now }
    ensures kept { world.new.program ≡ code.entry.program.now }
    ensures worked { worked_as result world.new.world ≡ does (driver_code code.entry) (command.Poke serial index n) world.old.world }
{
    world.poke(serial, index, n);
    Worked::Done
}

/// A line is noted.
#[tactic(auto, unfolding(mdr_plain::specs::Scripts::begin))]
fn say_command(
    alloc: Global,
    code: Code,
    world: &mut World,
    text: &[u8],
) -> Result<Worked, OutOfMemory>
    requires same { world.old.program ≡ code.program.now }
    ensures kept { OnOk result (world.new.program ≡ code.entry.program.now) }
    ensures worked { IfOk result (λ e. worked_as e world.new.world ≡ does (driver_code code.entry) (command.Say text.now) world.old.world) }
{
    say(alloc, world, text)?;
    Ok(Worked::Done)
}

/// A command is done.
pub fn do_command(
    alloc: Global,
    code: Code,
    world: &mut World,
    command: &Command,
) -> Result<Worked, OutOfMemory>
    requires sound { IsSound code.program.now }
    requires same { world.old.program ≡ code.program.now }
    ensures kept { OnOk result (world.new.program ≡ code.entry.program.now) }
    ensures worked { IfOk result (λ e. worked_as e world.new.world ≡ does (driver_code code.entry) command.now world.old.world) }
{
    match command {
        Command::Call(func, args) => call_command(alloc, code, world, *func, args.as_slice()),
        Command::Idle(ticks) => idle_command(alloc, code, world, *ticks),
        Command::Show(global) => show_command(alloc, code, world, *global),
        Command::Poke(serial, index, n) => Ok(poke_command(code, world, *serial, *index, *n)),
        Command::Say(text) => say_command(alloc, code, world, text.as_slice()),
    }
}

/// The commands of a script are done in turn.
#[tactic(auto, unfolding(mdr_plain::specs::Scripts::commands))]
pub(crate) fn do_commands(
    alloc: Global,
    code: Code,
    world: &mut World,
    script: &[Command],
) -> Result<Worked, OutOfMemory>
    requires sound { IsSound code.program.now }
    requires same { world.old.program ≡ code.program.now }
    ensures kept { OnOk result (world.new.program ≡ code.entry.program.now) }
    ensures finished { IfOk result (λ e. finished e world.new.world ≡ commands (does (driver_code code.entry)) script.now world.old.world) }
{
    for command in script {
        let worked = do_command(alloc, code, world, command)?;
        match worked {
            Worked::Done => (),
            Worked::Stopped(kind, at) => return Ok(Worked::Stopped(kind, at)),
        }
    }
    Ok(Worked::Done)
}
