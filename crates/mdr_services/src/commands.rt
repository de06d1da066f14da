// The events of commands.

ghost use Rattle.std.specs.Prelude.{◌≡◌, IfOk, OnErr, OnOk, option_copied, slice_get};
ghost use Rattle.mdr_meaning.specs.Values.{wire_of};
ghost use Rattle.mdr_model.specs.Report.{func_name, global_name};
ghost use Rattle.mdr_model.specs.Values.{value_of};
ghost use Rattle.mdr_plain.specs.declared.outcome.Happened.TheVariants as happened;
ghost use Rattle.mdr_plain.specs.Scripts.{begun, showed};
ghost use Rattle.mdr_plain.specs.World.{noted};
ghost use Rattle.mdr_world.specs.Driven.{driver};

use crate::values::{event_value, event_values};
use mdr_core::{Func, GlobalDef, Items, Name, OutOfMemory, Program, Value};
use mdr_plain::Happened;
use mdr_world::World;
use std::alloc::Global;

fn func_at(program: &Program, func: u32) -> Option<&Func>
    ensures { option_copied result ≡ slice_get program.now.funcs func }
{
    program.funcs.as_slice().get(func as usize)
}

fn func_name(alloc: Global, program: &Program, func: u32) -> Result<Name, OutOfMemory>
    ensures { IfOk result (λ name. name ≡ func_name program.now func) }
{
    match func_at(program, func) {
        Some(func) => Ok(Items::from_slice(alloc, func.name.as_slice())?),
        None => Ok(Items::new(alloc)),
    }
}

fn global_at(program: &Program, global: u32) -> Option<&GlobalDef>
    ensures { option_copied result ≡ slice_get program.now.globals global }
{
    program.globals.as_slice().get(global as usize)
}

fn global_name(alloc: Global, program: &Program, global: u32) -> Result<Name, OutOfMemory>
    ensures { IfOk result (λ name. name ≡ global_name program.now global) }
{
    match global_at(program, global) {
        Some(global) => Ok(Items::from_slice(alloc, global.name.as_slice())?),
        None => Ok(Items::new(alloc)),
    }
}

/// A call of a function begins: it is noted, and counted. Where that wants memory, or 2^64 - 1 calls were counted, the
/// world is as before.
pub fn note_call(
    alloc: Global,
    world: &mut World,
    func: u32,
    args: &[Value],
) -> Result<(), OutOfMemory>
    ensures begun { OnOk result (world.new ≡ driver world.old.program (begun world.old.program func args.now world.old.world)) }
    ensures as_before { OnErr result (world.new ≡ world.old) }
{
    let name = func_name(alloc, world.program(), func)?;
    let values = Items::from_slice(alloc, args)?;
    world.begin_call(Happened::Call(name, values))?;
    Ok(())
}

/// The called function's result is noted.
pub fn note_return(world: &mut World, value: Value) -> Result<(), OutOfMemory>
    ensures as_before { OnErr result (world.new ≡ world.old) }
    ensures noted { OnOk result (world.new ≡ driver world.old.program (noted (happened.Ret (value_of (wire_of value))) world.old.world)) }
{
    world.note(Happened::Ret(event_value(value)))?;
    Ok(())
}

/// That ticks are to pass is noted.
pub fn note_idle(world: &mut World, ticks: u64) -> Result<(), OutOfMemory>
    ensures as_before { OnErr result (world.new ≡ world.old) }
    ensures noted { OnOk result (world.new ≡ driver world.old.program (noted (happened.Idle ticks) world.old.world)) }
{
    world.note(Happened::Idle(ticks))?;
    Ok(())
}

/// What a global's cells hold is noted.
pub fn show(alloc: Global, world: &mut World, global: u32) -> Result<(), OutOfMemory>
    ensures as_before { OnErr result (world.new ≡ world.old) }
    ensures shown { OnOk result (world.new ≡ driver world.old.program (showed world.old.program global world.old.world)) }
{
    let name = global_name(alloc, world.program(), global)?;
    let cells = world.cells(alloc, global as u64)?;
    let values = event_values(alloc, cells.as_slice())?;
    world.note(Happened::Show(name, values))?;
    Ok(())
}

/// A line is noted.
pub fn say(alloc: Global, world: &mut World, text: &[u8]) -> Result<(), OutOfMemory>
    ensures as_before { OnErr result (world.new ≡ world.old) }
    ensures said { OnOk result (world.new ≡ driver world.old.program (noted (happened.Say text.now) world.old.world)) }
{
    let text = Items::from_slice(alloc, text)?;
    world.note(Happened::Say(text))?;
    Ok(())
}
