// Registers: `readl`, `writel`.

ghost use Rattle.std.specs.Prelude.{◌≡◌, IfOk, OnOk};
ghost use Rattle.mdr_core.specs.declared.place.At.{At as Place};
ghost use Rattle.mdr_device.specs.Machines.{read};
ghost use Rattle.mdr_meaning.specs.Values.{natural, saturated_u32, wire_of};
ghost use Rattle.mdr_plain.specs.Services.{register_read, register_written, was_read};
ghost use Rattle.mdr_services.specs.Serving.{served_as, was_written};

use crate::answer::{Served, nothing, one};
use crate::arguments::natural;
use mdr_core::{Kind, OutOfMemory, StopKind, Value};
use mdr_plain::Happened;
use mdr_world::World;
use std::alloc::Global;

fn read(alloc: Global, world: &mut World, register: u32) -> Result<Served, OutOfMemory>
    ensures kept { OnOk result (world.new.program ≡ world.old.program) }
    ensures served { IfOk result (λ s. (at : Place) → served_as s at world.new.world ≡ was_read register (read register world.old.world.clock.device) world.old.world) }
{
    let word = world.read_register(register);
    world.note(Happened::Read(register, word))?;
    let value = one(alloc, Value::Int(Kind::U32, word as i128))?;
    Ok(value)
}

/// Reads a register. A number that is no register's stops.
pub(crate) fn read_register(
    alloc: Global,
    world: &mut World,
    register: Value,
) -> Result<Served, OutOfMemory>
    ensures kept { OnOk result (world.new.program ≡ world.old.program) }
    ensures served { IfOk result (λ s. (at : Place) → served_as s at world.new.world ≡ register_read at (natural (wire_of register)) world.old.world) }
{
    let number = natural(register);
    if number < 4096 {
        let served = read(alloc, world, number as u32)?;
        Ok(served)
    } else {
        Ok(Served::Stop(StopKind::Bounds))
    }
}

fn write(alloc: Global, world: &mut World, register: u32, word: u32) -> Result<Served, OutOfMemory>
    ensures kept { OnOk result (world.new.program ≡ world.old.program) }
    ensures served { IfOk result (λ s. (at : Place) → served_as s at world.new.world ≡ was_written register word world.old.world) }
{
    world.write_register(register, word);
    world.note(Happened::Wrote(register, word))?;
    Ok(nothing(alloc))
}

/// A number as a word of a register: the greatest one where it is greater.
fn word_of(number: u128) -> u32
    ensures { result ≡ saturated_u32 number }
{
    if number > 4294967295 {
        4294967295
    } else {
        number as u32
    }
}

/// Writes a register. A number that is no register's stops.
pub(crate) fn write_register(
    alloc: Global,
    world: &mut World,
    register: Value,
    value: Value,
) -> Result<Served, OutOfMemory>
    ensures kept { OnOk result (world.new.program ≡ world.old.program) }
    ensures served { IfOk result (λ s. (at : Place) → served_as s at world.new.world ≡ register_written at (natural (wire_of register)) (saturated_u32 (natural (wire_of value))) world.old.world) }
{
    let number = natural(register);
    if number < 4096 {
        let word = word_of(natural(value));
        let served = write(alloc, world, number as u32, word)?;
        Ok(served)
    } else {
        Ok(Served::Stop(StopKind::Bounds))
    }
}
