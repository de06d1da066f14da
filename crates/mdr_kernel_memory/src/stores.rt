// Runs that are stored into a world, cell by cell.

ghost use Rattle.std.specs.Prelude.{◌≡◌};
ghost use Rattle.mdr_model.specs.Copies.{numbered, put_all, put_runs};
ghost use Rattle.mdr_model.specs.Memory.{put};
ghost use Rattle.mdr_kernel_memory.specs.Holding.{AreSettled, AreStorable, IsSettled, cell_in, holding};

use crate::values::value_of;
use mdr_model::{Run, Wire};
use mdr_world::World;

/// Puts a value into a cell. Where the cell isn't there nothing is done.
fn put_wire(world: &mut World, serial: u64, index: u64, wire: Wire)
    requires { IsSettled world.old.world.memory wire }
    ensures { world.new ≡ holding (put world.old.world.memory (cell_in serial index) wire) world.old }
{
    let value = value_of(world, wire);
    world.put_at(serial, index, value);
}

/// Puts values into cells that follow one another.
fn put_row(world: &mut World, serial: u64, first: u32, values: &[Wire])
    requires { AreSettled world.old.world.memory values.now }
    ensures { world.new ≡ holding (put_all (numbered serial first values.now) world.old.world.memory) world.old }
{
    for (i, value) in values.iter().enumerate() {
        put_wire(world, serial, first as u64 + i as u64, *value);
    }
}

fn put_run(world: &mut World, run: &Run)
    requires { AreSettled world.old.world.memory run.now.values }
    ensures { world.new ≡ holding (put_all (numbered run.now.serial run.now.first run.now.values) world.old.world.memory) world.old }
{
    let values = run.values.as_slice();
    put_row(world, run.serial, run.first, values);
}

/// Stores runs.
pub(crate) fn put_runs(world: &mut World, runs: &[Run])
    requires { AreStorable world.old.world.memory runs.now }
    ensures { world.new ≡ holding (put_runs runs.now world.old.world.memory) world.old }
{
    for run in runs {
        put_run(world, run);
    }
}
