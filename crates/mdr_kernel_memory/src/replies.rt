// What a reply spends and stores while an upcall is open.

ghost use Rattle.std.specs.Prelude.{◌≡◌, ◌≤◌};
ghost use Rattle.mdr_model.specs.Copies.{put_runs};
ghost use Rattle.mdr_plain.specs.World.{advanced};
ghost use Rattle.mdr_kernel_memory.specs.Holding.{AreStorable, holding, holding_at};

use crate::stores::put_runs;
use mdr_model::Run;
use mdr_watch::{Guarded, Parts};

/// Stores runs, whose pointers are to blocks that live. A cell that isn't there is passed over.
pub fn store_runs<'a>(guarded: Guarded<'a>, runs: &[Run]) -> Guarded<'a>
    requires { AreStorable guarded.world.memory runs.now }
    ensures { result ≡ holding (put_runs runs.now guarded.entry.world.memory) guarded.entry }
{
    let Parts { world, sets } = guarded.parts();
    let mut world = world;
    put_runs(&mut world, runs);
    Guarded::beside(world, sets)
}

/// So many ticks pass, where as many are left.
pub fn spend<'a>(guarded: Guarded<'a>, ticks: u64) -> Guarded<'a>
    requires { ticks ≤ guarded.world.clock.rest }
    ensures { result ≡ holding_at guarded.entry.world.memory (advanced ticks guarded.entry.world.clock) guarded.entry }
{
    let Parts { world, sets } = guarded.parts();
    let mut world = world;
    world.count(ticks);
    Guarded::beside(world, sets)
}

/// Both: a reply's ticks pass, and its runs are stored.
pub fn apply<'a>(guarded: Guarded<'a>, ticks: u64, runs: &[Run]) -> Guarded<'a>
    requires within { ticks ≤ guarded.world.clock.rest }
    requires storable { AreStorable guarded.world.memory runs.now }
    ensures { result ≡ holding_at (put_runs runs.now guarded.entry.world.memory) (advanced ticks guarded.entry.world.clock) guarded.entry }
{
    let spent = spend(guarded, ticks);
    store_runs(spent, runs)
}
