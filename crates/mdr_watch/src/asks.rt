// Services that user code asks for.

ghost use Rattle.std.specs.Prelude.{◌≡◌, ◌≤◌, ◌++◌, IfOk, OnOk};
ghost use Rattle.mdr_core.specs.Sound.{IsSound};
ghost use Rattle.mdr_mem.specs.Contents.{births_in};
ghost use Rattle.mdr_reach.specs.Answers.{IsOlder};
ghost use Rattle.mdr_services.specs.Serving.{served_as};
ghost use Rattle.mdr_viewed.specs.Viewed.{viewed};
ghost use Rattle.mdr_watched.specs.Driver.{touched_by};
ghost use Rattle.mdr_watched.specs.Views.{new_cells};
ghost use Rattle.mdr_watch.specs.Guarding.{IsGuarded, StaysOpen, sets_of};
ghost use Rattle.mdr_watch.specs.Watching.{serves_in};

use crate::guarded::{Guarded, forget};
use crate::sets::Sets;
use crate::watch::{Upcall, touched};
use mdr_cells::CellSet;
use mdr_core::OutOfMemory;
use mdr_events::Asked;
use mdr_reach::gained;
use mdr_region::RegionBlocks;
use mdr_services::{Served, serve};
use mdr_world::World;
use std::alloc::Global;

/// The cells of the blocks that were born since so many joined the set.
fn gain(
    alloc: Global,
    upcall: Upcall,
    blocks: &RegionBlocks,
    set: &mut CellSet,
    next: u64,
) -> Result<(), OutOfMemory>
    requires older { IsOlder next set.old }
    requires counted { next ≤ births_in blocks.now.lives }
    ensures gains { OnOk result (set.new ≡ set.old ++ new_cells upcall.entry.watch.program.now (touched_by upcall.entry.watch.plan.now upcall.entry.func) next blocks.now.memory) }
    ensures older { OnOk result (IsOlder (births_in blocks.now.lives) set.new) }
{
    let keys = touched(upcall.watch.plan, upcall.func);
    let old = std::mem::replace(set, CellSet::new(alloc));
    let all = gained(alloc, upcall.watch.program, keys, blocks, old, next)?;
    *set = all;
    Ok(())
}

/// A service is served in a world beside sets, of which the innermost gains the cells of what is born.
fn serve_beside(
    alloc: Global,
    upcall: Upcall,
    world: &mut World,
    sets: &mut Sets,
    asked: &Asked,
) -> Result<Served, OutOfMemory>
    requires sound { IsSound upcall.watch.program.now }
    requires same { world.old.program ≡ upcall.watch.program.now }
    requires guarded { IsGuarded (sets_of sets.old) world.old.world }
    ensures kept { OnOk result (world.new.program ≡ upcall.entry.watch.program.now) }
    ensures guarded { OnOk result (IsGuarded (sets_of sets.new) world.new.world) }
    ensures outer { OnOk result (sets.new.outer ≡ sets.old.outer) }
    ensures spent { OnOk result (world.new.world.clock.rest ≤ world.old.world.clock.rest) }
    ensures served { IfOk result (λ s. served_as s asked.now.at (viewed (sets_of sets.new) world.new.world) ≡ serves_in upcall.entry asked.now (viewed (sets_of sets.old) world.old.world)) }
{
    let next = world.births();
    let served = serve(alloc, world, asked)?;
    match served {
        Served::Done(results) => {
            gain(alloc, upcall, world.blocks(), &mut sets.inner, next)?;
            Ok(Served::Done(results))
        }
        Served::Stop(kind) => Ok(Served::Stop(kind)),
    }
}

/// A service is served, and the cells of what is born join the set.
pub fn ask(
    alloc: Global,
    upcall: Upcall,
    guarded: &mut Guarded,
    asked: &Asked,
) -> Result<Served, OutOfMemory>
    requires sound { IsSound upcall.watch.program.now }
    requires same { guarded.old.program ≡ upcall.watch.program.now }
    ensures kept { OnOk result (guarded.new.program ≡ upcall.entry.watch.program.now) }
    ensures stays { OnOk result (StaysOpen guarded.old.world guarded.new.world) }
    ensures served { IfOk result (λ s. served_as s asked.now.at guarded.new.world ≡ serves_in upcall.entry asked.now guarded.old.world) }
{
    match serve_beside(alloc, upcall, &mut guarded.world, &mut guarded.sets, asked) {
        Ok(served) => Ok(served),
        Err(error) => {
            forget(alloc, &mut guarded.world, &mut guarded.sets);
            Err(error)
        }
    }
}
