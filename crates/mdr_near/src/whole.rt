// A run, with what it shows and leaves.

ghost use Rattle.std.specs.Prelude.{◌≡◌, ◌≤◌, ◌+◌, ◌++◌, length, [], IfOk, OnErr};
ghost use Rattle.mdr_core.specs.Sound.{IsSound};
ghost use Rattle.mdr_exchanges.specs.Calls.{IsStopped, sends};
ghost use Rattle.mdr_exchanges.specs.Ends.{AreFew, IsAsBefore};
ghost use Rattle.mdr_exchanges.specs.Runs.{IsFarFault, IsRun, answers_of, run_over, sent_of};
ghost use Rattle.mdr_outside.specs.Count.{Rose};
ghost use Rattle.mdr_outside.specs.Far.{IsLoaded};
ghost use Rattle.mdr_plain.specs.Outcome.{outcome_of};
ghost use Rattle.mdr_plain.specs.Scripts.{finish};
ghost use Rattle.mdr_region.specs.Layout.{places_of};
ghost use Rattle.mdr_split.specs.AnyAnswers.{kernel_in};
ghost use Rattle.mdr_watch.specs.Watching.{IsFit, driver_in};

use crate::run::{Ended, run_script};
use mdr_bound::Bound;
use mdr_core::OutOfMemory;
use mdr_kernel_memory::snapshot;
use mdr_model::{End, MemoryBlock};
use mdr_outside::Far;
use mdr_plain::Outcome;
use mdr_shown::outcome;
use mdr_watch::Watch;
use mdr_world::World;
use std::alloc::Global;

/// What a run shows, and how many places of its memory are used then, and how many there are.
#[derive(Drop)]
pub(crate) struct Shown {
    pub(crate) outcome: Outcome,
    pub(crate) layout: (u64, u64),
}

/// The same, and the memory that the run leaves.
#[derive(Drop)]
struct Left {
    outcome: Outcome,
    memory: Vec<MemoryBlock>,
    layout: (u64, u64),
}

/// What is shown of a run that ended so, and its memory. Its events are taken.
fn left_in(alloc: Global, end: End, world: &mut World) -> Result<Left, OutOfMemory>
    ensures outcome { IfOk result (λ l. l.outcome ≡ outcome_of world.old.program (finish end world.old.world)) }
    ensures memory { IfOk result (λ l. l.memory.items ≡ world.old.world.memory) }
    ensures layout { IfOk result (λ l. l.layout ≡ places_of world.old.world.lives) }
{
    let layout = world.layout();
    let memory = snapshot(alloc, world)?.into_vec();
    let outcome = outcome(alloc, world, end)?;
    Ok(Left {
        outcome,
        memory,
        layout,
    })
}

/// What is shown of a run that ended so, and its memory.
fn left_by(alloc: Global, end: End, world: World) -> Result<Left, OutOfMemory>
    ensures outcome { IfOk result (λ l. l.outcome ≡ outcome_of world.entry.program (finish end world.entry.world)) }
    ensures memory { IfOk result (λ l. l.memory.items ≡ world.entry.world.memory) }
    ensures layout { IfOk result (λ l. l.layout ≡ places_of world.entry.world.lives) }
{
    let mut world = world;
    let left = left_in(alloc, end, &mut world);
    drop(world);
    left
}

/// Runs a script, and gives what the run shows and where its memory lies. It leaves its memory, and counts its messages.
pub(crate) fn run_whole<F: Far>(
    alloc: Global,
    watch: Watch,
    script: &Bound,
    ticks: u64,
    far: &mut F,
    memory: &mut Vec<MemoryBlock>,
    messages: &mut u64,
) -> Result<Shown, OutOfMemory>
    requires sound { IsSound watch.program.now }
    requires fit { IsFit watch }
    requires memory { memory.old.items ≡ [] }
    requires messages { messages.old ≡ 0 }
    requires loaded { IsLoaded (F.loaded far.old) }
    requires fresh { F.exchanges far.old ≡ [] }
    ensures run { IfOk result (λ s. IsRun (driver_in watch.entry) script.now ticks (F.exchanges far.new) s.outcome) }
    ensures cells { IfOk result (λ _. memory.new.items ≡ (kernel_in (run_over (driver_in watch.entry) script.now ticks (F.exchanges far.new)).pending).world.memory) }
    ensures layout { IfOk result (λ s. s.layout ≡ places_of (kernel_in (run_over (driver_in watch.entry) script.now ticks (F.exchanges far.new)).pending).world.lives) }
    ensures counted { IfOk result (λ _. messages.new ≡ length (F.exchanges far.new) + length (answers_of (F.exchanges far.new))) }
    ensures before { IfOk result (λ s. IsAsBefore (driver_in watch.entry) script.now ticks (F.exchanges far.new) memory.new.items s.outcome.end) }
    ensures few { IfOk result (λ s. AreFew (driver_in watch.entry) script.now ticks (F.exchanges far.new) messages.new s.outcome.ticks) }
    ensures called { IfOk result (λ _. F.calls far.new ≡ F.calls far.old ++ sends (sent_of (F.exchanges far.new))) }
    ensures stopped { OnErr result (IsStopped (driver_in watch.entry) script.now ticks (F.calls far.old) (F.calls far.new) (F.exchanges far.new) memory.new.items messages.new) }
    ensures fault { IfOk result (λ s. IsFarFault s.outcome.end → Rose (F.faults far.old) (F.faults far.new)) }
    ensures loaded { IfOk result (λ _. F.loaded far.new ≡ F.loaded far.old) }
    ensures faults_later { F.faults far.old ≤ F.faults far.new }
{
    let Ended { end, world } = run_script(alloc, watch, script, ticks, far, memory, messages)?;
    let Left {
        outcome,
        memory: left,
        layout,
    } = left_by(alloc, end, world)?;
    *memory = left;
    Ok(Shown { outcome, layout })
}
