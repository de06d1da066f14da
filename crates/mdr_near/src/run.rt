// The run of a script over a far side.

ghost use Rattle.std.specs.Prelude.{◌≡◌, ◌≤◌, ◌+◌, ◌++◌, length, [], IfOk, OnOk, OnErr};
ghost use Rattle.mdr_core.specs.Sound.{IsSound};
ghost use Rattle.mdr_exchanges.specs.Calls.{IsPlace, IsStopped, sends};
ghost use Rattle.mdr_exchanges.specs.Runs.{IsFarFault, answers_of, sent_of};
ghost use Rattle.mdr_near.specs.Endings.{EndsIn};
ghost use Rattle.mdr_near.specs.Turns.{IsHeld};
ghost use Rattle.mdr_outside.specs.Count.{Rose};
ghost use Rattle.mdr_outside.specs.Far.{IsLoaded};
ghost use Rattle.mdr_watch.specs.Watching.{IsFit, driver_in};

use crate::turn::{Turn, first, turned};
use mdr_bound::Bound;
use mdr_copy::copied;
use mdr_core::{Limit, OutOfMemory, spent};
use mdr_model::{End, MemoryBlock};
use mdr_outside::Far;
use mdr_turns::Pending;
use mdr_watch::Watch;
use mdr_world::World;
use std::alloc::Global;

/// How a run ended, and its state then.
#[derive(Drop)]
pub(crate) struct Ended<'a> {
    pub(crate) end: End,
    pub(crate) world: World<'a>,
}

/// Holds the memory of the place where the run waits.
fn hold(alloc: Global, pending: &Pending, memory: &mut Vec<MemoryBlock>) -> Result<(), OutOfMemory>
    ensures held { OnOk result (IsHeld pending.now memory.old.items memory.new.items) }
    ensures left { OnErr result (memory.new.items ≡ memory.old.items) }
{
    match pending {
        Pending::Over(_, _) => Ok(()),
        Pending::Waits(_, waiting) => {
            *memory = copied(alloc, waiting.cells())?;
            Ok(())
        }
    }
}

/// Runs a script to its end. It counts the messages, and holds the memory of the place where the run waits.
pub(crate) fn run_script<'a, F: Far>(
    alloc: Global,
    watch: Watch<'a>,
    script: &Bound,
    ticks: u64,
    far: &mut F,
    memory: &mut Vec<MemoryBlock>,
    messages: &mut u64,
) -> Result<Ended<'a>, OutOfMemory>
    requires sound { IsSound watch.program.now }
    requires fit { IsFit watch }
    requires memory { memory.old.items ≡ [] }
    requires messages { messages.old ≡ 0 }
    requires loaded { IsLoaded (F.loaded far.old) }
    requires fresh { F.exchanges far.old ≡ [] }
    ensures kept { IfOk result (λ r. r.world.program ≡ watch.entry.program.now) }
    ensures ended { IfOk result (λ r. EndsIn (driver_in watch.entry) script.now ticks (F.exchanges far.new) r.end r.world.world) }
    ensures called { IfOk result (λ _. F.calls far.new ≡ F.calls far.old ++ sends (sent_of (F.exchanges far.new))) }
    ensures counted { IfOk result (λ _. messages.new ≡ length (F.exchanges far.new) + length (answers_of (F.exchanges far.new))) }
    ensures place { IfOk result (λ _. IsPlace (driver_in watch.entry) script.now ticks (answers_of (F.exchanges far.new)) memory.new.items) }
    ensures stopped { OnErr result (IsStopped (driver_in watch.entry) script.now ticks (F.calls far.old) (F.calls far.new) (F.exchanges far.new) memory.new.items messages.new) }
    ensures loaded { IfOk result (λ _. F.loaded far.new ≡ F.loaded far.old) }
    ensures failed { IfOk result (λ r. IsFarFault r.end → Rose (F.faults far.old) (F.faults far.new)) }
    ensures faults_later { F.faults far.old ≤ F.faults far.new }
{
    let mut pending = first(alloc, watch, script, ticks)?;
    let mut turns: u64 = 0;
    while turns < u64::MAX {
        turns += 1;
        if let Err(error) = hold(alloc, &pending, memory) {
            drop(pending);
            return Err(error);
        }
        match pending {
            Pending::Over(end, world) => return Ok(Ended { end, world }),
            Pending::Waits(message, waiting) => {
                match turned(alloc, watch, script, message, waiting, far, messages)? {
                    Turn::Next(next) => pending = next,
                    Turn::Unanswered(number, world) => {
                        let end = End::FarFault(number);
                        return Ok(Ended { end, world });
                    }
                }
            }
        }
    }
    drop(pending);
    Err(spent(turns, Limit::Turns))
}
