// User code runs up to its next event.

ghost use Rattle.std.specs.Prelude.{◌≡◌, ◌≤◌, IfOk, OnOk};
ghost use Rattle.mdr_core.specs.Sound.{IsSound};
ghost use Rattle.mdr_events.specs.Ready.{IsReady};
ghost use Rattle.mdr_exec.specs.Holding.{held_of};
ghost use Rattle.mdr_user_memory.specs.Kept.{past_in};
ghost use Rattle.mdr_user_code.specs.Replying.{RunReplies, RunsUserCode};
ghost use Rattle.mdr_user_code.specs.Standing.{IsFit, driver_in, opens_below};

use crate::release::given_up;
use crate::replying::settle;
use crate::scene::Scene;
use crate::state::State;
use mdr_copy::CellList;
use mdr_core::OutOfMemory;
use mdr_events::Event;
use mdr_exec::{Machine, Side};
use mdr_model::Message;
use mdr_user_memory::{SeenMemory, UserMemory};
use std::alloc::Global;
use std::mem;

/// Runs a machine with so many ticks, on the code of the user half.
fn go(
    machine: &mut Machine,
    alloc: Global,
    scene: Scene,
    memory: &mut SeenMemory,
    ticks: u64,
) -> Result<Event, OutOfMemory>
    requires sound { IsSound scene.program.now }
    requires fit { IsFit scene.plan.now scene.program.now }
    requires ready { IsReady (held_of scene.program.now machine.old) }
    ensures ran { IfOk result (λ e. RunsUserCode (driver_in scene.entry) machine.old memory.old ticks e machine.new memory.new) }
    ensures used { OnOk result (machine.new.used ≤ ticks) }
{
    machine.side = Side::User;
    let halves = scene.plan.halves.as_slice();
    let event = machine.go(alloc, scene.program, halves, memory, ticks)?;
    Ok(event)
}

/// Runs what the machine holds, with so many ticks, over what is seen: the reply, and what is open behind it.
pub(crate) fn run(
    alloc: Global,
    scene: Scene,
    state: &mut State,
    rest: u64,
    view: CellList,
) -> Result<Message, OutOfMemory>
    requires sound { IsSound scene.program.now }
    requires fit { IsFit scene.plan.now scene.program.now }
    requires ready { IsReady (held_of scene.program.now state.old.machine) }
    requires below { opens_below (driver_in scene) state.old.below }
    ensures replies { IfOk result (λ r. RunReplies (driver_in scene.entry) state.old rest view r state.new) }
    ensures past { OnOk result (past_in state.new.memory ≡ past_in state.old.memory) }
{
    state.memory.is_paired();
    let memory = mem::replace(&mut state.memory, UserMemory::new(alloc));
    let mut seen = memory.seen(view);
    match go(&mut state.machine, alloc, scene, &mut seen, rest) {
        Ok(event) => {
            let reply = settle(alloc, state, rest, seen, &event)?;
            Ok(reply)
        }
        Err(error) => given_up(error, seen),
    }
}
