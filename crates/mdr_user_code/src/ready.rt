// The machine is made ready for a message: a function is started in it, or it goes on with answers.

ghost use Rattle.std.specs.Prelude.{◌≡◌, ◌≤◌, [], ◌∷◌, List, length, true, OnOk};
ghost use Rattle.mdr_core.specs.declared.value.Value.{Value as AnyValue};
ghost use Rattle.mdr_events.specs.Values.{wires_of};
ghost use Rattle.mdr_exec.specs.Holding.{FitQuestion, waits};
ghost use Rattle.mdr_watched.specs.Driver.{is_user};
ghost use Rattle.mdr_user_code.specs.declared.opening.Opening.TheVariants as opening;
ghost use Rattle.mdr_user_code.specs.declared.opening.Turn.{Turn as AnyTurn};
ghost use Rattle.mdr_user_code.specs.Opening.{downcall, opening_for, suspended_by};
ghost use Rattle.mdr_user_code.specs.Replying.{Begins, IsResumed, IsStarted, Prepared, Resumed};
ghost use Rattle.mdr_user_code.specs.Standing.{IsFit, Opens, driver_in};

use crate::opening::downcall;
use crate::replying::put;
use crate::scene::Scene;
use crate::state::{State, Suspended};
use crate::values::values_of;
use mdr_core::{Items, OutOfMemory, Value};
use mdr_exec::{Machine, Side};
use mdr_model::{Call, Message, Wire};
use std::alloc::Global;
use std::mem;

/// Starts the function of a call in a machine, over nothing. What the machine held is gone.
fn restart(
    alloc: Global,
    scene: Scene,
    machine: &mut Machine,
    call: &Call,
) -> Result<(), OutOfMemory>
    requires fit { IsFit scene.plan.now scene.program.now }
    requires user { is_user scene.plan.now call.now.func ≡ true }
    requires depth { call.now.depth ≤ 255 }
    ensures { OnOk result (IsStarted (driver_in scene.entry) call.now machine.new) }
{
    let args = call.args.as_slice();
    let values = values_of(alloc, args)?;
    put(machine, Machine::new(alloc, Side::User));
    machine.start(
        alloc,
        scene.program,
        call.func,
        values.as_slice(),
        call.depth,
    )?;
    Ok(())
}

/// User code that waits for a downcall goes below the upcall that begins.
fn suspend(alloc: Global, state: &mut State) -> Result<(), OutOfMemory>
    ensures memory { OnOk result (state.new.memory ≡ state.old.memory) }
    ensures below { OnOk result (state.new.below ≡ suspended_by (downcall state.old.awaits) state.old) }
{
    let waiting = downcall(state);
    let mut below = mem::replace(&mut state.below, Items::new(alloc)).into_vec();
    match waiting {
        Some(down) => {
            let machine = mem::replace(&mut state.machine, Machine::new(alloc, Side::User));
            let func = state.func;
            let suspended = Suspended {
                machine,
                func,
                down,
            };
            below.insert(0, suspended)?;
            put(&mut state.below, Items::from_vec(below));
            Ok(())
        }
        None => Ok(()),
    }
}

fn start(alloc: Global, scene: Scene, state: &mut State, call: &Call) -> Result<(), OutOfMemory>
    requires fit { IsFit scene.plan.now scene.program.now }
    requires user { is_user scene.plan.now call.now.func ≡ true }
    requires depth { call.now.depth ≤ 255 }
    ensures { OnOk result (Begins (driver_in scene.entry) call.now state.old state.new) }
{
    suspend(alloc, state)?;
    restart(alloc, scene, &mut state.machine, call)?;
    state.func = call.func;
    Ok(())
}

/// Goes on with the answers of the question that is open.
fn resume(machine: &mut Machine, results: &[Value])
    requires waiting { waits machine.old.front ≡ true }
    requires fit { FitQuestion machine.old.front results.now }
    ensures { IsResumed (wires_of results.now) machine.old machine.new }
{
    machine.resume(results);
}

fn answer(alloc: Global, state: &mut State, results: &[Wire]) -> Result<(), OutOfMemory>
    requires waiting { waits state.old.machine.front ≡ true }
    requires fit { (vs : List AnyValue) → length vs ≡ length results.now → FitQuestion state.old.machine.front vs }
    ensures { OnOk result (Resumed results.now state.old state.new) }
{
    let values = values_of(alloc, results)?;
    resume(&mut state.machine, values.as_slice());
    Ok(())
}

fn give_back(alloc: Global, state: &mut State, value: Wire) -> Result<(), OutOfMemory>
    requires waiting { waits state.old.machine.front ≡ true }
    requires fit { (vs : List AnyValue) → FitQuestion state.old.machine.front vs }
    ensures { OnOk result (Resumed (value ∷ []) state.old state.new) }
{
    answer(alloc, state, &[value])?;
    Ok(())
}

/// Makes the machine ready for a message that was accepted.
pub(crate) fn prepare(
    alloc: Global,
    scene: Scene,
    state: &mut State,
    message: &Message,
) -> Result<(), OutOfMemory>
    requires fit { IsFit scene.plan.now scene.program.now }
    requires opens { Opens (driver_in scene) state.old }
    requires goes { (turn : AnyTurn) × (opening_for (driver_in scene) state.old message.now ≡ opening.Goes turn) }
    ensures { OnOk result (Prepared (driver_in scene.entry) state.old message.now state.new) }
{
    match message {
        Message::Call(call) => start(alloc, scene, state, call),
        Message::Back(back) => give_back(alloc, state, back.result),
        Message::Answer(answer_to) => answer(alloc, state, answer_to.results.as_slice()),
        Message::Reply(_) => unreachable!(),
        Message::Refuse(_) => unreachable!(),
    }
}
