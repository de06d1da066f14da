// One message.

ghost use Rattle.std.specs.Prelude.{◌≡◌, [], true, Ok, IfOk, OnOk};
ghost use Rattle.mdr_core.specs.Sound.{IsSound};
ghost use Rattle.mdr_model.specs.declared.message.Message.TheVariants as message_is;
ghost use Rattle.mdr_model.specs.Refusals.{is_refusal};
ghost use Rattle.mdr_user_memory.specs.Kept.{LivesTo};
ghost use Rattle.mdr_user_memory.specs.Lived.{lived_by};
ghost use Rattle.mdr_watched.specs.Driver.{driver_of};
ghost use Rattle.mdr_user_code.specs.declared.opening.Opening.TheVariants as opening;
ghost use Rattle.mdr_user_code.specs.Opening.{opening_for};
ghost use Rattle.mdr_user_code.specs.Replying.{Proceeds};
ghost use Rattle.mdr_user_code.specs.Standing.{Follows, GoesOnTo, IsFit, IsReplied, Opens, Replies, driver_in};
ghost use Rattle.mdr_user_code.specs.Tidings.{TellsTo, deaths_in, news_in};

use crate::first::first_memory;
use crate::opening::{Opening, Turn, opens};
use crate::ready::prepare;
use crate::running::run;
use crate::scene::Scene;
use crate::sight::Sight;
use crate::state::{Awaits, State};
use crate::tidings::tidings;
use mdr_copy::{CellList, RisingBlocks};
use mdr_core::{Items, OutOfMemory, Plan, Program};
use mdr_exec::{Machine, Side};
use mdr_model::{Fault, Message};
use mdr_user_memory::UserMemory;
use std::alloc::Global;

/// The state before any message.
pub fn begins(alloc: Global, program: &Program, plan: &Plan) -> Result<State, OutOfMemory>
    requires { IsSound program.now }
    ensures { IfOk result (λ s. Follows (driver_of program.now plan.now) [] s) }
{
    let _ = plan;
    let agreed = first_memory(alloc, program)?;
    let memory = UserMemory::of_copy(alloc, agreed)?;
    let entered = Items::new(alloc);
    let below = Items::new(alloc);
    Ok(State {
        memory,
        machine: Machine::new(alloc, Side::User),
        func: 0,
        entered,
        view: CellList::of(Items::new(alloc)),
        awaits: Awaits::Nothing,
        below,
    })
}

/// A refusal changes nothing.
fn refused(reason: u32) -> Message
    ensures { result ≡ message_is.Refuse reason }
{
    Message::Refuse(reason)
}

/// The memory takes what a message tells.
fn take(
    alloc: Global,
    scene: Scene,
    memory: &mut UserMemory,
    message: &Message,
    copy: RisingBlocks,
) -> Result<(), OutOfMemory>
    requires { TellsTo (driver_in scene) memory.old.agreed message.now copy }
    ensures copy { OnOk result (memory.new.agreed ≡ copy) }
    ensures lived { OnOk result (LivesTo (lived_by scene.entry.program.now (deaths_in message.now) (news_in message.now)) memory.old memory.new) }
{
    memory.take(alloc, scene.program, tidings(message), copy)?;
    Ok(())
}

/// User code goes on with a message.
fn proceed(
    alloc: Global,
    scene: Scene,
    state: &mut State,
    message: &Message,
    turn: Turn,
) -> Result<Message, OutOfMemory>
    requires sound { IsSound scene.program.now }
    requires fit { IsFit scene.plan.now scene.program.now }
    requires opens { Opens (driver_in scene) state.old }
    requires goes { opening_for (driver_in scene) state.old message.now ≡ opening.Goes turn }
    requires tells { TellsTo (driver_in scene) state.old.memory.agreed message.now turn.sight.copy }
    ensures { IfOk result (λ r. Proceeds (driver_in scene.entry) state.old message.now turn r state.new) }
{
    prepare(alloc, scene, state, message)?;
    let Turn {
        rest,
        entered,
        sight,
    } = turn;
    let Sight { view, copy } = sight;
    state.entered = entered;
    take(alloc, scene, &mut state.memory, message, copy)?;
    let reply = run(alloc, scene, state, rest, view)?;
    Ok(reply)
}

fn deliver(
    alloc: Global,
    scene: Scene,
    state: &mut State,
    message: &Message,
) -> Result<Message, OutOfMemory>
    requires sound { IsSound scene.program.now }
    requires fit { IsFit scene.plan.now scene.program.now }
    requires opens { Opens (driver_in scene) state.old }
    ensures { IfOk result (λ r. Replies (driver_in scene.entry) state.old (Ok message.now) r state.new) }
{
    let opening = opens(alloc, scene, state, message)?;
    match opening {
        Opening::Refuses(reason) => Ok(refused(reason)),
        Opening::Goes(turn) => {
            let reply = proceed(alloc, scene, state, message, turn)?;
            Ok(reply)
        }
    }
}

fn reply_to(
    alloc: Global,
    scene: Scene,
    state: &mut State,
    message: &Result<Message, Fault>,
) -> Result<Message, OutOfMemory>
    requires sound { IsSound scene.program.now }
    requires fit { IsFit scene.plan.now scene.program.now }
    requires opens { Opens (driver_in scene) state.old }
    ensures { IfOk result (λ r. Replies (driver_in scene.entry) state.old message.now r state.new) }
{
    match message {
        Ok(message) => deliver(alloc, scene, state, message),
        Err(_fault) => Ok(refused(1)),
    }
}

/// The reply to a message, which is read already. One that is refused leaves the state as it was. Where memory is wanting,
/// nothing is promised of the state.
pub fn delivered(
    alloc: Global,
    program: &Program,
    plan: &Plan,
    state: &mut State,
    message: &Result<Message, Fault>,
) -> Result<Message, OutOfMemory>
    requires sound { IsSound program.now }
    requires fit { IsFit plan.now program.now }
    requires opens { Opens (driver_of program.now plan.now) state.old }
    ensures reply { IfOk result (IsReplied (driver_of program.now plan.now) state.old message.now) }
    ensures follows { OnOk result (GoesOnTo (driver_of program.now plan.now) state.old message.now state.new) }
    ensures refused { IfOk result (λ r. is_refusal r ≡ true → state.new ≡ state.old) }
{
    let scene = Scene { program, plan };
    let reply = reply_to(alloc, scene, state, message)?;
    Ok(reply)
}
