// The reply of an event, and what is open behind it.

ghost use Rattle.std.specs.Prelude.{◌≡◌, ◌≤◌, ◌-◌, map, IfOk, OnOk};
ghost use Rattle.mdr_events.specs.Values.{wires_of};
ghost use Rattle.mdr_meaning.specs.Values.{wire_of};
ghost use Rattle.mdr_model.specs.declared.reply.Reply.TheVariants as replies;
ghost use Rattle.mdr_model.specs.Copies.{changes, put_runs};
ghost use Rattle.mdr_model.specs.Memory.{normal};
ghost use Rattle.mdr_model.specs.ReplyFaults.{stop_number};
ghost use Rattle.mdr_user_code.specs.Replying.{IsSettled, ask_as, down_as, ended, question_as, replied_as, rested_by, state_behind, stop_as, told_as};

use crate::state::{Awaits, Downcall, Question, State};
use crate::values::wires_of;
use mdr_copy::{RisingBlocks, normal, normals, wire_of};
use mdr_core::{At, Items, OutOfMemory, StopKind, Value};
use mdr_events::{Asked, Crossing, Event};
use mdr_model::{Ask, Down, Message, Reply, Return, Run, Stop, Wire, stop_number};
use mdr_user_memory::{SeenMemory, gather};
use std::alloc::Global;
use std::mem;

/// Values as messages carry them.
fn told_values(
    alloc: Global,
    memory: &RisingBlocks,
    values: &[Value],
) -> Result<Items<Wire>, OutOfMemory>
    ensures { IfOk result (λ vs. vs ≡ map (normal memory.now) (wires_of values.now)) }
{
    let wires = wires_of(alloc, values)?;
    let told = normals(alloc, memory, wires.as_slice())?;
    Ok(told)
}

/// The question for a service.
fn ask(
    alloc: Global,
    ticks: u64,
    memory: &RisingBlocks,
    runs: Items<Run>,
    asked: &Asked,
) -> Result<Ask, OutOfMemory>
    ensures { IfOk result (λ a. a ≡ ask_as ticks memory.now runs asked.now) }
{
    Ok(Ask {
        ticks,
        at: asked.at,
        service: asked.service,
        args: told_values(alloc, memory, asked.args.as_slice())?,
        shapes: Items::from_slice(alloc, asked.shapes.as_slice())?,
        bytes: Items::from_slice(alloc, asked.bytes.as_slice())?,
        runs,
    })
}

/// The call of a function of the kernel half.
fn call_down(
    alloc: Global,
    ticks: u64,
    memory: &RisingBlocks,
    runs: Items<Run>,
    crossing: &Crossing,
) -> Result<Down, OutOfMemory>
    ensures { IfOk result (λ d. d ≡ down_as ticks memory.now runs crossing.now) }
{
    Ok(Down {
        ticks,
        at: crossing.at,
        depth: crossing.depth,
        func: crossing.func,
        args: told_values(alloc, memory, crossing.args.as_slice())?,
        runs,
    })
}

fn stop(ticks: u64, kind: StopKind, at: At, runs: Items<Run>) -> Reply
    ensures { result ≡ replies.Stop (stop_as ticks (stop_number kind) at runs) }
{
    Reply::Stop(Stop {
        ticks,
        stop: stop_number(kind),
        at,
        runs,
    })
}

/// The reply of an event, with the ticks since the message.
fn tell(
    alloc: Global,
    ticks: u64,
    memory: &RisingBlocks,
    runs: Items<Run>,
    event: &Event,
) -> Result<Reply, OutOfMemory>
    ensures { IfOk result (λ r. r ≡ replied_as ticks memory.now runs event.now) }
{
    match event {
        Event::Done(value) => Ok(Reply::Return(Return {
            ticks,
            result: normal(memory, wire_of(*value)),
            runs,
        })),
        Event::Cross(crossing) => Ok(Reply::Down(call_down(alloc, ticks, memory, runs, crossing)?)),
        Event::Service(asked) => Ok(Reply::Ask(ask(alloc, ticks, memory, runs, asked)?)),
        Event::TicksOut(at) => Ok(stop(ticks, StopKind::Ticks, *at, runs)),
        Event::Stop(kind, at) => Ok(stop(ticks, *kind, *at, runs)),
    }
}

fn question_of(alloc: Global, asked: &Asked) -> Result<Question, OutOfMemory>
    ensures { IfOk result (λ q. q ≡ question_as asked.now) }
{
    Ok(Question {
        service: asked.service,
        at: asked.at,
        args: wires_of(alloc, asked.args.as_slice())?,
        shapes: Items::from_slice(alloc, asked.shapes.as_slice())?,
        bytes: Items::from_slice(alloc, asked.bytes.as_slice())?,
    })
}

/// Puts a value in place of another.
pub(crate) fn put<T: Drop>(place: &mut T, value: T)
    ensures { place.new ≡ value }
{
    *place = value;
}

/// Where an upcall ended, the user code below it waits again.
fn rest(alloc: Global, state: &mut State)
    ensures { state.new ≡ rested_by state.old.below state.old }
{
    let mut below = mem::replace(&mut state.below, Items::new(alloc)).into_vec();
    if below.is_empty() {
        put(&mut state.awaits, Awaits::Nothing);
    } else {
        let waiting = below.remove(0);
        put(&mut state.machine, waiting.machine);
        state.func = waiting.func;
        put(&mut state.awaits, Awaits::Back(waiting.down));
        put(&mut state.below, Items::from_vec(below));
    }
}

/// A stop ends all upcalls.
fn end(alloc: Global, state: &mut State)
    ensures { state.new ≡ ended state.old }
{
    put(&mut state.awaits, Awaits::Nothing);
    put(&mut state.below, Items::new(alloc));
}

/// What is open behind an event that left so many ticks is kept.
fn keep(alloc: Global, state: &mut State, event: &Event, left: u64) -> Result<(), OutOfMemory>
    ensures { OnOk result (state.new ≡ state_behind left event.now state.old) }
{
    match event {
        Event::Done(_) => rest(alloc, state),
        Event::Cross(crossing) => {
            let down = Downcall {
                func: crossing.func,
                depth: crossing.depth,
            };
            put(&mut state.awaits, Awaits::Back(down));
        }
        Event::Service(asked) => {
            let question = question_of(alloc, asked)?;
            put(&mut state.awaits, Awaits::Answer(question, left));
        }
        Event::TicksOut(_) => end(alloc, state),
        Event::Stop(_, _) => end(alloc, state),
    }
    Ok(())
}

/// The reply of an event, where the machine ran with so many ticks on this memory. Both halves agree then on the changes
/// that are told, which are all that it left.
pub(crate) fn settle(
    alloc: Global,
    state: &mut State,
    rest: u64,
    memory: SeenMemory,
    event: &Event,
) -> Result<Message, OutOfMemory>
    requires used { state.old.machine.used ≤ rest }
    requires told { put_runs (changes memory.view memory.agreed memory.memory) memory.agreed ≡ memory.memory }
    ensures reply { IfOk result (λ r. r ≡ told_as state.old.machine.used memory.memory (changes memory.view memory.agreed memory.memory) event.now) }
    ensures state { OnOk result (IsSettled state.old rest memory event.now state.new) }
{
    let used = state.machine.used();
    let runs = gather(alloc, &memory)?;
    keep(alloc, state, event, rest - used)?;
    let settled = memory.settled(runs.as_slice());
    put(&mut state.memory, settled.memory);
    put(&mut state.view, settled.view);
    let reply = tell(alloc, used, state.memory.agreed(), runs, event)?;
    Ok(Message::Reply(reply))
}
