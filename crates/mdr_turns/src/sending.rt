// The messages that the kernel half sends.

ghost use Rattle.std.specs.Prelude.{◌≡◌, [], ◌∷◌, IfOk};
ghost use Rattle.mdr_events.specs.Values.{wires_of};
ghost use Rattle.mdr_meaning.specs.Values.{wire_of};
ghost use Rattle.mdr_model.specs.Copies.{tells};
ghost use Rattle.mdr_plain.specs.World.{done};
ghost use Rattle.mdr_split.specs.Kernel.{answers, comes_back};
ghost use Rattle.mdr_watch.specs.Watching.{driver_in};
ghost use Rattle.mdr_turns.specs.Coming.{ActiveGoesOn, WaitingGoesOn, KeptFor, TellsCall};
ghost use Rattle.mdr_turns.specs.States.{IsActive, StandsFor, answer_of, back_of, begins, call_of, sent_with, told_by, told_unseen, upcall_of};

use crate::seeing::seen;
use crate::state::{Active, Callee, Ledger, Pending, Seen, Waiting};
use mdr_copy::{RisingBlocks, tells, wire_of};
use mdr_core::{Items, Limit, OutOfMemory, Program, Value, below};
use mdr_kernel_memory::wires_of;
use mdr_model::{Answer, Back, Call, Cell, Message, Told, Wire};
use mdr_watch::Watch;
use std::alloc::Global;

/// A message with these values is told, and counted.
fn tell(
    alloc: Global,
    program: &Program,
    view: &[Cell],
    memory: &RisingBlocks,
    values: &[Wire],
    ledger: &mut Ledger,
) -> Result<Told, OutOfMemory>
    ensures told { IfOk result (λ t. t ≡ tells program.now view.now values.now ledger.old.agreed memory.now) }
    ensures kept { IfOk result (λ t. ledger.new ≡ sent_with program.now t ledger.old) }
{
    below(ledger.exchanges, Limit::Messages)?;
    let more = ledger.exchanges + 1;
    let agreed = std::mem::replace(&mut ledger.agreed, RisingBlocks::new(alloc));
    let (told, left) = tells(alloc, program, view, values, agreed, memory)?;
    ledger.agreed = left;
    ledger.exchanges = more;
    Ok(told)
}

// ---- an upcall

/// The message of an upcall.
fn call_message(
    alloc: Global,
    program: &Program,
    callee: Callee,
    seen: &Seen,
    ledger: &mut Ledger,
) -> Result<Message, OutOfMemory>
    ensures is { IfOk result (λ m. m ≡ call_of program.now callee.entry seen.now ledger.old) }
    ensures kept { IfOk result (λ m. ledger.new ≡ sent_with program.now (told_by program.now seen.now (wires_of callee.entry.args.now) ledger.old) ledger.old) }
{
    let args = wires_of(alloc, callee.args)?;
    let view = seen.view.as_slice();
    let memory = &seen.memory;
    let told = tell(alloc, program, view, memory, args.as_slice(), ledger)?;
    Ok(Message::Call(Call {
        func: callee.func,
        depth: callee.depth,
        rest: seen.tally.rest,
        args,
        told,
    }))
}

/// It is sent.
fn call_sent<'a>(
    alloc: Global,
    watch: Watch<'a>,
    callee: Callee,
    waiting: Waiting<'a>,
) -> Result<Pending<'a>, OutOfMemory>
    requires stands { StandsFor watch waiting }
    requires begins { upcall_of waiting.open ≡ begins callee.func callee.depth }
    ensures kept { IfOk result (KeptFor watch.entry) }
    ensures comes { IfOk result (λ p. TellsCall (driver_in watch.entry) p callee.entry (done waiting.entry.seen.guarded.world) waiting.entry.ledger waiting.entry.behind) }
{
    let mut waiting = waiting;
    let lent = &mut waiting;
    match call_message(alloc, watch.program, callee, &lent.seen, &mut lent.ledger) {
        Ok(message) => Ok(Pending::Waits(message, waiting)),
        Err(error) => {
            drop(waiting);
            Err(error)
        }
    }
}

/// An upcall is told that is active, and in which nothing was done yet.
pub(crate) fn call_told<'a>(
    alloc: Global,
    watch: Watch<'a>,
    callee: Callee,
    active: Active<'a>,
) -> Result<Pending<'a>, OutOfMemory>
    requires active { IsActive watch active }
    requires begins { upcall_of active.open ≡ begins callee.func callee.depth }
    ensures kept { IfOk result (KeptFor watch.entry) }
    ensures comes { IfOk result (λ p. TellsCall (driver_in watch.entry) p callee.entry (done active.entry.guarded.world) active.entry.ledger active.entry.behind) }
{
    let waiting = seen(alloc, active)?;
    call_sent(alloc, watch, callee, waiting)
}

// ---- the result of a downcall

/// The message with the result of a downcall.
fn back_message(
    alloc: Global,
    program: &Program,
    value: Wire,
    seen: &Seen,
    ledger: &mut Ledger,
) -> Result<Message, OutOfMemory>
    ensures is { IfOk result (λ m. m ≡ back_of program.now value seen.now ledger.old) }
    ensures kept { IfOk result (λ m. ledger.new ≡ sent_with program.now (told_by program.now seen.now (value ∷ []) ledger.old) ledger.old) }
{
    let view = seen.view.as_slice();
    let memory = &seen.memory;
    let told = tell(alloc, program, view, memory, &[value], ledger)?;
    Ok(Message::Back(Back {
        rest: seen.tally.rest,
        result: value,
        told,
    }))
}

/// It is sent.
fn back_sent<'a>(
    alloc: Global,
    watch: Watch<'a>,
    value: Wire,
    waiting: Waiting<'a>,
) -> Result<Pending<'a>, OutOfMemory>
    requires stands { StandsFor watch waiting }
    ensures kept { IfOk result (KeptFor watch.entry) }
    ensures comes { IfOk result (λ p. WaitingGoesOn (driver_in watch.entry) p waiting.entry (comes_back (driver_in watch.entry) value waiting.entry.seen.guarded.world)) }
{
    let mut waiting = waiting;
    let lent = &mut waiting;
    match back_message(alloc, watch.program, value, &lent.seen, &mut lent.ledger) {
        Ok(message) => Ok(Pending::Waits(message, waiting)),
        Err(error) => {
            drop(waiting);
            Err(error)
        }
    }
}

/// The result of a downcall is told, behind which the set was taken anew.
pub(crate) fn back_told<'a>(
    alloc: Global,
    watch: Watch<'a>,
    value: Value,
    active: Active<'a>,
) -> Result<Pending<'a>, OutOfMemory>
    requires active { IsActive watch active }
    ensures kept { IfOk result (KeptFor watch.entry) }
    ensures comes { IfOk result (λ p. ActiveGoesOn (driver_in watch.entry) p active.entry (comes_back (driver_in watch.entry) (wire_of value) active.entry.guarded.world)) }
{
    let waiting = seen(alloc, active)?;
    back_sent(alloc, watch, wire_of(value), waiting)
}

// ---- the results of a service

/// The message with the results of a service, which tells of no cells.
fn answer_message(
    alloc: Global,
    program: &Program,
    results: Items<Wire>,
    seen: &Seen,
    ledger: &mut Ledger,
) -> Result<Message, OutOfMemory>
    ensures is { IfOk result (λ m. m ≡ answer_of program.now results seen.now ledger.old) }
    ensures kept { IfOk result (λ m. ledger.new ≡ sent_with program.now (told_unseen program.now seen.now results ledger.old) ledger.old) }
{
    let memory = &seen.memory;
    let told = tell(alloc, program, &[], memory, results.as_slice(), ledger)?;
    Ok(Message::Answer(Answer {
        results,
        deaths: told.deaths,
        news: told.news,
    }))
}

/// It is sent.
fn answer_sent<'a>(
    alloc: Global,
    watch: Watch<'a>,
    results: Items<Wire>,
    waiting: Waiting<'a>,
) -> Result<Pending<'a>, OutOfMemory>
    requires stands { StandsFor watch waiting }
    ensures kept { IfOk result (KeptFor watch.entry) }
    ensures comes { IfOk result (λ p. WaitingGoesOn (driver_in watch.entry) p waiting.entry (answers (driver_in watch.entry) results waiting.entry.seen.guarded.world)) }
{
    let mut waiting = waiting;
    let lent = &mut waiting;
    match answer_message(alloc, watch.program, results, &lent.seen, &mut lent.ledger) {
        Ok(message) => Ok(Pending::Waits(message, waiting)),
        Err(error) => {
            drop(waiting);
            Err(error)
        }
    }
}

/// The results of a service are told, and no cells.
pub(crate) fn answer_told<'a>(
    alloc: Global,
    watch: Watch<'a>,
    results: Items<Wire>,
    active: Active<'a>,
) -> Result<Pending<'a>, OutOfMemory>
    requires active { IsActive watch active }
    ensures kept { IfOk result (KeptFor watch.entry) }
    ensures comes { IfOk result (λ p. ActiveGoesOn (driver_in watch.entry) p active.entry (answers (driver_in watch.entry) results active.entry.guarded.world)) }
{
    match seen(alloc, active) {
        Ok(waiting) => answer_sent(alloc, watch, results, waiting),
        Err(error) => Err(error),
    }
}
