// An answer is judged.

ghost use Rattle.std.specs.Prelude.{◌≡◌, List, Some, IfOk};
ghost use Rattle.mdr_core.specs.Sound.{IsSound};
ghost use Rattle.mdr_model.specs.declared.command.Command.{Command as AnyCommand};
ghost use Rattle.mdr_split.specs.Kernel.{answered, refused};
ghost use Rattle.mdr_split.specs.Legal.{fault_of};
ghost use Rattle.mdr_watch.specs.declared.watch.Watch.{Watch as AnyWatch};
ghost use Rattle.mdr_watch.specs.Watching.{IsFit, driver_in};
ghost use Rattle.mdr_watched.specs.Driver.{Driver as AnyDriver};
ghost use Rattle.mdr_turns.specs.Coming.{ComesTo, KeptFor, from_waiting};
ghost use Rattle.mdr_turns.specs.States.{IsActive, StandsFor, kernel_in, kernel_of, open_of, rest_of};

use crate::ending::over_in;
use crate::state::{Active, Pending, Seen, Waiting};
use crate::taken::taken;
use mdr_core::{OutOfMemory, RefuseKind};
use mdr_legal::{Standing, fault_of};
use mdr_model::{Command, End, Fault, Reply};
use mdr_watch::Watch;
use std::alloc::Global;

/// The first fault of a reply.
fn fault_in(watch: Watch, waiting: &Waiting, reply: &Reply) -> Option<Fault>
    requires sound { IsSound watch.program.now }
    requires stands { StandsFor watch waiting.now }
    ensures { result ≡ fault_of (driver_in watch.entry) (kernel_of waiting.now) (open_of waiting.now) (rest_of (driver_in watch.entry) waiting.now.behind.frames) reply.now }
{
    let standing = Standing {
        program: watch.program,
        plan: watch.plan,
        passes: waiting.ledger.passes.as_slice(),
        agreed: &waiting.ledger.agreed,
        memory: &waiting.seen.memory,
        view: &waiting.seen.view,
        func: waiting.open.func,
        depth: waiting.open.depth,
        entered: waiting.open.entered.as_slice(),
        exchanges: waiting.ledger.exchanges,
        below: waiting.seen.tally.below,
        ticks: waiting.seen.tally.ticks,
        rest: waiting.seen.tally.rest,
        calls: waiting.seen.tally.calls,
    };
    fault_of(standing, reply)
}

/// The kernel half without what it saw when it sent its message.
fn active_in<'a>(waiting: Waiting<'a>) -> Active<'a>
    ensures kernel { kernel_in result ≡ kernel_of waiting.entry }
    ensures open { result.open ≡ waiting.entry.open }
    ensures behind { result.behind ≡ waiting.entry.behind }
    ensures kept { (watch : AnyWatch) → StandsFor watch waiting.entry → IsActive watch result }
{
    let Waiting {
        seen,
        ledger,
        open,
        behind,
    } = waiting;
    let Seen {
        guarded,
        memory,
        view,
        ..
    } = seen;
    drop(memory);
    drop(view);
    Active {
        guarded,
        ledger,
        open,
        behind,
    }
}

/// A reply with a fault ends the run, and nothing of it is applied.
pub(crate) fn refused<'a>(fault: Fault, waiting: Waiting<'a>) -> Pending<'a>
    ensures kept { (watch : AnyWatch) → StandsFor watch waiting.entry → KeptFor watch result }
    ensures comes { (d : AnyDriver) (script : List AnyCommand) → ComesTo d result script (refused fault (kernel_of waiting.entry)) }
{
    let exchange = waiting.ledger.exchanges;
    let end = End::Refused(exchange, fault.kind, fault.number);
    over_in(end, active_in(waiting))
}

/// A reply is judged: one with a fault is refused, and any other does what it says.
fn judged<'a>(
    alloc: Global,
    watch: Watch<'a>,
    script: &[Command],
    waiting: Waiting<'a>,
    reply: Reply,
) -> Result<Pending<'a>, OutOfMemory>
    requires sound { IsSound watch.program.now }
    requires fit { IsFit watch }
    requires stands { StandsFor watch waiting }
    ensures kept { IfOk result (KeptFor watch.entry) }
    ensures comes { IfOk result (λ p. ComesTo (driver_in watch.entry) p script.now (from_waiting (driver_in watch.entry) waiting.entry script.now (answered (driver_in watch.entry) (Some reply)))) }
{
    match fault_in(watch, &waiting, &reply) {
        Some(fault) => {
            drop(reply);
            Ok(refused(fault, waiting))
        }
        None => taken(alloc, watch, script, active_in(waiting), reply),
    }
}

/// An answer that is a message: one that is no reply isn't awaited.
pub(crate) fn answered<'a>(
    alloc: Global,
    watch: Watch<'a>,
    script: &[Command],
    waiting: Waiting<'a>,
    reply: Option<Reply>,
) -> Result<Pending<'a>, OutOfMemory>
    requires sound { IsSound watch.program.now }
    requires fit { IsFit watch }
    requires stands { StandsFor watch waiting }
    ensures kept { IfOk result (KeptFor watch.entry) }
    ensures comes { IfOk result (λ p. ComesTo (driver_in watch.entry) p script.now (from_waiting (driver_in watch.entry) waiting.entry script.now (answered (driver_in watch.entry) reply))) }
{
    match reply {
        Some(reply) => judged(alloc, watch, script, waiting, reply),
        None => {
            let fault = Fault {
                kind: RefuseKind::NotAwaited,
                number: 0,
            };
            Ok(refused(fault, waiting))
        }
    }
}
