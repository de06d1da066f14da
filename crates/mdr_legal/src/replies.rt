// Which replies are legal.

ghost use Rattle.std.specs.Prelude.{◌≡◌, ◌∷◌, [], ◌&&◌, nat_le, nat_lt};
ghost use Rattle.mdr_core.specs.Sound.{IsSound};
ghost use Rattle.mdr_model.specs.declared.reply.Reply.TheVariants as replies;
ghost use Rattle.mdr_model.specs.Faults.{fault, first_fault};
ghost use Rattle.mdr_model.specs.ReplyFaults.{is_stop};
ghost use Rattle.mdr_slice.specs.Calls.{names_of};
ghost use Rattle.mdr_split.specs.Legal.{fault_of, has_none, is_awaited};
ghost use Rattle.mdr_split.specs.Services.{asked_of};
ghost use Rattle.mdr_split.specs.State.{Kernel, Open, Rest};
ghost use Rattle.mdr_watched.specs.Driver.{driver_of};
ghost use Rattle.mdr_legal.specs.Waiting.{IsWhere, fault_at, kernel_at, runs_fault_at, service_fault_at, stub_fault_at};

use crate::asked::service_fault;
use crate::places::{has_down_stub, is_ask_place, is_user_place};
use crate::standing::Standing;
use crate::values::{call_args_fault, fits_upcall, reply_runs_fault};
use mdr_core::RefuseKind;
use mdr_model::{Ask, Down, Fault, Reply, Return, Stop, user_stop};

fn fault(kind: RefuseKind) -> Option<Fault>
    ensures { result ≡ Some (fault kind 0) }
{
    Some(Fault { kind, number: 0 })
}

/// The first fault of two tests.
fn first_of(found: Option<Fault>, last: Option<Fault>) -> Option<Fault>
    ensures { result ≡ first_fault (found ∷ last ∷ []) }
{
    match found {
        Some(fault) => Some(fault),
        None => match last {
            Some(fault) => Some(fault),
            None => None,
        },
    }
}

/// Whether a reply that asks for something is awaited: the run keeps to 8 messages for each tick and 6 for each
/// command, with those that end the upcalls that are open.
#[tactic(auto, unfolding(mdr_split::specs::Legal::is_awaited))]
fn is_awaited(standing: Standing, ticks: u64) -> bool
    ensures { result ≡ is_awaited (kernel_at standing.entry) ticks }
{
    let told = ticks.min(standing.rest);
    let ending = standing.below as u128 + 1;
    let sent = 2 * standing.exchanges as u128 + 2 * ending;
    let ticked = standing.ticks as u128 + told as u128;
    sent <= 8 * ticked + 6 * standing.calls as u128
}

fn has_none(serials: &[u64]) -> bool
    ensures { result ≡ has_none serials.now }
{
    match serials {
        [] => true,
        [_, ..] => false,
    }
}

#[tactic(auto, unfolding(mdr_split::specs::Legal::fault_of))]
fn return_fault(standing: Standing, returned: &Return) -> Option<Fault>
    requires sound { IsSound standing.program.now }
    requires names { standing.passes.now ≡ names_of standing.program.now }
    ensures { result ≡ fault_at standing.entry (replies.Return returned.now) }
{
    if !(returned.ticks <= standing.rest) {
        fault(RefuseKind::TooManyTicks)
    } else if !fits_upcall(standing, returned.result) {
        fault(RefuseKind::BadResult)
    } else if !has_none(standing.entered) {
        fault(RefuseKind::StillEntered)
    } else {
        first_of(None, reply_runs_fault(standing, returned.runs.as_slice()))
    }
}

/// Whether so many active functions are more than before the upcall, and no more than there can be.
fn is_depth(before: u32, depth: u32) -> bool
    ensures { result ≡ (nat_lt before depth && nat_le depth 255) }
{
    before < depth && depth <= 255
}

/// The fault of a downcall behind its depth.
fn stub_fault(standing: Standing, down: &Down) -> Option<Fault>
    requires sound { IsSound standing.program.now }
    requires names { standing.passes.now ≡ names_of standing.program.now }
    ensures { result ≡ stub_fault_at standing.entry down.now }
{
    if !has_down_stub(standing, down.func) {
        fault(RefuseKind::NoStub)
    } else {
        first_of(
            call_args_fault(standing, down.func, down.args.as_slice()),
            reply_runs_fault(standing, down.runs.as_slice()),
        )
    }
}

#[tactic(auto, unfolding(mdr_split::specs::Legal::fault_of))]
fn down_fault(standing: Standing, down: &Down) -> Option<Fault>
    requires sound { IsSound standing.program.now }
    requires names { standing.passes.now ≡ names_of standing.program.now }
    ensures { result ≡ fault_at standing.entry (replies.Down down.now) }
{
    if !is_awaited(standing, down.ticks) {
        fault(RefuseKind::NotAwaited)
    } else if !(down.ticks <= standing.rest) {
        fault(RefuseKind::TooManyTicks)
    } else if !is_user_place(standing, down.at) {
        fault(RefuseKind::BadPlace)
    } else if !is_depth(standing.depth, down.depth) {
        fault(RefuseKind::BadDepth)
    } else {
        stub_fault(standing, down)
    }
}

/// The fault of what a service is asked for with, and of the runs.
fn question_fault(standing: Standing, ask: &Ask) -> Option<Fault>
    requires sound { IsSound standing.program.now }
    requires names { standing.passes.now ≡ names_of standing.program.now }
    ensures { result ≡ first_fault (service_fault_at standing.entry (asked_of ask.now) ∷ runs_fault_at standing.entry ask.now.runs ∷ []) }
{
    first_of(
        service_fault(standing, ask),
        reply_runs_fault(standing, ask.runs.as_slice()),
    )
}

#[tactic(auto, unfolding(mdr_split::specs::Legal::fault_of))]
fn ask_fault(standing: Standing, ask: &Ask) -> Option<Fault>
    requires sound { IsSound standing.program.now }
    requires names { standing.passes.now ≡ names_of standing.program.now }
    ensures { result ≡ fault_at standing.entry (replies.Ask ask.now) }
{
    if !is_awaited(standing, ask.ticks) {
        fault(RefuseKind::NotAwaited)
    } else if !(ask.ticks <= standing.rest) {
        fault(RefuseKind::TooManyTicks)
    } else if !is_ask_place(standing, ask.service, ask.at) {
        fault(RefuseKind::BadPlace)
    } else {
        question_fault(standing, ask)
    }
}

/// Whether user code may stop so. A run that is out of ticks has used them all.
fn is_stop(number: u32, ticks: u64, rest: u64) -> bool
    ensures { result ≡ is_stop number ticks rest }
{
    user_stop(number).is_some() && (!(number == 16) || ticks == rest)
}

#[tactic(auto, unfolding(mdr_split::specs::Legal::fault_of))]
fn stop_fault(standing: Standing, stop: &Stop) -> Option<Fault>
    requires sound { IsSound standing.program.now }
    requires names { standing.passes.now ≡ names_of standing.program.now }
    ensures { result ≡ fault_at standing.entry (replies.Stop stop.now) }
{
    if !(stop.ticks <= standing.rest) {
        fault(RefuseKind::TooManyTicks)
    } else if !is_user_place(standing, stop.at) {
        fault(RefuseKind::BadPlace)
    } else if !is_stop(stop.stop, stop.ticks, standing.rest) {
        fault(RefuseKind::BadStop)
    } else {
        first_of(None, reply_runs_fault(standing, stop.runs.as_slice()))
    }
}

fn reply_fault(standing: Standing, reply: &Reply) -> Option<Fault>
    requires sound { IsSound standing.program.now }
    requires names { standing.passes.now ≡ names_of standing.program.now }
    ensures { result ≡ fault_at standing.entry reply.now }
{
    match reply {
        Reply::Return(returned) => return_fault(standing, returned),
        Reply::Down(down) => down_fault(standing, down),
        Reply::Ask(ask) => ask_fault(standing, ask),
        Reply::Stop(stop) => stop_fault(standing, stop),
    }
}

/// The first fault of a reply, in the order of the refusals, where the kernel half waits.
pub fn fault_of(standing: Standing, reply: &Reply) -> Option<Fault>
    requires sound { IsSound standing.program.now }
    requires names { standing.passes.now ≡ names_of standing.program.now }
    ensures { (k : Kernel) (upcall : Open) → IsWhere standing.entry k upcall → (rest : Rest) → result ≡ fault_of (driver_of standing.entry.program.now standing.entry.plan.now) k upcall rest reply.now }
{
    reply_fault(standing, reply)
}
