// Services that a reply asks for.

ghost use Rattle.std.specs.Prelude.{◌≡◌, IfOk};
ghost use Rattle.mdr_core.specs.Sound.{IsSound};
ghost use Rattle.mdr_events.specs.Events.{asked_as};
ghost use Rattle.mdr_events.specs.Values.{wires_of};
ghost use Rattle.mdr_split.specs.Services.{asked_of, counted};
ghost use Rattle.mdr_watch.specs.Watching.{driver_in};
ghost use Rattle.mdr_turns.specs.Coming.{ComesAlways, IsServed, KeptFor, OfEachAsked, asks};
ghost use Rattle.mdr_turns.specs.States.{IsActive, upcall_of};

use crate::ending::over_in;
use crate::replies::given;
use crate::sending::answer_told;
use crate::state::{Active, Open, Pending};
use mdr_core::{Items, OutOfMemory, Value};
use mdr_events::Asked;
use mdr_fits::entered_after;
use mdr_kernel_memory::wires_of;
use mdr_model::{Ask, End, Wire};
use mdr_services::Served;
use mdr_watch::{Upcall, Watch, ask};
use std::alloc::Global;

/// The wires of a service's results. The objects of locals that were born and those that died are counted.
fn results_of(
    alloc: Global,
    service: u32,
    args: &[Wire],
    results: &[Value],
    upcall: &mut Open,
) -> Result<Items<Wire>, OutOfMemory>
    ensures wires { IfOk result (λ ws. ws ≡ wires_of results.now) }
    ensures counted { IfOk result (λ _. OfEachAsked service args.now (λ asked. upcall_of upcall.new ≡ counted asked (wires_of results.now) (upcall_of upcall.old))) }
{
    let wires = wires_of(alloc, results)?;
    let now = entered_after(
        alloc,
        service,
        args,
        wires.as_slice(),
        upcall.entered.as_slice(),
    )?;
    upcall.entered = now;
    Ok(wires)
}

/// What a service gave is told.
fn answered<'a>(
    alloc: Global,
    watch: Watch<'a>,
    service: u32,
    args: &[Wire],
    results: &[Value],
    active: Active<'a>,
) -> Result<Pending<'a>, OutOfMemory>
    requires active { IsActive watch active }
    ensures kept { IfOk result (KeptFor watch.entry) }
    ensures comes { IfOk result (λ p. OfEachAsked service args.now (λ q. IsServed (driver_in watch.entry) p active.entry q (wires_of results.now))) }
{
    let mut active = active;
    match results_of(alloc, service, args, results, &mut active.open) {
        Ok(wires) => answer_told(alloc, watch, wires, active),
        Err(error) => {
            drop(active);
            Err(error)
        }
    }
}

/// A service is done, and what it gave is told.
fn served<'a>(
    alloc: Global,
    watch: Watch<'a>,
    args: &[Wire],
    asked: &Asked,
    active: Active<'a>,
) -> Result<Pending<'a>, OutOfMemory>
    requires sound { IsSound watch.program.now }
    requires active { IsActive watch active }
    requires args { wires_of asked.now.args ≡ args.now }
    ensures kept { IfOk result (KeptFor watch.entry) }
    ensures comes { IfOk result (λ p. ComesAlways (driver_in watch.entry) p (asks (driver_in watch.entry) active.entry (asked_as asked.now))) }
{
    let mut active = active;
    let upcall = Upcall {
        watch,
        func: active.open.func,
    };
    match ask(alloc, upcall, &mut active.guarded, asked) {
        Ok(Served::Done(results)) => answered(
            alloc,
            watch,
            asked.service,
            args,
            results.as_slice(),
            active,
        ),
        Ok(Served::Stop(kind)) => Ok(over_in(End::Stop(kind, Some(asked.at)), active)),
        Err(error) => {
            drop(active);
            Err(error)
        }
    }
}

/// A reply asks for a service.
pub(crate) fn asks<'a>(
    alloc: Global,
    watch: Watch<'a>,
    ask: Ask,
    active: Active<'a>,
) -> Result<Pending<'a>, OutOfMemory>
    requires sound { IsSound watch.program.now }
    requires active { IsActive watch active }
    ensures kept { IfOk result (KeptFor watch.entry) }
    ensures comes { IfOk result (λ p. ComesAlways (driver_in watch.entry) p (asks (driver_in watch.entry) active.entry (asked_of ask))) }
{
    let Ask {
        service,
        at,
        args,
        shapes,
        bytes,
        ..
    } = ask;
    let wires = args.as_slice();
    match given(alloc, &active.guarded, wires) {
        Ok(values) => {
            let asked = Asked {
                service,
                at,
                args: values,
                shapes,
                bytes,
            };
            let pending = served(alloc, watch, wires, &asked, active);
            drop(asked);
            pending
        }
        Err(error) => {
            drop(active);
            Err(error)
        }
    }
}
