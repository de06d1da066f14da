// Calls of functions of the kernel half.

ghost use Rattle.std.specs.Prelude.{◌≡◌, IfOk, map};
ghost use Rattle.mdr_core.specs.Sound.{IsSound};
ghost use Rattle.mdr_events.specs.Values.{wires_of};
ghost use Rattle.mdr_model.specs.Memory.{normal};
ghost use Rattle.mdr_watch.specs.Watching.{IsFit, driver_in};
ghost use Rattle.mdr_turns.specs.Coming.{ComesAlways, DownBegins, KeptFor, goes_down};
ghost use Rattle.mdr_turns.specs.States.{IsActive};

use crate::backs::down_went;
use crate::replies::given;
use crate::state::{Active, Pending};
use mdr_core::{Items, OutOfMemory, Value};
use mdr_events::Crossing;
use mdr_model::{Down, Wire};
use mdr_watch::{Guarded, Watch, enter_below, sent};
use std::alloc::Global;

/// A function of the kernel half is called, up to its end or to where it calls back.
fn crossed<'a>(
    alloc: Global,
    watch: Watch<'a>,
    crossing: Crossing,
    active: Active<'a>,
) -> Result<Pending<'a>, OutOfMemory>
    requires sound { IsSound watch.program.now }
    requires fit { IsFit watch }
    requires active { IsActive watch active }
    ensures kept { IfOk result (KeptFor watch.entry) }
    ensures comes { IfOk result (λ p. DownBegins (driver_in watch.entry) p active.entry crossing) }
{
    let mut active = active;
    match enter_below(alloc, watch, &mut active.guarded, &crossing) {
        Ok(went) => down_went(alloc, watch, crossing, went, active),
        Err(error) => {
            drop(crossing);
            drop(active);
            Err(error)
        }
    }
}

/// What a reply passes, as it is now.
fn passed(alloc: Global, guarded: &Guarded, args: &[Wire]) -> Result<Items<Value>, OutOfMemory>
    ensures { IfOk result (λ vs. wires_of vs ≡ map (normal guarded.now.world.memory) args.now) }
{
    let values = given(alloc, guarded, args)?;
    let passed = sent(alloc, guarded.world(), values.as_slice())?;
    Ok(passed)
}

/// A reply calls a function of the kernel half.
pub(crate) fn goes_down<'a>(
    alloc: Global,
    watch: Watch<'a>,
    down: &Down,
    active: Active<'a>,
) -> Result<Pending<'a>, OutOfMemory>
    requires sound { IsSound watch.program.now }
    requires fit { IsFit watch }
    requires active { IsActive watch active }
    ensures kept { IfOk result (KeptFor watch.entry) }
    ensures comes { IfOk result (λ p. ComesAlways (driver_in watch.entry) p (goes_down (driver_in watch.entry) active.entry down.now)) }
{
    match passed(alloc, &active.guarded, down.args.as_slice()) {
        Ok(args) => {
            let crossing = Crossing {
                at: down.at,
                func: down.func,
                args,
                depth: down.depth,
            };
            crossed(alloc, watch, crossing, active)
        }
        Err(error) => {
            drop(active);
            Err(error)
        }
    }
}
