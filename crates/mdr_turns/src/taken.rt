// What a legal reply does.

ghost use Rattle.std.specs.Prelude.{◌≡◌, None, IfOk};
ghost use Rattle.mdr_core.specs.Sound.{IsSound};
ghost use Rattle.mdr_split.specs.Kernel.{taken};
ghost use Rattle.mdr_split.specs.Legal.{fault_of};
ghost use Rattle.mdr_watch.specs.Watching.{IsFit, driver_in};
ghost use Rattle.mdr_turns.specs.Coming.{ComesTo, KeptFor, from_active};
ghost use Rattle.mdr_turns.specs.States.{IsActive, kernel_in, rest_of, upcall_of};

use crate::applied::applied;
use crate::asks::asks;
use crate::downs::goes_down;
use crate::ending::over_in;
use crate::returns::continued;
use crate::state::{Active, Pending};
use mdr_core::{OutOfMemory, StopKind};
use mdr_model::{Command, End, Reply, user_stop};
use mdr_watch::Watch;
use std::alloc::Global;

/// What a legal reply does.
#[tactic(auto, unfolding(mdr_split::specs::Kernel::taken))]
pub(crate) fn taken<'a>(
    alloc: Global,
    watch: Watch<'a>,
    script: &[Command],
    active: Active<'a>,
    reply: Reply,
) -> Result<Pending<'a>, OutOfMemory>
    requires sound { IsSound watch.program.now }
    requires fit { IsFit watch }
    requires active { IsActive watch active }
    requires legal { fault_of (driver_in watch) (kernel_in active) (upcall_of active.open) (rest_of (driver_in watch) active.behind.frames) reply ≡ None }
    ensures kept { IfOk result (KeptFor watch.entry) }
    ensures comes { IfOk result (λ p. ComesTo (driver_in watch.entry) p script.now (from_active (driver_in watch.entry) active.entry script.now (taken (driver_in watch.entry) reply))) }
{
    match reply {
        Reply::Return(returned) => {
            let active = applied(active, returned.ticks, returned.runs.as_slice());
            continued(alloc, watch, script, returned.result, active)
        }
        Reply::Down(down) => {
            let active = applied(active, down.ticks, down.runs.as_slice());
            goes_down(alloc, watch, &down, active)
        }
        Reply::Ask(ask) => {
            let active = applied(active, ask.ticks, ask.runs.as_slice());
            asks(alloc, watch, ask, active)
        }
        Reply::Stop(said) => {
            let active = applied(active, said.ticks, said.runs.as_slice());
            let kind = user_stop(said.stop).unwrap_or(StopKind::Bug);
            Ok(over_in(End::Stop(kind, Some(said.at)), active))
        }
    }
}
