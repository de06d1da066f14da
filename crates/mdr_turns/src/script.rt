// The commands of a script, up to the first message.

ghost use Rattle.std.specs.Prelude.{◌≡◌, [], drop, IfOk};
ghost use Rattle.mdr_core.specs.Sound.{IsSound};
ghost use Rattle.mdr_slice.specs.Calls.{names_of};
ghost use Rattle.mdr_split.specs.Kernel.{beginning, split_commands};
ghost use Rattle.mdr_watch.specs.Watching.{IsFit, driver_in};
ghost use Rattle.mdr_turns.specs.declared.state.Pending.TheVariants as pending;
ghost use Rattle.mdr_turns.specs.Coming.{ComesTo, KeptFor};
ghost use Rattle.mdr_turns.specs.States.{IsBetween, kernel_at};

use crate::commands::command;
use crate::state::{Between, Commanded, Ledger, Pending};
use mdr_core::{Items, OutOfMemory};
use mdr_kernel_memory::snapshot;
use mdr_model::{Command, End};
use mdr_slice::names_of;
use mdr_watch::Watch;
use mdr_world::World;
use std::alloc::Global;

/// The run is over behind the last command.
fn over<'a>(end: End, between: Between<'a>) -> Pending<'a>
    ensures { result ≡ pending.Over end between.entry.world }
{
    let Between { world, ledger } = between;
    drop(ledger);
    Pending::Over(end, world)
}

/// The commands of a script from a place on, up to the first message.
#[tactic(auto, unfolding(mdr_split::specs::Kernel::split_commands))]
pub(crate) fn do_commands<'a>(
    alloc: Global,
    watch: Watch<'a>,
    script: &[Command],
    from: usize,
    between: Between<'a>,
) -> Result<Pending<'a>, OutOfMemory>
    requires sound { IsSound watch.program.now }
    requires fit { IsFit watch }
    requires between { IsBetween watch between }
    ensures kept { IfOk result (KeptFor watch.entry) }
    ensures comes { IfOk result (λ p. ComesTo (driver_in watch.entry) p script.now (split_commands (driver_in watch.entry) (drop from script.now) (kernel_at between.entry))) }
{
    let mut between = between;
    for i in from..script.len() {
        match command(alloc, watch, &script[i], between, i + 1)? {
            Commanded::Goes(left) => between = left,
            Commanded::Rests(pending) => return Ok(pending),
        }
    }
    Ok(over(End::Ok, between))
}

/// What is kept as a run begins: all blocks are agreed.
fn first_ledger(alloc: Global, watch: Watch, world: &World) -> Result<Ledger, OutOfMemory>
    ensures passes { IfOk result (λ l. l.passes ≡ names_of watch.entry.program.now) }
    ensures agreed { IfOk result (λ l. l.agreed ≡ world.now.world.memory) }
    ensures none { IfOk result (λ l. l.exchanges ≡ 0) }
{
    let names = names_of(alloc, watch.program)?;
    let agreed = snapshot(alloc, world)?;
    Ok(Ledger {
        agreed,
        exchanges: 0,
        passes: Items::from_vec(names),
    })
}

/// Begins a run: the commands of its script are done up to the first message.
pub fn begun<'a>(
    alloc: Global,
    watch: Watch<'a>,
    script: &[Command],
    world: World<'a>,
) -> Result<Pending<'a>, OutOfMemory>
    requires sound { IsSound watch.program.now }
    requires fit { IsFit watch }
    requires same { world.program ≡ watch.program.now }
    requires alone { world.world.views ≡ [] }
    ensures kept { IfOk result (KeptFor watch.entry) }
    ensures comes { IfOk result (λ r. ComesTo (driver_in watch.entry) r script.now (split_commands (driver_in watch.entry) script.now (beginning world.entry.world))) }
{
    match first_ledger(alloc, watch, &world) {
        Ok(ledger) => {
            let pending = do_commands(alloc, watch, script, 0, Between { world, ledger })?;
            Ok(pending)
        }
        Err(error) => {
            drop(world);
            Err(error)
        }
    }
}
