// A run over a far side, which is loaded first.

ghost use Rattle.std.specs.Prelude.{◌≡◌, ◌++◌, [], IfOk, length};
ghost use Rattle.mdr_core.specs.Sound.{IsSound};
ghost use Rattle.mdr_exchanges.specs.Calls.{sends};
ghost use Rattle.mdr_exchanges.specs.Runs.{IsFarFault, IsRun, run_over, sent_of};
ghost use Rattle.mdr_meaning.specs.Bodies.{known_of};
ghost use Rattle.mdr_outside.specs.Count.{Rose};
ghost use Rattle.mdr_outside.specs.Far.{IsLoaded};
ghost use Rattle.mdr_plain.specs.Scripts.{first_world};
ghost use Rattle.mdr_region.specs.Layout.{places_of};
ghost use Rattle.mdr_split.specs.AnyAnswers.{kernel_in};
ghost use Rattle.mdr_top.specs.Loads.{LoadedOnce, LoadedPart, SentPart};
ghost use Rattle.mdr_top.specs.Reports.{RanTo, nothing_ran, world_left};
ghost use Rattle.mdr_watched.specs.Driver.{driver_of};

use crate::cut_into::Cut;
use mdr_bound::Bound;
use mdr_core::{OutOfMemory, Plan, Program, RefuseKind};
use mdr_model::End;
use mdr_near::KernelHalf;
use mdr_outside::{Far, LoadAnswer};
use mdr_plain::Outcome;
use mdr_shown::outcome;
use mdr_world::World;
use std::alloc::Global;

/// What a run shows, and the layout of the kernel half's memory when it is over: how many places are used, and how many
/// there are.
#[derive(Drop)]
pub(crate) struct Left {
    pub(crate) outcome: Outcome,
    pub(crate) layout: (u64, u64),
}

/// What a run shows and leaves that ended so before it began anything.
fn nothing_ran(
    alloc: Global,
    program: &Program,
    script: &Bound,
    ticks: u64,
    end: End,
) -> Result<Left, OutOfMemory>
    requires { IsSound program.now }
    ensures outcome { IfOk result (λ l. l.outcome ≡ nothing_ran program.now script.now ticks end) }
    ensures laid { IfOk result (λ l. l.layout ≡ places_of (first_world (known_of program.now) script.now ticks).lives) }
{
    let mut world = World::new(alloc, program, script, ticks)?;
    let layout = world.layout();
    let outcome = outcome(alloc, &mut world, end)?;
    Ok(Left { outcome, layout })
}

/// Runs a script under a budget over a far side that was loaded and got no message since.
fn began<F: Far>(
    alloc: Global,
    program: &Program,
    plan: &Plan,
    script: &Bound,
    ticks: u64,
    far: &mut F,
) -> Result<Left, OutOfMemory>
    requires sound { IsSound program.now }
    requires fit { length plan.now.halves ≡ length program.now.funcs }
    requires loaded { IsLoaded (F.loaded far.old) }
    requires fresh { F.exchanges far.old ≡ [] }
    ensures began { IfOk result (λ l. IsRun (driver_of program.now plan.now) script.now ticks (F.exchanges far.new) l.outcome) }
    ensures laid { IfOk result (λ l. l.layout ≡ places_of (kernel_in (run_over (driver_of program.now plan.now) script.now ticks (F.exchanges far.new)).pending).world.lives) }
    ensures called { IfOk result (λ _. F.calls far.new ≡ F.calls far.old ++ sends (sent_of (F.exchanges far.new))) }
    ensures part { SentPart program.now plan.now script.now ticks (F.calls far.old) (F.calls far.new) (F.exchanges far.new) }
    ensures loaded { IfOk result (λ _. F.loaded far.new ≡ F.loaded far.old) }
    ensures failed { IfOk result (λ l. IsFarFault l.outcome.end → Rose (F.faults far.old) (F.faults far.new)) }
{
    let mut half = KernelHalf::new(alloc, program, plan);
    let outcome = half.run(alloc, script, ticks, far)?;
    let layout = half.layout();
    Ok(Left { outcome, layout })
}

/// Loads the texts of the user half and of the plan into the far side, and runs a script over it under a budget. Texts that
/// weren't taken are told as the end of a run that began nothing.
pub(crate) fn ran<F: Far>(
    alloc: Global,
    program: &Program,
    cut: &Cut,
    script: &Bound,
    ticks: u64,
    far: &mut F,
) -> Result<Left, OutOfMemory>
    requires sound { IsSound program.now }
    requires fit { length cut.now.plan.halves ≡ length program.now.funcs }
    ensures ran { IfOk result (λ l. RanTo program.now cut.now.plan cut.now.texts script.now ticks (F.loaded far.new) (F.exchanges far.new) l.outcome) }
    ensures laid { IfOk result (λ l. l.layout ≡ places_of (world_left program.now cut.now.plan script.now ticks (F.loaded far.new) (F.exchanges far.new)).lives) }
    ensures called { IfOk result (λ _. LoadedOnce cut.now.texts (F.calls far.old) (F.calls far.new) (sent_of (F.exchanges far.new))) }
    ensures part { LoadedPart program.now cut.now.plan cut.now.texts script.now ticks (F.calls far.old) (F.calls far.new) (F.exchanges far.new) }
    ensures failed { IfOk result (λ l. IsFarFault l.outcome.end → Rose (F.faults far.old) (F.faults far.new)) }
{
    let user = cut.texts.user.as_slice();
    let lines = cut.texts.plan.as_slice();
    match far.load(alloc, user, lines) {
        LoadAnswer::Ok => began(alloc, program, &cut.plan, script, ticks, far),
        LoadAnswer::Refused(_) => {
            let end = End::Refused(0, RefuseKind::Load, 0);
            nothing_ran(alloc, program, script, ticks, end)
        }
        LoadAnswer::Failed => nothing_ran(alloc, program, script, ticks, End::FarFault(0)),
        LoadAnswer::OutOfMemory => Err(OutOfMemory::passed_on()),
    }
}
