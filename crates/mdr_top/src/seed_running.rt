// The command that makes a driver and a script from a seed, and runs them.

ghost use Rattle.std.specs.Prelude.{◌≡◌, IfOk, OnErr};
ghost use Rattle.mdr_core.specs.Sound.{IsSound};
ghost use Rattle.mdr_due.specs.declared.status.Status.TheVariants as status;
ghost use Rattle.mdr_outside.specs.Count.{Rose};
ghost use Rattle.mdr_top.specs.SplitRuns.{IsSplitPart};
ghost use Rattle.mdr_top.specs.Generated.{budget, IsGeneratedRun};
ghost use Rattle.mdr_top.specs.Generates.{GeneratesOver, GeneratesOverPart, Generates, GeneratesPart, IsGenerated, IsGeneratedPart};

use crate::answering::told;
use crate::recipe::Recipe;
use crate::scripts::judged;
use crate::split_running::outcome_over;
use mdr_bound::Bound;
use mdr_core::OutOfMemory;
use mdr_due::{Due, Stage};
use mdr_gen::generate;
use mdr_outside::{Far, FarSeen};
use mdr_slicer::compiled;
use mdr_source::Source;
use std::alloc::Global;

/// The largest budget.
const TICKS: u64 = 100_000_000;

/// Runs the script over the two halves of the driver.
fn ran<F: Far>(
    alloc: Global,
    recipe: Recipe,
    source: &Source,
    script: &Bound,
    far: &mut F,
) -> Result<Due, OutOfMemory>
    requires { IsSound source.now.program }
    ensures done { IfOk result (λ due. IsGeneratedRun recipe source.now script.now (⟦<F as FarSeen>⟧.side far.old) (⟦<F as FarSeen>⟧.side far.new) due.status due.text.items) }
    ensures part { IsSplitPart source.now script.now budget (⟦<F as FarSeen>⟧.side far.old) (⟦<F as FarSeen>⟧.side far.new) }
    ensures failed { IfOk result (λ due. due.status ≡ status.FarFault → Rose (F.faults far.old) (F.faults far.new)) }
{
    let outcome = outcome_over(alloc, source, script, TICKS, far)?;
    let due = told(alloc, recipe, &source.program, &outcome, far.exchanges())?;
    Ok(due)
}

/// Judges the script's text, and runs it over the two halves of the driver. A seed's script is refused for no driver of its
/// own; where one were, memory would be wanting.
fn ran_over<F: Far>(
    alloc: Global,
    recipe: Recipe,
    source: &Source,
    lines: &[u8],
    far: &mut F,
) -> Result<Due, OutOfMemory>
    requires { IsSound source.now.program }
    ensures done { IfOk result (λ due. GeneratesOver recipe source.now lines.now (⟦<F as FarSeen>⟧.side far.old) (⟦<F as FarSeen>⟧.side far.new) due.status due.text.items) }
    ensures part { OnErr result (GeneratesOverPart source.now lines.now (⟦<F as FarSeen>⟧.side far.old) (⟦<F as FarSeen>⟧.side far.new)) }
    ensures failed { IfOk result (λ due. due.status ≡ status.FarFault → Rose (F.faults far.old) (F.faults far.new)) }
{
    let script = match judged(alloc, &source.program, lines) {
        Ok(Stage::Goes(script)) => script,
        Ok(Stage::Ends(due)) => {
            drop(due);
            return Err(OutOfMemory::unmet());
        }
        Err(error) => return Err(error),
    };
    let due = ran(alloc, recipe, source, &script, far);
    drop(script);
    due
}

/// Judges the driver's text and then the script's, and runs the script over the driver's two halves. The driver isn't
/// refused either.
fn ran_of<F: Far>(
    alloc: Global,
    recipe: Recipe,
    driver: &[u8],
    lines: &[u8],
    far: &mut F,
) -> Result<Due, OutOfMemory>
    ensures done { IfOk result (λ due. Generates recipe driver.now lines.now (⟦<F as FarSeen>⟧.side far.old) (⟦<F as FarSeen>⟧.side far.new) due.status due.text.items) }
    ensures part { OnErr result (GeneratesPart driver.now lines.now (⟦<F as FarSeen>⟧.side far.old) (⟦<F as FarSeen>⟧.side far.new)) }
    ensures failed { IfOk result (λ due. due.status ≡ status.FarFault → Rose (F.faults far.old) (F.faults far.new)) }
{
    let source = match compiled(alloc, driver) {
        Ok(Stage::Goes(source)) => source,
        Ok(Stage::Ends(due)) => {
            drop(due);
            return Err(OutOfMemory::unmet());
        }
        Err(error) => return Err(error),
    };
    let due = ran_over(alloc, recipe, &source, lines, far);
    drop(source);
    due
}

/// Makes the driver and the script of a seed, cuts the driver in two halves, and runs the script over them with the largest
/// budget: the kernel half here, and the user half in the far side, which is loaded with its text and the plan's. Tells how
/// many ticks, messages and blocks there were where the run ended by itself, and else its report.
pub fn generated<F: Far>(alloc: Global, recipe: Recipe, far: &mut F) -> Result<Due, OutOfMemory>
    ensures done { IfOk result (λ due. IsGenerated recipe (⟦<F as FarSeen>⟧.side far.old) (⟦<F as FarSeen>⟧.side far.new) due.status due.text.items) }
    ensures part { OnErr result (IsGeneratedPart recipe (⟦<F as FarSeen>⟧.side far.old) (⟦<F as FarSeen>⟧.side far.new)) }
    ensures failed { IfOk result (λ due. due.status ≡ status.FarFault → Rose (F.faults far.old) (F.faults far.new)) }
{
    let texts = generate(alloc, recipe.seed, recipe.size)?;
    let driver = texts.0.as_slice();
    let lines = texts.1.as_slice();
    ran_of(alloc, recipe, driver, lines, far)
}
