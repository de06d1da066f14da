// What is due for a run of a seed's driver and script.

ghost use Rattle.std.specs.Prelude.{◌≡◌, IfOk};
ghost use Rattle.mdr_due.specs.declared.status.Status.TheVariants as status;
ghost use Rattle.mdr_gen.specs.Answer.{answer_text};
ghost use Rattle.mdr_top.specs.Generated.{counts_of, IsTold};

use crate::messages::messages_in;
use crate::recipe::Recipe;
use crate::reporting::reported;
use mdr_core::{OutOfMemory, Program};
use mdr_due::{Due, Status};
use mdr_gen::{Counts, answer_text};
use mdr_model::End;
use mdr_outside::Exchange;
use mdr_plain::Outcome;
use std::alloc::Global;

/// What is counted of a run.
fn counts_of(outcome: &Outcome, exchanges: &[Exchange]) -> Counts
    ensures { result ≡ counts_of outcome.now exchanges.now }
{
    Counts {
        ticks: outcome.ticks,
        messages: messages_in(exchanges),
        live: outcome.live,
    }
}

/// The counts of a run that ended by itself.
fn counted(alloc: Global, recipe: Recipe, counts: Counts) -> Result<Due, OutOfMemory>
    ensures { IfOk result (λ due. (due.status ≡ status.Done) × (due.text.items ≡ answer_text recipe.seed recipe.size counts)) }
{
    Ok(Due {
        status: Status::Done,
        text: answer_text(alloc, recipe.seed, recipe.size, counts)?,
    })
}

/// The counts of a run that ended by itself, and the report of any other.
pub(crate) fn told(
    alloc: Global,
    recipe: Recipe,
    program: &Program,
    outcome: &Outcome,
    exchanges: &[Exchange],
) -> Result<Due, OutOfMemory>
    ensures { IfOk result (λ due. IsTold recipe program.now exchanges.now outcome.now due.status due.text.items) }
{
    match &outcome.end {
        End::Ok => counted(alloc, recipe, counts_of(outcome, exchanges)),
        _ => reported(alloc, program, outcome),
    }
}
