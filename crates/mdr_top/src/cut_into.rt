// What a source is cut into for a run.

ghost use Rattle.std.specs.Prelude.{IfOk};
ghost use Rattle.mdr_core.specs.Sound.{IsSound};
ghost use Rattle.mdr_top.specs.CutInto.{IsCutInto};

use mdr_core::{OutOfMemory, Plan};
use mdr_cut::{Texts, plan_of, texts_of};
use mdr_source::Source;
use std::alloc::Global;

/// The plan of a source, and the texts of its halves and of the plan.
#[derive(Drop)]
pub(crate) struct Cut {
    pub(crate) plan: Plan,
    pub(crate) texts: Texts,
}

/// The plan of a source and its texts.
pub(crate) fn cut_of(alloc: Global, source: &Source) -> Result<Cut, OutOfMemory>
    requires { IsSound source.now.program }
    ensures { IfOk result (λ cut. IsCutInto source.now cut.plan cut.texts) }
{
    let plan = plan_of(alloc, &source.program)?;
    match texts_of(alloc, &source.tree, &source.program) {
        Ok(texts) => Ok(Cut { plan, texts }),
        Err(error) => {
            drop(plan);
            Err(error)
        }
    }
}
