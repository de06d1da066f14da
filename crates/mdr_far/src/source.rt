// The program and the plan of two texts.

ghost use Rattle.mdr_far.specs.Halves.{ReadAs};

use crate::load_error::LoadError;
use mdr_half_source::{HalfSource, Misfit, half_source};
use std::alloc::Global;

/// The program of a user half's text, with the plan of the other.
pub(crate) fn source(alloc: Global, user: &[u8], plan: &[u8]) -> Result<HalfSource, LoadError>
    ensures { ReadAs user.now plan.now result }
{
    match half_source(alloc, user, plan)? {
        Ok(source) => Ok(source),
        Err(Misfit::Plan) => Err(LoadError::Plan),
        Err(Misfit::Source) => Err(LoadError::Source),
    }
}
