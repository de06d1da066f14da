// Why bytes are no plan's text.

ghost use Rattle.std.specs.Prelude.{◌≡◌};
ghost use Rattle.mdr_plan.specs.declared.plan_error.PlanError.TheVariants.{OutOfMemory as Wanting};

use mdr_core::OutOfMemory;
use std::alloc::{AllocError, AllocFailed};

/// Why a line is refused.
#[derive(Clone, Copy)]
pub enum PlanKind {
    /// It has the form of no line of a plan, or the text ended.
    Form,
    /// No line of its form may stand there, whatever its numbers, names and types are.
    Order,
    /// Another line of its form may stand there.
    Range,
}

/// Why bytes are no plan's text.
#[derive(Clone, Copy)]
pub enum PlanError {
    /// The first line, counted from 1, that no plan's text goes on with, or the text's end before its last line.
    Line(u32, PlanKind),
    OutOfMemory,
}

impl From<AllocError> for PlanError {
    ghost from_gives = { λ _ e. e ≡ Wanting };

    fn from(_e: AllocError) -> PlanError {
        PlanError::OutOfMemory
    }
}

impl<T: Drop> From<AllocFailed<T>> for PlanError {
    ghost from_gives = { λ _ e. e ≡ Wanting };

    fn from(_e: AllocFailed<T>) -> PlanError {
        PlanError::OutOfMemory
    }
}

impl From<OutOfMemory> for PlanError {
    ghost from_gives = { λ _ e. e ≡ Wanting };

    fn from(_e: OutOfMemory) -> PlanError {
        PlanError::OutOfMemory
    }
}
