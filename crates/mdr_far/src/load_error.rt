// Why a user half isn't loaded.

ghost use Rattle.std.specs.Prelude.{◌≡◌};
ghost use Rattle.mdr_far.specs.declared.load_error.LoadError.TheVariants.{OutOfMemory as Wanting};

use mdr_core::OutOfMemory;
use thiserror::Error;

/// Why a user half isn't loaded.
#[derive(Clone, Copy, Debug, Error)]
pub enum LoadError {
    #[error("the plan is none")]
    Plan,
    #[error("the source has no program that suits the plan")]
    Source,
    #[error("out of memory")]
    OutOfMemory,
}

impl From<OutOfMemory> for LoadError {
    ghost from_gives = { λ _ e. e ≡ Wanting };

    fn from(_e: OutOfMemory) -> LoadError {
        LoadError::OutOfMemory
    }
}
