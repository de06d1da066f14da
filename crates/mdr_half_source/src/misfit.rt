// Which of two texts is none of a user half.

use thiserror::Error;

/// Which of two texts is none of a user half.
#[derive(Clone, Copy, Debug, Error)]
pub enum Misfit {
    #[error("the plan is none")]
    Plan,
    #[error("the source is no user half with this plan")]
    Source,
}
