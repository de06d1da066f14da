//! What the text of a user half and the text of its plan come to: the plan and the half's program, or which of the two is none.
#![tactic(auto)]

mod misfit;
mod outcome;
mod texts;

pub use misfit::Misfit;
pub use outcome::HalfSource;
pub use texts::half_source;
