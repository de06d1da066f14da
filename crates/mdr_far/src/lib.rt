//! The user half of a split run, for the whole language: it knows its own text, the plan and the messages alone.
#![tactic(auto)]

mod bytes;
mod half;
mod load_error;
mod local_far;
mod release;
mod source;

pub use half::UserHalf;
pub use load_error::LoadError;
pub use local_far::LocalFar;
