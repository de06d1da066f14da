//! Expressions (C99 6.5).
#![tactic(auto)]

mod calls;
mod form;
mod parts;

pub use calls::call_at;
pub use form::expression;
pub use parts::{both_made, left_over};
