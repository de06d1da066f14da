//! The rules of what stands in statements: calls, assignments, initialisers and returns, and which values become which
//! others (C99 6.5, 6.7.8, 6.8.6.4).
#![tactic(auto)]

mod assigning;
mod becoming;
mod laws;
mod profile;
mod source;

pub use becoming::becomes;
pub use laws::becoming_is_exact;
pub use profile::ProfileRules;
pub use source::Source;
