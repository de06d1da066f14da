//! Copies of expressions and lvalues.
#![tactic(auto)]

mod expressions;
mod parts;

pub use expressions::{copied_expr, copied_lval};
