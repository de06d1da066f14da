//! The typed code of a source's bodies, which is lowered to that of a program.
#![tactic(auto)]

mod activity;
mod code;

pub use activity::{is_active, is_active_place};
pub use code::{CallForm, Callee, Clause, Expr, Lval, Step, Stmt};
