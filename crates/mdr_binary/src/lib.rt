//! Operators between two operands, and `?:` (C99 6.5.5 to 6.5.15).
#![tactic(auto)]

mod choice;
mod compare;
mod joined;
mod number;
mod pointer;
mod value;

pub use choice::choice_rule;
pub use joined::{binary_rule, calculation_of};
