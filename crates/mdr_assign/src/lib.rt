//! Assignments (C99 6.5.16), and `++` and `--` (C99 6.5.2.4, 6.5.3.1).
#![tactic(auto)]

mod assignment;
mod step;

pub use assignment::{Assignment, Destination, assignment_rule, destination_at, told_instead};
pub use step::{bump_rule, step_operator, step_rule};
