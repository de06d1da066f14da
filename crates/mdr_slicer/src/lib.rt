//! The commands that cut a source: its texts, written to files, and its report.
#![tactic(auto)]

mod cutting;
mod outputs;
mod reporting;
mod sources;
mod writing;

pub use cutting::split;
pub use reporting::report;
pub use sources::{compiled, source_of};
