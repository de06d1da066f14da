//! The grammar of sources, with the laws that it gives each source one tree or a first fault.
#![tactic(auto)]

mod laws;
pub mod parts;
pub mod sort;

pub use laws::{faults_have_no_tree, reading_is_exact, sources_have_one_tree};
