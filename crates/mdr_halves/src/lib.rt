//! Three texts that should be those of the two halves of a source and of its plan: the source, or why they are not.
//!
//! Proved: the texts are refused exactly where no accepted source is cut into them, and all sources that are cut into the
//! same texts have one program.
#![tactic(auto)]

mod differing;
mod joining;
mod laws;
mod mismatch;
mod put;
mod reading;
mod texts;

pub use laws::{refused_texts_are_of_no_source, texts_are_of_one_program};
pub use mismatch::{Mismatch, Which};
pub use put::mismatch_line;
pub use texts::source_of_texts;
