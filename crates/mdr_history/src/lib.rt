//! All that happened so far as a list, which contracts see and which takes no bytes.
#![tactic(auto)]

mod history;

pub use history::{History, Tells};
