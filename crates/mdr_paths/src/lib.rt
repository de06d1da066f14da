//! Paths in a graph, whatever its nodes are: which nodes have one, and how they are found.
#![tactic(auto)]

mod laws;
mod turned;
mod worklist;

pub use laws::paths_have_laws;
pub use turned::turned_edges;
pub use worklist::{mark_all, marked_nodes, marks_of, reached};
