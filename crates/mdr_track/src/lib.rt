//! Which block of the user half's memory is the copy of which object of the kernel half, and the two readings of a
//! pointer: by the kernel's serial, and by the user half's own block. Objects may point to one another in any way,
//! round in a circle too: a pair speaks of one object and one block, and of no pointer in them.
//!
//! It is for a user half that keeps its objects at places of its own.
#![tactic(auto)]

mod key;
mod laws;
mod tracker;

pub use laws::{
    a_cycle_with_an_alias_is_told, pairs_are_one_to_one, pairs_stay_matched, pointers_return,
    steps_keep_names,
};
pub use tracker::Tracker;
