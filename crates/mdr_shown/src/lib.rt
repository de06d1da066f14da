//! What a run shows: the objects that the globals lead to, in the order in which they are met, beside the events and the
//! end. Each look-up of an object's number takes constant time, so that all of it takes the time of a look at each cell.
#![tactic(auto)]

mod finish;
mod met;
mod objects;
mod scan;
mod seen;

pub use finish::outcome;
