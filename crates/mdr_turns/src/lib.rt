//! The kernel half of a split run from an answer to its next message: it judges the answer, does what a legal one says, and
//! does the commands of the script up to the next message. What each step comes to is what `mdr_split` says of it.
//!
//! Code of the kernel half that calls back waits in a machine of its own, in a `Frame`, until the upcall returns.
#![tactic(auto)]

mod answers;
mod applied;
mod asks;
mod backs;
mod commands;
mod downs;
mod ending;
mod judged;
mod replies;
mod returns;
mod script;
mod seeing;
mod sending;
mod state;
mod taken;
mod upcalls;

pub use answers::{next, unanswered};
pub use script::begun;
pub use state::{Pending, Waiting};
