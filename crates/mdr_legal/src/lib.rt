//! Which replies are legal: the first fault of a reply, where the kernel half waits for an answer.
#![tactic(auto)]

mod asked;
mod places;
mod replies;
mod standing;
mod statements;
mod values;

pub use replies::fault_of;
pub use standing::Standing;
