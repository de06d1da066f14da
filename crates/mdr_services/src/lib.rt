//! The services of the kernel, done to a world: allocations, registers, texts, the handler of interrupts, locks, and the
//! objects of locals. `serve` answers any question, also one that no sound program asks. Beside it, what notes the events
//! of commands.
#![tactic(auto)]

mod allocation;
mod answer;
mod arguments;
mod commands;
mod freeing;
mod interrupts;
mod locking;
mod objects;
mod registers;
mod service;
mod serving;
mod sizes;
mod texts;
mod values;

pub use answer::Served;
pub use commands::{note_call, note_idle, note_return, say, show};
pub use service::Service;
pub use serving::serve;
