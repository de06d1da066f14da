//! The run of a script for a driver's code on one memory, with its machine, interrupts, services and device: what it shows
//! is what `mdr_plain` says of it. The code is all of the driver's, or one half's.
//!
//! Code runs from event to event until it ends or calls a function of the other half (`enter`), and then goes on with what
//! that function gives (`go_on`). `call` runs it to its end: where all of a driver's code runs such a call gives nothing, and
//! handlers of a half may not make one.
#![tactic(auto)]

mod before;
mod calls;
mod code;
mod commands;
mod ending;
mod idling;
mod interrupts;
mod next;
mod paused;
mod turn;
mod whole;

pub use before::{Before, Nothing};
pub use calls::{call, enter, go_on};
pub use code::Code;
pub use commands::{do_command, returned};
pub use ending::{Gave, Worked};
pub use idling::idle;
pub use interrupts::{Interrupts, interrupt};
pub use paused::{Paused, Went};
pub use whole::run_whole;
