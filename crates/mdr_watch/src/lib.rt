//! The run of a script for a driver on one memory, while its user half is held to the cells that its annotations let it touch:
//! what it shows is what `mdr_watched` says of it.
//!
//! While functions of the user half are active the state of the run is a `Guarded`: the world of a plain run, beside the sets
//! of the upcalls that are open. User code may touch the cells of the innermost, in which cells of dead blocks may be left.
//! Code of the kernel half runs on the world alone, up to its end or to where it calls back (`enter_below`, `go_on_below`).
//! Where it calls back an upcall opens in the others (`call_back`), for as many within one another as there is room for.
#![tactic(auto)]

mod asks;
mod backs;
mod commands;
mod downcalls;
mod guarded;
mod kept_out;
mod next;
mod roots;
mod sets;
mod turn;
mod upcall;
mod watch;
mod whole;

pub use asks::ask;
pub use downcalls::{come_back, enter_below, go_on_below, sent};
pub use guarded::{Guarded, Parts};
pub use roots::entry_roots;
pub use sets::Sets;
pub use upcall::first_set;
pub use watch::{Upcall, Watch, is_user, kernel_code, touched};
pub use whole::run_watched;
