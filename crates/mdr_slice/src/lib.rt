//! Which function may call which, and which half of a driver each belongs to.
#![tactic(auto)]

mod calls;
mod graph;
mod halves;
mod handlers;
mod laws;
mod names;
mod pointed;
mod roots;
mod worked;

pub use calls::calls_of;
pub use graph::call_graph;
pub use halves::{Halves, called_marks, slice};
pub use laws::{kernel_half_is_least, roots_are_functions};
pub use names::names_of;
pub use pointed::{has_function_type, named_type, pointed_type, slot_type};
pub use roots::roots_of;
pub use worked::{a_cycle_crosses_the_border, a_network_driver_is_cut};
