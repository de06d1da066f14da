//! Which cells each function of the user half may touch, and the plan that says so.
#![tactic(auto)]

mod copies;
mod exposed;
mod forms;
mod keys;
mod laws;
mod owned;
mod plan;
mod shared;
mod walk;
mod worked;

pub use laws::keys_are_right;
pub use plan::keys_of;
pub use worked::{a_network_driver_has_keys, forms_have_keys};
