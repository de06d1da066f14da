//! A scripted device: registers, count-downs and an interrupt line, and the rules by which they change.
#![tactic(auto)]

mod copies;
mod device;
mod firing;
mod horizon;
mod laws;
mod rule;
mod state;

pub use copies::copied_rules;
pub use device::Device;
pub use laws::devices_work;
pub use rule::{Effect, Guard, Rule, Trigger};
pub use state::State;
