//! What a whole driver does on one memory, and what runs around its code: the device, interrupts, locks, services and
//! the commands of a script. Definitions, worked examples and laws alone: nothing here runs.
#![tactic(auto)]

mod laws;
mod outcome;
mod worked;

pub use laws::{
    interrupts_are_gated, objects_are_least, plain_runs_are_alone, runs_are_walks,
    runs_need_ticks_alone,
};
pub use outcome::{Happened, Outcome};
pub use worked::{
    a_network_driver_runs, devices_rule, drivers_run, interrupts_are_taken, services_are_served,
    texts_are_told,
};
