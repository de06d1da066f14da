//! What running code of a sound program keeps of a run's state: memory in order, values that fit, blocks that are known as
//! they were born. Definitions and laws alone: nothing here runs.
#![tactic(auto)]

mod laws;

pub use laws::{
    calls_back_are_none, code_agrees, code_leaves, code_stays, commands_leave, kernel_code_leaves,
    programs_are_drivers, runs_hold, services_leave, states_hold, user_code_leaves,
};
