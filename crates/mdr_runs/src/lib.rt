//! How the code of a driver runs from event to event: laws about what `mdr_plain` says of a run and what running code comes
//! to (`mdr_events`), whatever stands around the code, and for all of a driver's code on one memory. Laws alone: nothing
//! here runs.
#![tactic(auto)]

mod laws;

pub use laws::{
    accesses_keep_ticks, calls_are_started, each_run_stands, each_setting_runs,
    each_setting_stands, each_tick_stands, memories_are_seen, runs_may_be_cut,
    services_are_answered,
};
