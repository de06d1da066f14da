//! Small drivers in two halves, worked out to the message: what is told of cycles, aliases, births, deaths and objects of
//! locals, how the device keeps time with both halves, and how kernel code calls back. Worked examples alone: nothing here
//! runs.
#![tactic(auto)]

mod worked;

pub use worked::{
    callbacks_are_spelled, callbacks_are_told, callbacks_may_not_wait, devices_keep_time,
    graphs_are_told,
};
