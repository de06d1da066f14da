//! Values, memories, messages, copies and what a run shows: the types and definitions that several crates cite, and the
//! laws over them.
#![tactic(auto)]

mod command;
mod laws;
mod memory;
mod message;
mod outcome;
mod reply;
mod stops;
mod worked;
mod worked_copies;

pub use command::Command;
pub use laws::{
    a_birth_adds_one_block, a_death_takes_one_block, a_store_changes_one_cell, answers_agree,
    messages_agree, replies_agree, steps_may_follow,
};
pub use mdr_meaning::{Shape64, Wire, WireView};
pub use memory::{Cell, MemoryBlock};
pub use message::{Answer, Back, BirthKind, Call, Fault, Message, New, Run, SetRun, Told};
pub use outcome::{End, Happened, Object, Seen};
pub use reply::{Ask, Down, Reply, Return, Stop};
pub use stops::{stop_number, user_stop};
pub use worked::bump_messages_are_spelled;
pub use worked_copies::{
    a_cycle_and_its_deaths_are_told, deaths_rise_in_whatever_order_blocks_were_told,
    zeros_of_a_new_block_are_not_told,
};
