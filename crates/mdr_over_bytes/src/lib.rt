//! The law of split runs over bytes: a run in two halves whose messages and answers are bytes, with an honest far side, is the
//! watched run on one memory; and no legal reply's bytes begin another's. Laws alone: nothing here runs.
#![tactic(auto)]

mod laws;

pub use laws::{no_legal_reply_begins_another, split_over_bytes_is_one_memory};
