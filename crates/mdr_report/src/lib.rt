//! The printed report of a run, and bytes as its hexadecimal digits.
#![tactic(auto)]

mod bytes;
mod event;
mod names;
mod object;
mod put;
mod text;
mod value;
mod whole;
mod whole_event;
mod whole_object;

pub use bytes::put_hex;
pub use whole::report_whole;
