//! The bytes of a source: its tree and its program, or the one thing for which it is refused.
#![tactic(auto)]

mod laws;
mod lines;
mod outcome;
mod put;
mod refusal;
mod whole;

pub use laws::{bytes_come_to_one_thing, bytes_come_to_something, bytes_come_to_their_source};
pub use lines::refusal_line;
pub use outcome::Source;
pub use put::{put_bytes, put_newline, put_number, put_word};
pub use refusal::Refusal;
pub use whole::source;
