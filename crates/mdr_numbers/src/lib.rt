//! Numbers that the memories of both halves take: a type's in the table of types, and a cell's where it is read as a byte.
#![tactic(auto)]

mod bytes;
mod types;

pub use bytes::byte_in;
pub use types::number_of;
