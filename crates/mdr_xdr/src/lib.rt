//! The items of XDR (RFC 4506): integers and opaque bytes. Each has one spelling.
#![tactic(auto)]

mod cursor;
mod reading;
mod writing;

pub use cursor::{Cursor, XdrError};
pub use reading::{get, get_opaque};
pub use writing::{put, put_opaque};
