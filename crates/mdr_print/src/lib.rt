//! The text of a tree.
#![tactic(auto)]

mod declaration;
mod form;
mod initialiser;
mod item;
mod laws;
mod put;
mod statement;
mod types;

pub use item::{print, put_function, put_item, put_prototype};
pub use laws::printed_tokens_are_read;
