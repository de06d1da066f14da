//! The memory of the user half: blocks at places of its own, behind pairs with the kernel's serials, beside the copy that
//! both halves agree on. A pointer in a cell names a block of the user half's own; a pointer in hand has the kernel's
//! serial, and is taken through the pairs by each load and store.
#![tactic(auto)]

mod access;
mod bytes;
mod gathering;
mod lists;
mod looking;
mod newborn;
mod opening;
mod quick;
mod release;
mod seen_memory;
mod spot;
mod steps;
mod taking;
mod user_memory;
mod values;

pub use gathering::gather;
pub use seen_memory::{SeenMemory, Settled};
pub use spot::Spot;
pub use taking::Tidings;
pub use user_memory::UserMemory;
pub use values::value_of;
