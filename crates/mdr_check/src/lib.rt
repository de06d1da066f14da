//! The types of a source: its typed program, or the first fault in it.
#![tactic(auto)]

mod file;
mod initialiser;
mod names;
mod table;
mod uses;
mod variable;
mod whole;

pub use file::Piece;
pub use initialiser::First;
pub use mdr_faults::{
    Candidate, Constant, Entity, Fault, FaultKind, Member, Named, Object, Scope, Signature,
    StructEntry, Tag,
};
pub use table::type_table;
pub use variable::Variable;
pub use whole::checked_pieces;
