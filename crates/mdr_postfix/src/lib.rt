//! Names, members and subscripts (C99 6.5.1, 6.5.2).
#![tactic(auto)]

mod located;
mod member;
mod name;
mod subscript;

pub use located::{Located, given_up, nothing};
pub use member::{Found, member_rule};
pub use name::{name_rule, object_operand};
pub use subscript::subscript_rule;
