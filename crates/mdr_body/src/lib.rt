//! What the bodies of functions come to: blocks with their names, numbers and slots (C99 6.8, 6.9.1).
#![tactic(auto)]

mod address;
mod clauses;
mod here;
mod labels;
mod locals;
mod release;
mod simple;
mod statement;
mod typing;
mod uses;
mod whole;

pub use address::{perhaps_takes, takes_along, takes_at, takes_in};
pub use clauses::{MadeClause, SortedClauses, made_clause, switch_of, tested_value};
pub use here::{
    Assignment, Breaks, ClauseStanding, DeclaredLocal, ForParts, Frame, Here, Jumps, Known, Placed,
    Setting, Standing, Target, Tested,
};
pub use labels::{CaseLabel, cases, has_default, labels_made};
pub use locals::{count, declare_local, first_here, leave, parameter_objects, struct_locks, takes};
pub use simple::{
    assigned, broken, called, condition, continued, local_made, perhaps_condition, returned,
    simple_made, single, stated,
};
pub use statement::{
    as_part, condition_counted, do_of, for_head, for_of, head_taken_in, if_of, lines, no_jumps,
    paired, simple_counted, taken_at, while_of,
};
pub use typing::Typing;
pub use uses::first_use;
pub use whole::{Rule, body_of, body_rule, declared_locals, frame_of};
