//! What a source comes to doesn't depend on its places: laws alone, nothing here runs.
//!
//! Proved: trees that are equal, places aside, come to the same program, or there are faults in both. So it is of each
//! expression, declaration, heading and body, in each scope, and of a user half's text with its plan.
#![tactic(auto)]

mod laws;

pub use laws::{
    bodies_look_at_no_place, declarations_look_at_no_place, expressions_look_at_no_place,
    files_look_at_no_place, halves_look_at_no_place, headings_look_at_no_place,
    programs_look_at_no_place,
};
