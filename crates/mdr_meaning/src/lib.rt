//! The meaning of a driver's code: the tree of its observable steps, for each statement, expression, lvalue, call and
//! service of a `Program`. Definitions and laws alone: nothing here runs.
//!
//! Proved of every program: fuel is no matter, each step stands where its side has code, and questions are few. Proved
//! of sound programs: their trees name nothing unknown, and each value that they pass on fits its type. Trees don't say
//! what services do, nor the stops that come in them.
#![tactic(auto)]

mod laws;
mod shape;
mod wire;
mod worked;

pub use laws::{
    equality_up_to_ticks_is_alike, expressions_are_fair, fuel_is_no_matter, programs_are_numbered,
    questions_are_few, trees_are_fair, trees_are_placed, user_trees_are_equal, walks_go_on,
    walks_may_be_cut,
};
pub use shape::Shape64;
pub use wire::{Wire, WireView};
pub use worked::{
    calls_are_made, loops_turn, objects_live_and_die, operators_work, parts_have_an_order,
    pointers_are_followed, services_are_asked, stops_have_places,
};
