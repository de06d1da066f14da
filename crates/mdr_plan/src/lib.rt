//! The lines of a plan's text, read.
//!
//! A text is read line by line, and a line's text is that which `mdr_half` writes: what is read here is what is
//! written there, byte for byte. Which lines may come next is told by what was read before.
#![tactic(auto)]

mod front;
mod keys;
mod laws;
mod line;
mod lines;
mod names;
mod number;
mod plan_error;
mod reader;
mod reading;
mod shape;
mod standing;
mod types;
mod unread;
mod words;

pub use laws::{
    a_plans_text_has_no_fault, a_text_has_one_fault, a_text_is_of_one_plan, a_text_is_one_line,
    no_plans_text_has_a_refused_line, pointer_types_have_their_texts,
    what_was_read_goes_on_to_a_plan,
};
pub use line::{Line, Stage};
pub use lines::line_of;
pub use plan_error::{PlanError, PlanKind};
pub use reader::Reader;
pub use reading::read_plan;
pub use shape::Shape;
pub use unread::Unread;
