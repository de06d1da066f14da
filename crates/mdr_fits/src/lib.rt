//! Which values fit where, and what services take and give: the tests that both halves make of messages.
#![tactic(auto)]

mod arguments;
mod faults;
mod objects;
mod parameters;
mod places;
mod questions;
mod results;
mod table;
mod types;
mod unlocked;
mod values;
mod views;

pub use arguments::args_fault;
pub use faults::runs_fault;
pub use objects::{entered_after, entered_behind, leaving, may_die};
pub use parameters::{fits_parameter, parameter, parameter_count};
pub use places::{Passes, Places};
pub use questions::shapes_fit;
pub use results::results_fit;
pub use table::{Arguments, Gives, Parameter, Shapes, Terms, terms_of};
pub use values::{fits, fits_result};
pub use views::is_view;
