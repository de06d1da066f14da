//! The texts that a source is cut into, its two halves and its plan; and the report of its calls and its plan.
#![tactic(auto)]

mod laws;
mod plan;
mod report;
mod texts;

pub use laws::{plan_is_determined, report_is_determined, texts_are_determined};
pub use plan::plan_of;
pub use report::report_text;
pub use texts::{Texts, texts_of};
