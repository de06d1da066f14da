//! Scripts: how a device begins, its rules, and commands, as they stand in a text, and for a program.
#![tactic(auto)]

mod arguments;
mod binding;
mod laws;
mod line;
mod lines;
mod number;
mod reading;
mod rules;
mod script;
mod script_error;
mod unbound;
mod unread;
mod values;
mod words;

pub use binding::bind;
pub use laws::{a_scripts_text_has_no_fault, a_text_is_one_script, lines_are_read};
pub use line::{ArgText, Line, LineWhat, ScriptLine};
pub use reading::read_script;
pub use script::Script;
pub use script_error::{ScriptError, ScriptKind};
pub use unread::Unread;
