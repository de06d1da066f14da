//! What is due for the program's words: a status and a text. And the files that are read for it.
#![tactic(auto)]

mod due;
mod files;
mod lines;
mod put;
mod status;

pub use due::{Due, Stage};
pub use files::file;
pub use lines::{file_line, script_line};
pub use put::{put_bytes, put_newline, put_number, put_word};
pub use status::Status;
