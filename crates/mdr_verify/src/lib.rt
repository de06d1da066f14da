//! Transcripts of split runs: read from their text, and judged by what each half says anew.
//!
//! A transcript is what `run split --wire` prints: the report, a line for each message and each answer, and their
//! number.
#![tactic(auto)]

mod digits;
mod laws;
mod line;
mod printed;
mod put;
mod reader;
mod reading;
mod split;
mod transcript;
mod verdict;

pub use laws::{a_text_has_one_fault, a_text_is_one_transcript, a_transcript_has_no_fault};
pub use line::Line;
pub use printed::{form_text, verdict_text};
pub use reader::{Reader, Stage};
pub use reading::read_transcript;
pub use transcript::{Transcript, TranscriptError};
pub use verdict::{Verdict, Wrong, first_difference, first_other_line, first_wrong, judge};
