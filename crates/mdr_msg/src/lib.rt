//! Messages as bytes (RFC 4506). Each message has one spelling.
#![tactic(auto)]

mod encodable;
mod error;
mod integers;
mod item;
mod laws;
mod lists;
mod parts;
mod payloads;
mod reading;
mod spelling;
mod values;
mod writing;

pub use encodable::can_encode;
pub use error::MsgError;
pub use laws::{no_message_begins_another, no_spelling_begins_another, one_spelling};
pub use mdr_model::{
    Answer, Ask, Back, BirthKind, Call, Down, Message, New, Reply, Return, Run, SetRun, Shape64,
    Stop, Told, Wire, WireView,
};
pub use reading::decode;
pub use spelling::{reading_of, spelled};
pub use writing::encode;
