//! The code of a source's bodies, lowered to that of a program.
#![tactic(auto)]

mod arms;
mod calls;
mod copies;
mod expressions;
mod forms;
mod nesting;
mod parts;
mod release;
mod statements;
mod stepping;
mod turns;
mod types;
mod work;

pub use statements::lowered;
pub use work::Work;
