//! The machine that runs a driver's code and can be stopped and resumed.
//!
//! Work that is held (the function that runs, what follows in its blocks, the loops, calls and started functions around)
//! is plain data, and has a tree of `mdr_meaning`. Laws of it, for every memory and for every number of ticks: what a walk
//! of that tree comes to at each statement and where a block, a loop or a function is left, and the held work whose tree is
//! left then; that a run of steps is a run; what starting a function and answering a question make of held work; what
//! expressions, assignments and calls come to.
//!
//! A `Machine` is made (`new`), started over whatever it holds (`start`), run for a number of ticks (`go`) over any
//! `Memory`, and goes on with the answers of a question (`resume`). `go` takes one step after the other until the function
//! that was started last ends, a function of the other half or a service is called, code stops, or a tick is needed and none
//! is left: what it answers is what a walk of the tree comes to, and what it holds then has the tree that is left. The side
//! says which functions' bodies are entered, by the halves of the functions, and whether objects of locals are asked for.
//!
//! Most steps are written for every value and every way out. Statements in which all values are integers take a shorter
//! way (`integers`, `quick`, `turning`, `behind`), one after another, with the same equations: what it meets that is no
//! integer it leaves to the other.
//!
//! Where memory is wanting, nothing is promised of the machine.
#![tactic(auto)]

mod arguments;
mod assign;
mod begin;
mod behind;
mod call;
mod calling;
mod close;
mod declare;
mod evaluate;
mod event;
mod frame;
mod go;
mod halves;
mod integer;
mod integers;
mod keep;
mod laws;
mod layout;
mod leave;
mod members;
mod named;
mod next;
mod operators;
mod params;
mod places;
mod pointers;
mod printing;
mod quick;
mod receive;
mod run;
mod slots;
mod start;
mod statement;
mod step;
mod text;
mod turn;
mod turning;
mod unwind;
mod values;

pub use event::Outcome;
pub use frame::{Flow, Frame, Front, Machine, Side, Suspended, Until};
pub use laws::{
    each_run_is_made, each_statement_steps, evaluation_is_walked, functions_are_started,
    held_work_goes_on, questions_are_answered, sides_are_halves, statements_want_ticks,
};
pub use places::{Part, Position};
