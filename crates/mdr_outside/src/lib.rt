//! The outside of a run: the traits of the shelf, the sink and the far side, objects in memory that stand for
//! them, and thin adapters to real files and to standard output.
#![tactic(auto)]

mod calls;
mod counts;
mod far;
mod far_calls;
mod folder_shelf;
mod lying_far;
mod map_shelf;
mod out_sink;
mod seen;
mod shelf;
mod shelf_calls;
mod sink;
mod sink_calls;
mod vec_sink;

pub use far::{DeliverAnswer, Exchange, Far, LoadAnswer, Loaded};
pub use far_calls::FarCalls;
pub use folder_shelf::FolderShelf;
pub use lying_far::LyingFar;
pub use map_shelf::MapShelf;
pub use out_sink::OutSink;
pub use seen::{FarSeen, ShelfSeen, SinkSeen};
pub use shelf::{ReadAnswer, Shelf, WriteAnswer};
pub use sink::{Sink, SinkAnswer, SinkCall};
pub use vec_sink::VecSink;
