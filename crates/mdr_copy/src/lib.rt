//! What both halves do with memories: the agreed copy, what changed against it, and the checks of what is told.
#![tactic(auto)]

mod access;
mod cell_types;
mod cells;
mod changed;
mod checks;
mod copies;
mod extents;
mod lives;
mod naming;
mod runs;
mod sets;
mod store;
mod told;
mod values;

pub use access::{normal, normals};
pub use cell_types::cell_type;
pub use cells::CellList;
pub use changed::changes;
pub use checks::{deaths_fit, news_fit};
pub use copies::{copied, copy_of};
pub use extents::{Extent, extent_of, follows_maybe};
pub use lives::{names_block, without};
pub use runs::runs_of_cells;
pub use sets::cells_of_runs;
pub use store::{RisingBlocks, born_at, cell_at, held, held_at, is_live, put, put_runs};
pub use told::{tells, with_news};
pub use values::{is_same, wire_of};
