// The sets of the upcalls that are open.

use mdr_cells::CellSet;
use mdr_core::Items;

/// The cells that user code may touch: those of the innermost upcall, and those of the upcalls around it, the innermost
/// last. Cells of dead blocks may be left in each.
#[derive(Drop)]
pub struct Sets {
    pub inner: CellSet,
    pub outer: Items<CellSet>,
}
