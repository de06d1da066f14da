// Marked cells.

ghost use Rattle.std.specs.Prelude.{◌≡◌, [], OnOk};
ghost use Rattle.mdr_cells.specs.Names.{cell_of, named};
ghost use Rattle.mdr_reach.specs.Chains.{with_mark};

use crate::chains::{Chains, add_if_new, no_chains};
use mdr_cells::CellName;
use mdr_core::OutOfMemory;
use std::alloc::Global;
use std::marker::Model;

/// Cells that are marked, each once, which contracts see as their list in the order of marking.
#[derive(Drop)]
pub struct Marked {
    names: Vec<CellName>,
    chains: Chains,
}

impl Model for Marked {
    ghost use Rattle.std.specs.Prelude.{List};
    ghost use Rattle.mdr_cells.specs.declared.name.CellName.{CellName};
    ghost use Rattle.mdr_reach.specs.Chains.{AreChained};

    ghost Value = { List CellName };

    ghost view = { λ s. s.names.items };

    ghost invariant = { λ s. AreChained s.names.items s.chains };
}

impl Marked {
    /// No cell. It takes no memory.
    pub(crate) fn new(alloc: Global) -> Marked
        ensures { result ≡ [] }
    {
        Marked {
            names: Vec::new(alloc),
            chains: no_chains(alloc),
        }
    }

    /// The cells in the order of marking.
    pub(crate) fn names(&self) -> &[CellName]
        ensures { result.now ≡ self.now }
    {
        self.names.as_slice()
    }

    /// Marks a cell, unless it is marked, in constant time on average.
    pub(crate) fn mark(&mut self, name: CellName) -> Result<(), OutOfMemory>
        ensures { OnOk result (named self.new ≡ with_mark (named self.old) (cell_of name)) }
    {
        add_if_new(&mut self.names, &mut self.chains, name)
    }
}
