// Sets of cells.

ghost use Rattle.std.specs.Prelude.{◌≡◌, ◌++◌, [], ◌∷◌, IfOk, OnOk};
ghost use Rattle.mdr_cells.specs.Names.{AreBefore, cell_of, named};
ghost use Rattle.mdr_extents.specs.CellOrder.{cells};
ghost use Rattle.mdr_model.specs.declared.memory.Cell.{Cell};
ghost use Rattle.mdr_paths.specs.Paths.{Rises, is_in};

use crate::name::CellName;
use mdr_core::OutOfMemory;
use std::alloc::Global;
use std::marker::Model;

/// A set of cells, which contracts see as the rising list of its cells.
#[derive(Drop)]
pub struct CellSet {
    names: Vec<CellName>,
}

impl Model for CellSet {
    ghost use Rattle.std.specs.Prelude.{List};
    ghost use Rattle.mdr_model.specs.declared.memory.Cell.{Cell};
    ghost use Rattle.mdr_extents.specs.CellOrder.{cells};
    ghost use Rattle.mdr_paths.specs.Paths.{Rises};
    ghost use Rattle.mdr_cells.specs.Names.{named};

    ghost Value = { List Cell };

    ghost view = { λ s. named s.names.items };

    ghost invariant = { λ s. Rises cells (named s.names.items) };
}

/// The names in their order, each once.
fn in_order(names: Vec<CellName>) -> Vec<CellName>
    ensures rises { Rises cells (named result.items) }
    ensures same { (c : Cell) → is_in cells (named result.items) c ≡ is_in cells (named names.items) c }
{
    let mut names = names;
    names.sort_unstable();
    names.dedup();
    names
}

/// Whether the name is among these, in logarithmic time.
fn is_among(names: &[CellName], name: CellName) -> bool
    requires { Rises cells (named names.now) }
    ensures { result ≡ is_in cells (named names.now) (cell_of name) }
{
    match names.binary_search(&name) {
        Ok(_) => true,
        Err(_) => false,
    }
}

/// Adds a name that comes after all others. Where memory is wanting the names are as before.
fn push_last(names: &mut Vec<CellName>, name: CellName) -> Result<(), OutOfMemory>
    requires rises { Rises cells (named names.old.items) }
    requires before { AreBefore (named names.old.items) (cell_of name) }
    ensures rises { Rises cells (named names.new.items) }
    ensures pushed { OnOk result (named names.new.items ≡ named names.old.items ++ cell_of name ∷ []) }
{
    names.push(name)?;
    Ok(())
}

impl CellSet {
    /// The empty set. It takes no memory.
    pub fn new(alloc: Global) -> CellSet
        ensures { result ≡ [] }
    {
        CellSet {
            names: Vec::new(alloc),
        }
    }

    /// The set of these cells, in whatever order they are named, and how often.
    pub fn of(names: Vec<CellName>) -> CellSet
        ensures rises { Rises cells result }
        ensures same { (c : Cell) → is_in cells result c ≡ is_in cells (named names.items) c }
    {
        CellSet {
            names: in_order(names),
        }
    }

    /// Whether the cell with this index, of the block with this serial, is in the set.
    pub fn has(&self, serial: u64, index: u64) -> bool
        ensures { result ≡ is_in cells self.now (record { serial = serial; index = index }) }
    {
        is_among(self.names.as_slice(), CellName { serial, index })
    }

    /// The cells, in their order.
    pub fn names(&self) -> &[CellName]
        ensures items { named result.now ≡ self.now }
        ensures rises { Rises cells self.now }
    {
        self.names.as_slice()
    }

    /// Adds a cell that comes after all others. Where memory is wanting the set is as before.
    pub fn push(&mut self, name: CellName) -> Result<(), OutOfMemory>
        requires { AreBefore self.old (cell_of name) }
        ensures { OnOk result (self.new ≡ self.old ++ cell_of name ∷ []) }
    {
        push_last(&mut self.names, name)
    }
}
