// The plain memory.

ghost use Rattle.std.specs.Prelude.{◌≡◌, ℕ, [], None, IsTrue, map, option_copied, option_map, slice_get};
ghost use Rattle.mdr_model.specs.Memory.{cell_at};
ghost use Rattle.mdr_mem.specs.Contents.{after_store, cell_in, is_handle, wire_in};

use crate::cells::Cells;
use crate::rows::Rows;
use mdr_core::{Block, OutOfMemory, Shape, Value};
use mdr_model::{BirthKind, New};
use std::alloc::Global;
use std::marker::Model;

/// A memory with a place of its own for each block. A load, a store and a look at a handle take constant time,
/// `find` logarithmic time.
#[derive(Drop)]
pub struct Blocks {
    rows: Rows,
}

impl Model for Blocks {
    ghost use Rattle.mdr_mem.specs.Contents.{Contents};

    ghost Value = { Contents };

    ghost use Rattle.mdr_mem.specs.RowsView.{contents_of, AreSound};

    ghost view = { λ s. contents_of s.rows };

    ghost invariant = { λ s. AreSound s.rows };
}

impl Blocks {
    /// The memory without blocks. It takes no memory.
    pub fn new(alloc: Global) -> Blocks
        ensures { result ≡ record { handles = []; memory = []; lives = [] } }
    {
        Blocks {
            rows: Rows::new(alloc),
        }
    }

    /// What was put into the block's cells. A pointer whose handle isn't alive is a dead one.
    pub fn cells(&self, b: Block) -> &[Value]
        requires { IsTrue (is_handle self.now.handles b) }
        ensures { (index : ℕ) → cell_at self.now.memory (cell_in b index) ≡ slice_get (map (wire_in self.now.handles) result.now) index }
    {
        self.rows.cells(b)
    }

    /// The same of the block at this place among those that live, of which the oldest has place 0.
    pub fn cells_at(&self, place: usize) -> Option<&[Value]>
        ensures { option_map (λ x. x.cells) (slice_get self.now.memory place) ≡ option_map (map (wire_in self.now.handles)) (option_copied result) }
    {
        self.rows.cells_at(place)
    }

    /// How the block at this place was born.
    pub fn born_at(&self, place: usize) -> Option<New>
        ensures { option_map (λ x. x.born) (slice_get self.now.memory place) ≡ result }
    {
        self.rows.born_at(place)
    }

    /// Puts a value into the cell. Past the end of the block nothing is done.
    pub fn put(&mut self, b: Block, cell: u64, v: Value)
        requires { IsTrue (is_handle self.old.handles b) }
        ensures { self.new ≡ after_store b cell v self.old }
    {
        self.rows.store(b, cell, v);
    }
}

impl Cells for Blocks {
    ghost contents = { λ s. s };

    ghost touchable = { λ s. None };

    fn birth(
        &mut self,
        alloc: Global,
        kind: BirthKind,
        shape: Shape,
        first: &[Value],
    ) -> Result<Block, OutOfMemory> {
        self.rows.birth(alloc, kind, shape, first)
    }

    fn kill(&mut self, b: Block) {
        self.rows.kill(b);
    }

    fn load(&self, b: Block, cell: u32) -> Value {
        self.rows.load(b, cell)
    }

    fn store(&mut self, b: Block, cell: u32, v: Value) {
        self.rows.store(b, cell as u64, v);
    }

    fn alive(&self, b: Block) -> bool {
        self.rows.alive(b)
    }

    fn shape(&self, b: Block) -> Shape {
        let born = self.rows.born(b);
        Shape {
            ty: born.ty,
            count: born.count,
        }
    }

    fn kind(&self, b: Block) -> BirthKind {
        self.rows.born(b).kind
    }

    fn find(&self, serial: u64) -> Option<Block> {
        self.rows.find(serial)
    }

    fn births(&self) -> u64 {
        self.rows.births()
    }

    fn live(&self) -> u64 {
        self.rows.live()
    }

    fn allowed(&self, _b: Block, _cell: u32) -> bool {
        true
    }
}
