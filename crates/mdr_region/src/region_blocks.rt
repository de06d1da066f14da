// A region under the contract of the plain memory.

ghost use Rattle.std.specs.Prelude.{◌≡◌, ◌≤◌, ℕ, [], None, IsTrue, IfOk, OnErr, length, map, option_copied, option_map, slice_get};
ghost use Rattle.mdr_model.specs.Memory.{cell_at};
ghost use Rattle.mdr_mem.specs.Contents.{after_birth, after_store, births_in, cell_in, is_handle, wire_in};
ghost use Rattle.mdr_region.specs.Layout.{layout_of};

use crate::rows::Rows;
use mdr_core::{Block, OutOfMemory, Shape, Value};
use mdr_mem::Cells;
use mdr_model::{BirthKind, New};
use std::alloc::Global;
use std::marker::Model;

/// A region of which contents alone are seen, so that it stands where `Blocks` stood: it has its methods, in the same
/// words, and `layout`.
#[derive(Drop)]
pub struct RegionBlocks {
    rows: Rows,
}

impl Model for RegionBlocks {
    ghost use Rattle.mdr_mem.specs.Contents.{Contents};

    ghost Value = { Contents };

    ghost use Rattle.mdr_region.specs.RowsView.{contents_of, IsWhole};

    ghost view = { λ s. contents_of s.rows };

    ghost invariant = { λ s. IsWhole s.rows };
}

impl RegionBlocks {
    /// The memory without blocks. It takes no memory.
    pub fn new(alloc: Global) -> RegionBlocks
        ensures { result ≡ record { handles = []; memory = []; lives = [] } }
    {
        RegionBlocks {
            rows: Rows::new(alloc),
        }
    }

    /// What was put into the block's cells. A pointer whose handle isn't alive is a dead one.
    pub fn cells(&self, b: Block) -> &[Value]
        requires { IsTrue (is_handle self.now.handles b) }
        ensures { (index : ℕ) → cell_at self.now.memory (cell_in b index) ≡ slice_get (map (wire_in self.now.handles) result.now) index }
    {
        self.rows.cells(b)
    }

    /// The same of the block at this place among those that live, of which the oldest has place 0.
    pub fn cells_at(&self, place: usize) -> Option<&[Value]>
        ensures { option_map (λ x. x.cells) (slice_get self.now.memory place) ≡ option_map (map (wire_in self.now.handles)) (option_copied result) }
    {
        self.rows.cells_at(place)
    }

    /// How the block at this place was born.
    pub fn born_at(&self, place: usize) -> Option<New>
        ensures { option_map (λ x. x.born) (slice_get self.now.memory place) ≡ result }
    {
        self.rows.born_at(place)
    }

    /// Puts a value into the cell. Past the end of the block nothing is done.
    pub fn put(&mut self, b: Block, cell: u64, v: Value)
        requires { IsTrue (is_handle self.old.handles b) }
        ensures { self.new ≡ after_store b cell v self.old }
    {
        self.rows.store(b, cell, v);
    }

    /// How many places are used, and how many there are.
    pub fn layout(&self) -> (u64, u64)
        ensures taken { result.0 ≡ (layout_of self.now.lives).taken }
        ensures top { result.1 ≡ (layout_of self.now.lives).top }
    {
        self.rows.pool.layout()
    }
}

impl Cells for RegionBlocks {
    ghost contents = { λ s. s };

    ghost touchable = { λ s. None };

    /// A block may have no cell, and as many as can be counted.
    fn birth(
        &mut self,
        _alloc: Global,
        kind: BirthKind,
        shape: Shape,
        first: &[Value],
    ) -> Result<Block, OutOfMemory>
        requires few { length first.now ≤ 4294967295 }
        ensures next { IfOk result (λ b. b.serial ≡ births_in self.old.lives) }
        ensures born { IfOk result (λ b. self.new ≡ after_birth kind shape first.now b self.old) }
        ensures as_before { OnErr result (self.new ≡ self.old) }
    {
        self.rows.birth(kind, shape, first)
    }

    fn kill(&mut self, b: Block) {
        self.rows.kill(b);
    }

    fn load(&self, b: Block, cell: u32) -> Value {
        self.rows.load(b, cell)
    }

    fn store(&mut self, b: Block, cell: u32, v: Value) {
        self.rows.store(b, cell as u64, v);
    }

    fn alive(&self, b: Block) -> bool {
        self.rows.alive(b)
    }

    fn shape(&self, b: Block) -> Shape {
        let born = self.rows.born(b);
        Shape {
            ty: born.ty,
            count: born.count,
        }
    }

    fn kind(&self, b: Block) -> BirthKind {
        self.rows.born(b).kind
    }

    fn find(&self, serial: u64) -> Option<Block> {
        self.rows.find(serial)
    }

    fn births(&self) -> u64 {
        self.rows.births()
    }

    fn live(&self) -> u64 {
        self.rows.live()
    }

    fn allowed(&self, _b: Block, _cell: u32) -> bool {
        true
    }
}
