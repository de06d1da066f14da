// A memory in one pool of cells.

ghost use Rattle.std.specs.Prelude.{◌≡◌, ◌<◌, ◌≤◌, ◌-◌, ℕ, [], None, IsTrue, IsSome, IsOk, IfOk, OnOk, OnErr, length, map, slice_get};
ghost use Rattle.mdr_model.specs.Memory.{cell_at};
ghost use Rattle.mdr_mem.specs.Contents.{is_handle, cell_in, births_in, after_birth, after_death, after_store, wire_in};
ghost use Rattle.mdr_region.specs.Layout.{laid, layout_of};
ghost use Rattle.mdr_region.specs.Blocks.{IsBlock};

use crate::rows::Rows;
use mdr_core::{Block, OutOfMemory, Shape, Value};
use mdr_mem::Cells;
use mdr_model::BirthKind;
use std::alloc::Global;
use std::marker::Model;

/// A memory whose blocks lie in one pool: each in the first hole of places that fits, else at the top. A load, a store
/// and a look at a handle take constant time, `find` logarithmic time; a birth and a death go over holes and handles.
///
/// Room may be promised: what `reserve` makes room for, `birth` finds.
#[derive(Drop)]
pub struct Region {
    rows: Rows,
}

impl Model for Region {
    ghost use Rattle.mdr_region.specs.RowsView.{Reserved};

    ghost Value = { Reserved };

    ghost use Rattle.mdr_region.specs.RowsView.{reserved_of, IsWhole};

    ghost view = { λ s. reserved_of s.rows };

    ghost invariant = { λ s. IsWhole s.rows };
}

impl Region {
    /// The region without blocks. It takes no memory, and promises none.
    pub fn new(alloc: Global) -> Region
        ensures empty { result.contents ≡ record { handles = []; memory = []; lives = [] } }
        ensures cells { result.cells ≡ 0 }
        ensures births { result.births ≡ 0 }
    {
        Region {
            rows: Rows::new(alloc),
        }
    }

    /// Promises so many cells and births. Where memory is wanting all is as before.
    pub fn reserve(&mut self, cells: u64, births: u64) -> Result<(), OutOfMemory>
        ensures contents { self.new.contents ≡ self.old.contents }
        ensures cells { OnOk result (cells ≤ self.new.cells) }
        ensures births { OnOk result (births ≤ self.new.births) }
        ensures as_before { OnErr result (self.new ≡ self.old) }
    {
        self.rows.reserve(cells as usize, births as usize)
    }

    /// How many cells and births are promised. A birth of no more cells, while births are promised, can't want memory.
    pub fn spare(&self) -> (u64, u64)
        ensures cells { result.0 ≡ self.now.cells }
        ensures births { result.1 ≡ self.now.births }
    {
        self.rows.pool.spare()
    }

    /// How many places are used, and how many there are.
    pub fn layout(&self) -> (u64, u64)
        ensures taken { result.0 ≡ (layout_of self.now.contents.lives).taken }
        ensures top { result.1 ≡ (layout_of self.now.contents.lives).top }
    {
        self.rows.pool.layout()
    }

    /// Where the block begins, and how many cells it has. No other block has a place among those.
    pub fn place(&self, b: Block) -> (u64, u64)
        requires { IsTrue (is_handle self.now.contents.handles b) }
        ensures { IsBlock (laid self.now.contents.lives).marks b.serial result.0 result.1 }
    {
        self.rows.place(b)
    }

    /// What was put into the block's cells. A pointer whose handle isn't alive is a dead one.
    pub fn cells(&self, b: Block) -> &[Value]
        requires { IsTrue (is_handle self.now.contents.handles b) }
        ensures { (index : ℕ) → cell_at self.now.contents.memory (cell_in b index) ≡ slice_get (map (wire_in self.now.contents.handles) result.now) index }
    {
        self.rows.cells(b)
    }

    /// Puts a value into the cell, and leaves what is promised. Past the end of the block nothing is done.
    pub fn put(&mut self, b: Block, cell: u64, v: Value)
        requires { IsTrue (is_handle self.old.contents.handles b) }
        ensures stored { self.new.contents ≡ after_store b cell v self.old.contents }
        ensures cells { self.new.cells ≡ self.old.cells }
        ensures births { self.new.births ≡ self.old.births }
    {
        self.rows.store(b, cell, v);
    }
}

impl Cells for Region {
    ghost contents = { λ s. s.contents };

    ghost touchable = { λ s. None };

    /// What is promised is enough for it, and is less by the birth. Where memory is wanting all is as before.
    fn birth(
        &mut self,
        _alloc: Global,
        kind: BirthKind,
        shape: Shape,
        first: &[Value],
    ) -> Result<Block, OutOfMemory>
        requires some { 0 < length first.now }
        requires few { length first.now ≤ 65536 }
        ensures next { IfOk result (λ b. b.serial ≡ births_in self.old.contents.lives) }
        ensures born { IfOk result (λ b. self.new.contents ≡ after_birth kind shape first.now b self.old.contents) }
        ensures as_before { OnErr result (self.new.contents ≡ self.old.contents) }
        ensures cells { OnOk result (self.new.cells ≡ self.old.cells - length first.now) }
        ensures births { OnOk result (self.new.births ≡ self.old.births - 1) }
        ensures unchanged { OnErr result (self.new ≡ self.old) }
        ensures succeeds { length first.now ≤ self.old.cells → 0 < self.old.births → IsOk result }
    {
        self.rows.birth(kind, shape, first)
    }

    /// It takes no memory, and leaves what is promised.
    fn kill(&mut self, b: Block)
        requires alive { IsTrue (is_handle self.old.contents.handles b) }
        ensures dead { self.new.contents ≡ after_death b.serial self.old.contents }
        ensures cells { self.new.cells ≡ self.old.cells }
        ensures births { self.new.births ≡ self.old.births }
    {
        self.rows.kill(b);
    }

    fn load(&self, b: Block, cell: u32) -> Value {
        self.rows.load(b, cell)
    }

    /// It leaves what is promised.
    fn store(&mut self, b: Block, cell: u32, v: Value)
        requires alive { IsTrue (is_handle self.old.contents.handles b) }
        requires inside { IsSome (cell_at self.old.contents.memory (cell_in b cell)) }
        ensures stored { self.new.contents ≡ after_store b cell v self.old.contents }
        ensures cells { self.new.cells ≡ self.old.cells }
        ensures births { self.new.births ≡ self.old.births }
    {
        self.rows.store(b, cell as u64, v);
    }

    fn alive(&self, b: Block) -> bool {
        self.rows.alive(b)
    }

    fn shape(&self, b: Block) -> Shape {
        let born = self.rows.born(b);
        Shape {
            ty: born.ty,
            count: born.count,
        }
    }

    fn kind(&self, b: Block) -> BirthKind {
        self.rows.born(b).kind
    }

    fn find(&self, serial: u64) -> Option<Block> {
        self.rows.find(serial)
    }

    fn births(&self) -> u64 {
        self.rows.births()
    }

    fn live(&self) -> u64 {
        self.rows.live()
    }

    fn allowed(&self, _b: Block, _cell: u32) -> bool {
        true
    }
}
