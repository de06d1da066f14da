// The rows of a region, over its pool of cells.

ghost use Rattle.std.specs.Prelude.{◌≡◌, ◌<◌, ◌≤◌, ◌+◌, ◌-◌, ◌^◌, [], length, map, IsTrue, IsSome, IsOk, IfOk, OnOk, OnErr, slice_get, Some, option_copied, option_map, ℕ, vec_capacity};
ghost use Rattle.mdr_model.specs.Memory.{cell_at, born_at};
ghost use Rattle.mdr_meaning.specs.Values.{wire_of};
ghost use Rattle.mdr_mem.specs.Contents.{is_handle, handle_of, cell_in, current, births_in, after_birth, after_death, after_store, IsInOrder, wire_in};
ghost use Rattle.slab.specs.Slab.{HasRoomFor};
ghost use Rattle.mdr_region.specs.Layout.{laid, layout_of};
ghost use Rattle.mdr_region.specs.Blocks.{IsBlock};
ghost use Rattle.mdr_region.specs.Slots.{row_in};
ghost use Rattle.mdr_region.specs.RowsView.{contents_of, IsWhole};

use crate::pool::Pool;
use crate::slots::{Row, current_in, is_alive, make_slots, next_slot, row_at, settle};
use mdr_core::{Block, OutOfMemory, Shape, Value};
use mdr_mem::{forget, place_of};
use mdr_model::{BirthKind, New};
use slab::Slab;
use std::alloc::Global;

/// Handles in the order of births, so that serials rise; the rows of their blocks by their slots; and the cells.
#[derive(Drop)]
pub struct Rows {
    pub live: Vec<Block>,
    pub rows: Slab<Row>,
    pub pool: Pool,
}

impl Rows {
    pub fn new(alloc: Global) -> Rows
        ensures whole { IsWhole result }
        ensures empty { contents_of result ≡ record { handles = []; memory = []; lives = [] } }
        ensures cells { result.pool.cells_left ≡ 0 }
        ensures births { result.pool.births_left ≡ 0 }
    {
        Rows {
            live: Vec::new(alloc),
            rows: Slab::new(alloc),
            pool: Pool::new(alloc),
        }
    }

    pub fn alive(&self, b: Block) -> bool
        requires { IsWhole self.now }
        ensures { result ≡ is_handle self.now.live.items b }
    {
        is_alive(&self.rows, b)
    }

    // A pointer whose handle is not alive is a dead one.
    fn current(&self, v: Value) -> Value
        requires { IsWhole self.now }
        ensures { result ≡ current self.now.live.items v }
    {
        current_in(&self.rows, v)
    }

    // The row of a live handle.
    fn row(&self, b: Block) -> Row
        requires whole { IsWhole self.now }
        requires alive { IsTrue (is_handle self.now.live.items b) }
        ensures { row_in self.now.rows.slots b.slot ≡ Some result }
    {
        row_at(&self.rows, b)
    }

    // Makes room for a block, and says what its handle will be. Slots and serials may have run out.
    fn next_handle(&mut self) -> Result<Block, OutOfMemory>
        requires { IsWhole self.old }
        ensures whole { IsWhole self.new }
        ensures contents { contents_of self.new ≡ contents_of self.old }
        ensures live { self.new.live.items ≡ self.old.live.items }
        ensures pool { self.new.pool ≡ self.old.pool }
        ensures slot { IfOk result (λ b. b.slot ≡ self.new.rows.vacant_key) }
        ensures serial { IfOk result (λ b. b.serial ≡ self.old.pool.places.births) }
        ensures listed { OnOk result (length self.new.live.items < vec_capacity self.new.live) }
        ensures room { OnOk result (HasRoomFor self.new.rows 1) }
        ensures succeeds { 0 < self.old.pool.births_left → IsOk result }
    {
        self.live.reserve(1)?;
        self.rows.reserve(1)?;
        let slot = next_slot(&mut self.rows)?;
        Ok(Block {
            slot,
            serial: self.pool.places.births,
        })
    }

    // A new block: its cells in the pool, as they are before its birth, its row, and its handle.
    pub fn birth(
        &mut self,
        kind: BirthKind,
        shape: Shape,
        first: &[Value],
    ) -> Result<Block, OutOfMemory>
        requires whole { IsWhole self.old }
        requires few { length first.now ≤ 4294967295 }
        ensures whole { IsWhole self.new }
        ensures next { IfOk result (λ b. b.serial ≡ births_in self.old.pool.places.lives) }
        ensures born { IfOk result (λ b. contents_of self.new ≡ after_birth kind shape first.now b (contents_of self.old)) }
        ensures as_before { OnErr result (contents_of self.new ≡ contents_of self.old) }
        ensures cells { OnOk result (self.new.pool.cells_left ≡ self.old.pool.cells_left - length first.now) }
        ensures births { OnOk result (self.new.pool.births_left ≡ self.old.pool.births_left - 1) }
        ensures same_cells { OnErr result (self.new.pool.cells_left ≡ self.old.pool.cells_left) }
        ensures same_births { OnErr result (self.new.pool.births_left ≡ self.old.pool.births_left) }
        ensures succeeds { length first.now ≤ self.old.pool.cells_left → 0 < self.old.pool.births_left → IsOk result }
    {
        let block = self.next_handle()?;
        let start = self.pool.birth(first)?;
        settle(&mut self.pool.values, &self.rows, start, first);
        let born = New {
            serial: block.serial,
            kind,
            ty: shape.ty,
            count: shape.count,
        };
        let cells = first.len() as u32;
        self.rows.insert_reserved(Row { born, start, cells });
        self.live.push_reserved(block);
        Ok(block)
    }

    pub fn kill(&mut self, b: Block)
        requires whole { IsWhole self.old }
        requires alive { IsTrue (is_handle self.old.live.items b) }
        ensures whole { IsWhole self.new }
        ensures dead { contents_of self.new ≡ after_death b.serial (contents_of self.old) }
        ensures cells { self.new.pool.cells_left ≡ self.old.pool.cells_left }
        ensures births { self.new.pool.births_left ≡ self.old.pool.births_left }
    {
        let row = self.row(b);
        forget(&mut self.live, b.serial);
        self.rows.remove(b.slot as usize);
        self.pool.death(b.serial, row.start, row.cells);
    }

    // What was put into the cell.
    fn held_in(&self, b: Block, cell: u32) -> Value
        requires whole { IsWhole self.now }
        requires alive { IsTrue (is_handle self.now.live.items b) }
        requires inside { IsSome (cell_at (contents_of self.now).memory (cell_in b cell)) }
        ensures { cell_at (contents_of self.now).memory (cell_in b cell) ≡ Some (wire_in self.now.live.items result) }
    {
        let row = self.row(b);
        self.pool.load(row.start, cell)
    }

    pub fn load(&self, b: Block, cell: u32) -> Value
        requires whole { IsWhole self.now }
        requires alive { IsTrue (is_handle self.now.live.items b) }
        requires inside { IsSome (cell_at (contents_of self.now).memory (cell_in b cell)) }
        ensures value { cell_at (contents_of self.now).memory (cell_in b cell) ≡ Some (wire_of result) }
        ensures alive { current self.now.live.items result ≡ result }
    {
        self.current(self.held_in(b, cell))
    }

    // Past the end of the block nothing is done.
    pub fn store(&mut self, b: Block, cell: u64, v: Value)
        requires whole { IsWhole self.old }
        requires alive { IsTrue (is_handle self.old.live.items b) }
        ensures whole { IsWhole self.new }
        ensures stored { contents_of self.new ≡ after_store b cell v (contents_of self.old) }
        ensures cells { self.new.pool.cells_left ≡ self.old.pool.cells_left }
        ensures births { self.new.pool.births_left ≡ self.old.pool.births_left }
    {
        let kept = self.current(v);
        let row = self.row(b);
        self.pool.put(row.start, row.cells, cell, kept);
    }

    // What was put into the block's cells.
    pub fn cells(&self, b: Block) -> &[Value]
        requires whole { IsWhole self.now }
        requires alive { IsTrue (is_handle self.now.live.items b) }
        ensures { (index : ℕ) → cell_at (contents_of self.now).memory (cell_in b index) ≡ slice_get (map (wire_in self.now.live.items) result.now) index }
    {
        let row = self.row(b);
        self.pool.cells(row.start, row.cells)
    }

    // The handle at this place.
    fn handle_at(&self, place: usize) -> Option<Block>
        ensures { result ≡ slice_get self.now.live.items place }
    {
        match self.live.get(place) {
            Some(b) => Some(*b),
            None => None,
        }
    }

    // What was put into the cells of the block at this place among those that live.
    pub fn cells_at(&self, place: usize) -> Option<&[Value]>
        requires { IsWhole self.now }
        ensures { option_map (λ x. x.cells) (slice_get (contents_of self.now).memory place) ≡ option_map (map (wire_in self.now.live.items)) (option_copied result) }
    {
        match self.handle_at(place) {
            Some(b) => {
                let row = self.row(b);
                Some(self.pool.cells(row.start, row.cells))
            }
            None => None,
        }
    }

    // How the block at this place among those that live was born.
    pub fn born_at(&self, place: usize) -> Option<New>
        requires { IsWhole self.now }
        ensures { option_map (λ x. x.born) (slice_get (contents_of self.now).memory place) ≡ result }
    {
        match self.handle_at(place) {
            Some(b) => Some(self.row(b).born),
            None => None,
        }
    }

    pub fn find(&self, serial: u64) -> Option<Block>
        requires { IsWhole self.now }
        ensures { result ≡ handle_of self.now.live.items serial }
    {
        let i = place_of(&self.live, serial)?;
        Some(self.live[i])
    }

    // How the handle's block was born.
    pub fn born(&self, b: Block) -> New
        requires whole { IsWhole self.now }
        requires alive { IsTrue (is_handle self.now.live.items b) }
        ensures { born_at (contents_of self.now).memory b.serial ≡ Some result }
    {
        self.row(b).born
    }

    // Where the handle's block begins, and how many cells it has.
    pub fn place(&self, b: Block) -> (u64, u64)
        requires whole { IsWhole self.now }
        requires alive { IsTrue (is_handle self.now.live.items b) }
        ensures { IsBlock (laid self.now.pool.places.lives).marks b.serial result.0 result.1 }
    {
        let row = self.row(b);
        (row.start as u64, row.cells as u64)
    }

    pub fn births(&self) -> u64
        requires { IsWhole self.now }
        ensures value { result ≡ births_in self.now.pool.places.lives }
        ensures in_order { IsInOrder (contents_of self.now) }
    {
        self.pool.places.births
    }

    pub fn live(&self) -> u64
        requires { IsWhole self.now }
        ensures { result ≡ length (contents_of self.now).memory }
    {
        self.live.len() as u64
    }

    // Makes room for handles and rows of so many births more.
    fn make_room(&mut self, births: usize) -> Result<(), OutOfMemory>
        requires whole { IsWhole self.old }
        requires more { self.old.pool.births_left < births }
        ensures whole { IsWhole self.new }
        ensures contents { contents_of self.new ≡ contents_of self.old }
        ensures pool { self.new.pool ≡ self.old.pool }
        ensures listed { OnOk result (length self.new.live.items + births ≤ vec_capacity self.new.live) }
        ensures room { OnOk result (HasRoomFor self.new.rows births) }
        ensures small { OnOk result (self.new.rows.capacity ≤ 2 ^ 32) }
    {
        self.live.reserve(births)?;
        make_slots(&mut self.rows, births)
    }

    pub fn reserve(&mut self, cells: usize, births: usize) -> Result<(), OutOfMemory>
        requires { IsWhole self.old }
        ensures whole { IsWhole self.new }
        ensures contents { contents_of self.new ≡ contents_of self.old }
        ensures cells { OnOk result (cells ≤ self.new.pool.cells_left) }
        ensures births { OnOk result (births ≤ self.new.pool.births_left) }
        ensures same_cells { OnErr result (self.new.pool.cells_left ≡ self.old.pool.cells_left) }
        ensures same_births { OnErr result (self.new.pool.births_left ≡ self.old.pool.births_left) }
    {
        if births > self.pool.births_left {
            self.make_room(births)?;
        }
        self.pool.reserve(cells, births)
    }
}
