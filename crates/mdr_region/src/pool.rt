// Cells in one pool.

ghost use Rattle.std.specs.Prelude.{◌≡◌, ◌<◌, ◌≤◌, ◌+◌, ◌-◌, ◌++◌, [], ◌∷◌, ◌^◌, length, take, drop, true, false, is_some, IsOk, IfOk, OnOk, OnErr, vec_capacity, slice_get, Some, cond, nat_lt};
ghost use Rattle.mdr_mem.specs.declared.cells.Life.TheVariants as life;
ghost use Rattle.mdr_region.specs.Layout.{laid, layout_of};
ghost use Rattle.mdr_region.specs.Holes.{found};
ghost use Rattle.mdr_region.specs.Blocks.{IsBlock};
ghost use Rattle.mdr_region.specs.Births.{IsAsBefore, IsBorn};
ghost use Rattle.mdr_region.specs.PlacesView.{IsSound};
ghost use Rattle.mdr_region.specs.Cells.{cells_of, written, put_cell};

use crate::places::Places;
use mdr_core::{Limit, OutOfMemory, Value};
use std::alloc::Global;

/// The cells of all blocks, each at its place. `cells_left` and `births_left` are what was reserved.
#[derive(Drop)]
pub struct Pool {
    pub places: Places,
    pub values: Vec<Value>,
    pub cells_left: usize,
    pub births_left: usize,
}

// Puts values into cells that are there.
fn overwrite(values: &mut Vec<Value>, start: usize, first: &[Value])
    requires { start + length first.now ≤ length values.old.items }
    ensures values { values.new.items ≡ written start first.now values.old.items }
    ensures capacity { vec_capacity values.new ≡ vec_capacity values.old }
{
    let end = start + first.len();
    values[start..end].copy_from_slice(first);
}

impl Pool {
    pub fn new(alloc: Global) -> Pool
        ensures sound { IsSound result }
        ensures empty { result.places.lives ≡ [] }
        ensures serials { result.places.births ≡ 0 }
        ensures values { result.values.items ≡ [] }
        ensures cells_left { result.cells_left ≡ 0 }
        ensures births_left { result.births_left ≡ 0 }
    {
        Pool {
            places: Places::new(alloc),
            values: Vec::new(alloc),
            cells_left: 0,
            births_left: 0,
        }
    }

    // A birth where a hole fits.
    fn birth_in_hole(&mut self, first: &[Value]) -> Result<usize, OutOfMemory>
        requires sound { IsSound self.old }
        requires some { 0 < length first.now }
        requires few { length first.now ≤ 4294967295 }
        requires hole { is_some (found (length first.now) self.old.places.holes.items) ≡ true }
        ensures sound { IsSound self.new }
        ensures born { IfOk result (IsBorn self.old self.new first.now) }
        ensures as_before { OnErr result (IsAsBefore self.old self.new) }
        ensures succeeds { 0 < self.old.births_left → IsOk result }
    {
        let start = self.places.birth(first.len() as u32)?;
        overwrite(&mut self.values, start, first);
        self.cells_left = self.cells_left.saturating_sub(first.len());
        self.births_left = self.births_left.saturating_sub(1);
        Ok(start)
    }

    // A birth where none does.
    fn birth_at_top(&mut self, first: &[Value]) -> Result<usize, OutOfMemory>
        requires sound { IsSound self.old }
        requires some { 0 < length first.now }
        requires few { length first.now ≤ 4294967295 }
        requires no_hole { is_some (found (length first.now) self.old.places.holes.items) ≡ false }
        ensures sound { IsSound self.new }
        ensures born { IfOk result (IsBorn self.old self.new first.now) }
        ensures as_before { OnErr result (IsAsBefore self.old self.new) }
        ensures succeeds { length first.now ≤ self.old.cells_left → 0 < self.old.births_left → IsOk result }
    {
        self.values.reserve(first.len())?;
        let start = self.places.birth(first.len() as u32)?;
        if self.values.extend_from_slice(first).is_err() {
            unreachable!()
        }
        self.cells_left = self.cells_left.saturating_sub(first.len());
        self.births_left = self.births_left.saturating_sub(1);
        Ok(start)
    }

    // A birth of a block without cells.
    fn birth_of_none(&mut self) -> Result<usize, OutOfMemory>
        requires { IsSound self.old }
        ensures sound { IsSound self.new }
        ensures born { OnOk result (self.new.places.lives ≡ self.old.places.lives ++ life.Birth 0 ∷ []) }
        ensures block { IfOk result (λ start. IsBlock (laid self.new.places.lives).marks self.old.places.births start 0) }
        ensures start { IfOk result (λ start. start ≡ 0) }
        ensures values { self.new.values.items ≡ self.old.values.items }
        ensures as_before { OnErr result (self.new.places.lives ≡ self.old.places.lives) }
        ensures cells_left { self.new.cells_left ≡ self.old.cells_left }
        ensures births_left { OnOk result (self.new.births_left ≡ self.old.births_left - 1) }
        ensures same_births { OnErr result (self.new.births_left ≡ self.old.births_left) }
        ensures serials { OnOk result (self.new.places.births ≡ self.old.places.births + 1) }
        ensures same_serials { OnErr result (self.new.places.births ≡ self.old.places.births) }
        ensures succeeds { 0 < self.old.births_left → IsOk result }
    {
        self.places.birth_of_none()?;
        self.births_left = self.births_left.saturating_sub(1);
        Ok(0)
    }

    /// A new block with these first values, and where it begins. What was reserved is enough for it.
    pub fn birth(&mut self, first: &[Value]) -> Result<usize, OutOfMemory>
        requires sound { IsSound self.old }
        requires few { length first.now ≤ 4294967295 }
        ensures sound { IsSound self.new }
        ensures born { IfOk result (IsBorn self.old self.new first.now) }
        ensures as_before { OnErr result (IsAsBefore self.old self.new) }
        ensures succeeds { length first.now ≤ self.old.cells_left → 0 < self.old.births_left → IsOk result }
    {
        if first.is_empty() {
            self.birth_of_none()
        } else if self.places.has_hole(first.len()) {
            self.birth_in_hole(first)
        } else {
            self.birth_at_top(first)
        }
    }

    /// Ends the block at these places. It takes no memory, and leaves what was reserved.
    pub fn death(&mut self, serial: u64, start: usize, cells: u32)
        requires sound { IsSound self.old }
        requires block { IsBlock (laid self.old.places.lives).marks serial start cells }
        ensures sound { IsSound self.new }
        ensures dead { self.new.places.lives ≡ self.old.places.lives ++ life.Death serial ∷ [] }
        ensures values { self.new.values.items ≡ take self.new.places.top self.old.values.items }
        ensures serials { self.new.places.births ≡ self.old.places.births }
        ensures cells_left { self.new.cells_left ≡ self.old.cells_left }
        ensures births_left { self.new.births_left ≡ self.old.births_left }
    {
        self.places.death(serial, start, cells);
        self.values.truncate(self.places.top);
    }

    /// What the cell holds.
    pub fn load(&self, start: usize, cell: u32) -> Value
        requires { start + cell < length self.now.values.items }
        ensures { slice_get self.now.values.items (start + cell) ≡ Some result }
    {
        self.values[start + cell as usize]
    }

    /// The cells from a place on.
    pub fn cells(&self, start: usize, cells: u32) -> &[Value]
        requires { start + cells ≤ length self.now.values.items }
        ensures { result.now ≡ cells_of start cells self.now.values.items }
    {
        let end = start + cells as usize;
        &self.values[start..end]
    }

    /// Puts a value into a cell of those from a place on. Past them nothing is done.
    pub fn put(&mut self, start: usize, cells: u32, cell: u64, v: Value)
        requires sound { IsSound self.old }
        requires inside { start + cells ≤ length self.old.values.items }
        ensures sound { IsSound self.new }
        ensures values { self.new.values.items ≡ put_cell start cells cell v self.old.values.items }
        ensures places { self.new.places ≡ self.old.places }
        ensures cells_left { self.new.cells_left ≡ self.old.cells_left }
        ensures births_left { self.new.births_left ≡ self.old.births_left }
    {
        if cell < cells as u64 {
            self.values[start + cell as usize] = v;
        }
    }

    /// Makes room for so many cells and births. Where it is refused all is as before.
    pub fn reserve(&mut self, cells: usize, births: usize) -> Result<(), OutOfMemory>
        requires sound { IsSound self.old }
        ensures sound { IsSound self.new }
        ensures lives { self.new.places.lives ≡ self.old.places.lives }
        ensures serials { self.new.places.births ≡ self.old.places.births }
        ensures values { self.new.values.items ≡ self.old.values.items }
        ensures cells { OnOk result (cells ≤ self.new.cells_left) }
        ensures births { OnOk result (births ≤ self.new.births_left) }
        ensures most { OnOk result (self.new.births_left ≡ cond (nat_lt self.old.births_left births) births self.old.births_left) }
        ensures same_cells { OnErr result (self.new.cells_left ≡ self.old.cells_left) }
        ensures same_births { OnErr result (self.new.births_left ≡ self.old.births_left) }
    {
        if births as u64 > u64::MAX - self.places.births {
            return Err(Limit::Births.past());
        }
        self.places.make_room(births)?;
        self.values.reserve(cells)?;
        if self.cells_left < cells {
            self.cells_left = cells;
        }
        if self.births_left < births {
            self.births_left = births;
        }
        Ok(())
    }

    /// Cells and births that can't want memory.
    pub fn spare(&self) -> (u64, u64)
        ensures cells { result.0 ≡ self.now.cells_left }
        ensures births { result.1 ≡ self.now.births_left }
    {
        (self.cells_left as u64, self.births_left as u64)
    }

    /// The used places, and the top.
    pub fn layout(&self) -> (u64, u64)
        requires { IsSound self.now }
        ensures taken { result.0 ≡ (layout_of self.now.places.lives).taken }
        ensures top { result.1 ≡ (layout_of self.now.places.lives).top }
    {
        self.places.layout()
    }
}
