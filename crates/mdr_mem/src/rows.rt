// The rows of the plain memory.

ghost use Rattle.std.specs.Prelude.{◌≡◌, ◌<◌, ◌≤◌, ◌+◌, ◌++◌, [], ◌∷◌, length, map, IsTrue, IsSome, IfOk};
ghost use Rattle.std.specs.Prelude.{OnOk, OnErr, vec_capacity, slice_get, slice_set, Some, None, option_copied, option_map, ℕ, ◌^◌, ◌-◌};
ghost use Rattle.mdr_model.specs.Memory.{cell_at, born_at};
ghost use Rattle.mdr_meaning.specs.Values.{wire_of};
ghost use Rattle.mdr_mem.specs.Contents.{is_handle, handle_of, cell_in, current, births_in, after_birth, after_death, after_store, shape_of, kind_of, IsInOrder, with_block, wire_in};
ghost use Rattle.mdr_mem.specs.Rows.{IsSound, in_slot, is_held, shown, AreOld, with_cell};
ghost use Rattle.slab.specs.Slab.{HasRoomFor, Updates, get};
ghost use Rattle.mdr_mem.specs.RowsView.{contents_of, AreSound};

use crate::cells::Life;
use crate::search::{forget, place_of};
use mdr_core::{Block, Items, Limit, OutOfMemory, Shape, Value, below};
use mdr_model::{BirthKind, New};
use slab::Slab;
use std::alloc::Global;

// A block in its slot.
#[derive(Drop)]
pub struct Held {
    pub born: New,
    pub cells: Items<Value>,
}

// Handles in the order of births, so that serials rise; the blocks by their slots; and all births and deaths.
// `lives` has room for the death of each block that lives.
#[derive(Drop)]
pub struct Rows {
    pub live: Vec<Block>,
    pub held: Slab<Held>,
    pub lives: Vec<Life>,
    pub births: u64,
}

impl Rows {
    pub fn new(alloc: Global) -> Rows
        ensures sound { AreSound result }
        ensures empty { contents_of result ≡ record { handles = []; memory = []; lives = [] } }
    {
        Rows {
            live: Vec::new(alloc),
            held: Slab::new(alloc),
            lives: Vec::new(alloc),
            births: 0,
        }
    }

    // Whether the handle's block lives, in constant time.
    pub fn alive(&self, b: Block) -> bool
        ensures { result ≡ is_held self.now.held.slots b }
    {
        match self.held.get(b.slot as usize) {
            Some(x) => x.born.serial == b.serial,
            None => false,
        }
    }

    // A pointer whose handle is not alive is a dead one.
    #[tactic(auto, unfolding(crate::specs::Contents::current))]
    pub fn current(&self, v: Value) -> Value
        requires { AreSound self.now }
        ensures { result ≡ current self.now.live.items v }
    {
        match v {
            Value::Ptr(p) => { if self.alive(p.block) { v } else { Value::Dead } }
            _ => v,
        }
    }

    // What the slot of a live handle holds.
    pub fn held(&self, b: Block) -> &Held
        requires { IsTrue (is_held self.now.held.slots b) }
        ensures { in_slot self.now.held.slots b.slot ≡ Some result.now }
    {
        match self.held.get(b.slot as usize) {
            Some(x) => x,
            None => unreachable!(),
        }
    }

    // The values as they are now.
    pub fn kept(&self, alloc: Global, first: &[Value]) -> Result<Items<Value>, OutOfMemory>
        requires { AreSound self.now }
        ensures { IfOk result (λ cells. cells ≡ map (current self.now.live.items) first.now) }
    {
        let mut cells = Vec::with_capacity(alloc, first.len())?;
        for v in first {
            cells.push(self.current(*v))?;
        }
        Ok(Items::from_vec(cells))
    }

    // The handle of the next block. Slots and serials may have run out.
    pub fn next_handle(&self) -> Result<Block, OutOfMemory>
        ensures slot { IfOk result (λ b. b.slot ≡ self.now.held.vacant_key) }
        ensures serial { IfOk result (λ b. b.serial ≡ self.now.births) }
        ensures more { OnOk result (self.now.births < 2 ^ 64 - 1) }
    {
        let slot = self.held.vacant_key();
        below(slot as u64, Limit::Blocks)?;
        below(self.births, Limit::Births)?;
        Ok(Block {
            slot: slot as u32,
            serial: self.births,
        })
    }

    // Makes room for a block, its birth and its death.
    pub fn make_room(&mut self) -> Result<(), OutOfMemory>
        requires { AreSound self.old }
        ensures sound { AreSound self.new }
        ensures live { self.new.live.items ≡ self.old.live.items }
        ensures held { self.new.held ≡ record self.old.held { capacity = self.new.held.capacity } }
        ensures lives { self.new.lives.items ≡ self.old.lives.items }
        ensures births { self.new.births ≡ self.old.births }
        ensures room_live { OnOk result (length self.new.live.items < vec_capacity self.new.live) }
        ensures room_held { OnOk result (HasRoomFor self.new.held 1) }
        ensures room_lives { OnOk result (length self.new.lives.items + length self.new.live.items + 2 ≤ vec_capacity self.new.lives) }
    {
        self.live.reserve(1)?;
        self.held.reserve(1)?;
        let more = self.live.len() + 2;
        self.lives.reserve(more)?;
        Ok(())
    }

    // Adds a block where there is room.
    pub fn add(&mut self, block: Block, held: Held)
        requires sound { AreSound self.old }
        requires slot { block.slot ≡ self.old.held.vacant_key }
        requires serial { block.serial ≡ self.old.births }
        requires more { self.old.births < 2 ^ 64 - 1 }
        requires born { held.born.serial ≡ block.serial }
        requires cells { AreOld self.old.births held.cells }
        requires few { length held.cells ≤ 65536 }
        requires room_live { length self.old.live.items < vec_capacity self.old.live }
        requires room_held { HasRoomFor self.old.held 1 }
        requires room_lives { length self.old.lives.items + length self.old.live.items + 2 ≤ vec_capacity self.old.lives }
        ensures sound { AreSound self.new }
        ensures added { contents_of self.new ≡ with_block block (shown self.old.live.items (Some held)) (length held.cells) (contents_of self.old) }
    {
        let cells = held.cells.len() as u32;
        self.held.insert_reserved(held);
        self.live.push_reserved(block);
        self.lives.push_reserved(Life::Birth { cells });
        self.births += 1;
    }

    pub fn birth(
        &mut self,
        alloc: Global,
        kind: BirthKind,
        shape: Shape,
        first: &[Value],
    ) -> Result<Block, OutOfMemory>
        requires sound { AreSound self.old }
        requires few { length first.now ≤ 65536 }
        ensures sound { AreSound self.new }
        ensures next { IfOk result (λ b. b.serial ≡ births_in self.old.lives.items) }
        ensures born { IfOk result (λ b. contents_of self.new ≡ after_birth kind shape first.now b (contents_of self.old)) }
        ensures as_before { OnErr result (contents_of self.new ≡ contents_of self.old) }
    {
        let block = self.next_handle()?;
        let cells = self.kept(alloc, first)?;
        self.make_room()?;
        let born = New {
            serial: block.serial,
            kind,
            ty: shape.ty,
            count: shape.count,
        };
        self.add(block, Held { born, cells });
        Ok(block)
    }

    pub fn kill(&mut self, b: Block)
        requires sound { AreSound self.old }
        requires alive { IsTrue (is_handle self.old.live.items b) }
        ensures sound { AreSound self.new }
        ensures dead { contents_of self.new ≡ after_death b.serial (contents_of self.old) }
    {
        forget(&mut self.live, b.serial);
        self.held.remove(b.slot as usize);
        self.lives.push_reserved(Life::Death { serial: b.serial });
    }

    // What was put into the cell.
    fn held_in(&self, b: Block, cell: u32) -> Value
        requires sound { AreSound self.now }
        requires alive { IsTrue (is_handle self.now.live.items b) }
        requires inside { IsSome (cell_at (contents_of self.now).memory (cell_in b cell)) }
        ensures { cell_at (contents_of self.now).memory (cell_in b cell) ≡ Some (wire_in self.now.live.items result) }
    {
        self.held(b).cells.as_slice()[cell as usize]
    }

    pub fn load(&self, b: Block, cell: u32) -> Value
        requires sound { AreSound self.now }
        requires alive { IsTrue (is_handle self.now.live.items b) }
        requires inside { IsSome (cell_at (contents_of self.now).memory (cell_in b cell)) }
        ensures value { cell_at (contents_of self.now).memory (cell_in b cell) ≡ Some (wire_of result) }
        ensures alive { current self.now.live.items result ≡ result }
    {
        self.current(self.held_in(b, cell))
    }

    // Past the end of the block nothing is done.
    pub fn store(&mut self, b: Block, cell: u64, v: Value)
        requires sound { AreSound self.old }
        requires alive { IsTrue (is_handle self.old.live.items b) }
        ensures sound { AreSound self.new }
        ensures stored { contents_of self.new ≡ after_store b cell v (contents_of self.old) }
    {
        let kept = self.current(v);
        set_cell(&mut self.held, b.slot as usize, cell as usize, kept);
    }

    // What was put into the block's cells.
    pub fn cells(&self, b: Block) -> &[Value]
        requires sound { AreSound self.now }
        requires alive { IsTrue (is_handle self.now.live.items b) }
        ensures { (index : ℕ) → cell_at (contents_of self.now).memory (cell_in b index) ≡ slice_get (map (wire_in self.now.live.items) result.now) index }
    {
        self.held(b).cells.as_slice()
    }

    // The handle at this place.
    pub fn handle_at(&self, place: usize) -> Option<Block>
        ensures { result ≡ slice_get self.now.live.items place }
    {
        match self.live.get(place) {
            Some(b) => Some(*b),
            None => None,
        }
    }

    // What was put into the cells of the block at this place among those that live.
    pub fn cells_at(&self, place: usize) -> Option<&[Value]>
        requires { AreSound self.now }
        ensures { option_map (λ x. x.cells) (slice_get (contents_of self.now).memory place) ≡ option_map (map (wire_in self.now.live.items)) (option_copied result) }
    {
        match self.handle_at(place) {
            Some(b) => Some(self.held(b).cells.as_slice()),
            None => None,
        }
    }

    // How the block at this place among those that live was born.
    pub fn born_at(&self, place: usize) -> Option<New>
        requires { AreSound self.now }
        ensures { option_map (λ x. x.born) (slice_get (contents_of self.now).memory place) ≡ result }
    {
        match self.handle_at(place) {
            Some(b) => Some(self.held(b).born),
            None => None,
        }
    }

    pub fn find(&self, serial: u64) -> Option<Block>
        requires { AreSound self.now }
        ensures { result ≡ handle_of self.now.live.items serial }
    {
        let i = place_of(&self.live, serial)?;
        Some(self.live[i])
    }

    // How the handle's block was born.
    pub fn born(&self, b: Block) -> New
        requires sound { AreSound self.now }
        requires alive { IsTrue (is_handle self.now.live.items b) }
        ensures { born_at (contents_of self.now).memory b.serial ≡ Some result }
    {
        self.held(b).born
    }

    pub fn births(&self) -> u64
        requires { AreSound self.now }
        ensures value { result ≡ births_in self.now.lives.items }
        ensures in_order { IsInOrder (contents_of self.now) }
    {
        self.births
    }

    pub fn live(&self) -> u64
        requires { AreSound self.now }
        ensures { result ≡ length (contents_of self.now).memory }
    {
        self.live.len() as u64
    }
}

// Puts a value into a cell of the block in a slot.
fn set_cell(held: &mut Slab<Held>, slot: usize, cell: usize, v: Value)
    requires { IsSome (get held.old slot) }
    ensures { Updates held.old held.new slot (option_map (λ x. with_cell x cell v) (get held.old slot)) }
{
    if let Some(x) = held.get_mut(slot) {
        x.cells.set(cell, v);
    }
}
