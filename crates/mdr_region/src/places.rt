// Where blocks lie.

ghost use Rattle.std.specs.Prelude.{◌≡◌, ◌<◌, ◌≤◌, ◌+◌, ◌-◌, ◌++◌, [], ◌∷◌, ◌^◌, IsOk, IfOk, OnOk, OnErr, IfSome, IfNone, is_some, false, vec_capacity};
ghost use Rattle.mdr_mem.specs.declared.cells.Life.TheVariants as life;
ghost use Rattle.mdr_region.specs.Layout.{laid, layout_of};
ghost use Rattle.mdr_region.specs.Holes.{Rise, found, cut, start_of, risen};
ghost use Rattle.mdr_region.specs.Blocks.{IsBlock};
ghost use Rattle.mdr_region.specs.PlacesView.{AreSound, Fits};

use crate::holes::{Hole, drop_top, first_of, give_back, take_first};
use mdr_core::{Limit, OutOfMemory, below};
use mdr_history::History;
use mdr_mem::Life;
use std::alloc::Global;

// Where a block begins, and where the top is with it.
#[derive(Clone, Copy)]
struct Placed {
    start: usize,
    top: usize,
}

/// The places of live blocks. `holes` has room for as many holes as there are blocks.
#[derive(Drop)]
pub struct Places {
    pub holes: Vec<Hole>,
    pub top: usize,
    pub taken: usize,
    pub births: u64,
    pub live: usize,
    pub lives: History<Life>,
}

// Takes n places from the first hole that has as many, else from the top.
fn place(holes: &mut Vec<Hole>, n: usize, top: usize) -> Option<Placed>
    requires { Rise 0 top holes.old.items }
    ensures start { IfSome result (λ p. p.start ≡ start_of top (found n holes.old.items)) }
    ensures top { IfSome result (λ p. p.top ≡ top + risen n (found n holes.old.items)) }
    ensures fits { IfSome result (λ p. p.top < 2 ^ 64) }
    ensures holes { holes.new.items ≡ cut n holes.old.items }
    ensures as_before { IfNone result (holes.new.items ≡ holes.old.items) }
    ensures high { IfNone result (2 ^ 64 ≤ top + n) }
    ensures none { IfNone result (is_some (found n holes.old.items) ≡ false) }
    ensures capacity { vec_capacity holes.new ≡ vec_capacity holes.old }
{
    match take_first(holes, n, top) {
        Some(start) => Some(Placed { start, top }),
        None => match top.checked_add(n) {
            Some(sum) => Some(Placed {
                start: top,
                top: sum,
            }),
            None => None,
        },
    }
}

impl Places {
    pub fn new(alloc: Global) -> Places
        ensures sound { AreSound result }
        ensures empty { result.lives ≡ [] }
        ensures top { result.top ≡ 0 }
        ensures live { result.live ≡ 0 }
        ensures births { result.births ≡ 0 }
    {
        Places {
            holes: Vec::new(alloc),
            top: 0,
            taken: 0,
            births: 0,
            live: 0,
            lives: History::new(),
        }
    }

    /// Whether a hole has so many places.
    pub fn has_hole(&self, n: usize) -> bool
        ensures { result ≡ is_some (found n self.now.holes.items) }
    {
        first_of(&self.holes, n).is_some()
    }

    /// Makes room for so many blocks more.
    pub fn make_room(&mut self, blocks: usize) -> Result<(), OutOfMemory>
        requires { AreSound self.old }
        ensures sound { AreSound self.new }
        ensures holes { self.new.holes.items ≡ self.old.holes.items }
        ensures top { self.new.top ≡ self.old.top }
        ensures taken { self.new.taken ≡ self.old.taken }
        ensures births { self.new.births ≡ self.old.births }
        ensures live { self.new.live ≡ self.old.live }
        ensures lives { self.new.lives ≡ self.old.lives }
        ensures room { OnOk result (self.old.live + blocks ≤ vec_capacity self.new.holes) }
        ensures fits { OnOk result (self.old.live + blocks < 2 ^ 64) }
        ensures capacity { vec_capacity self.old.holes ≤ vec_capacity self.new.holes }
        ensures wanting { OnErr result (vec_capacity self.old.holes < self.old.live + blocks) }
        ensures as_before { OnErr result (vec_capacity self.new.holes ≡ vec_capacity self.old.holes) }
    {
        let Some(most) = self.live.checked_add(blocks) else {
            return Err(Limit::Blocks.past());
        };
        if most <= self.holes.capacity() {
            return Ok(());
        }
        self.holes.reserve(most)?;
        Ok(())
    }

    /// Where a block of so many cells begins that is born now.
    pub fn birth(&mut self, cells: u32) -> Result<usize, OutOfMemory>
        requires sound { AreSound self.old }
        requires some { 0 < cells }
        ensures sound { AreSound self.new }
        ensures born { IfOk result (λ start. self.new.lives ≡ self.old.lives ++ life.Birth cells ∷ []) }
        ensures block { IfOk result (λ start. IsBlock (laid self.new.lives).marks self.old.births start cells) }
        ensures start { IfOk result (λ start. start ≡ start_of self.old.top (found cells self.old.holes.items)) }
        ensures top { OnOk result (self.new.top ≡ self.old.top + risen cells (found cells self.old.holes.items)) }
        ensures same_top { OnErr result (self.new.top ≡ self.old.top) }
        ensures births { OnOk result (self.new.births ≡ self.old.births + 1) }
        ensures same_births { OnErr result (self.new.births ≡ self.old.births) }
        ensures as_before { OnErr result (self.new.lives ≡ self.old.lives) }
        ensures spare_births { vec_capacity self.old.holes + self.new.live ≤ vec_capacity self.new.holes + self.old.live + 1 }
        ensures fits { OnOk result (self.new.births < 2 ^ 64) }
        ensures succeeds { Fits self.old cells → self.old.live < vec_capacity self.old.holes → self.old.births < 2 ^ 64 - 1 → IsOk result }
    {
        if self.births == u64::MAX {
            return Err(Limit::Births.past());
        }
        self.make_room(1)?;
        let Some(placed) = place(&mut self.holes, cells as usize, self.top) else {
            return Err(Limit::Cells.past());
        };
        self.top = placed.top;
        self.taken += cells as usize;
        self.births += 1;
        self.live += 1;
        self.lives = self.lives.and(&Life::Birth { cells });
        Ok(placed.start)
    }

    /// A block without cells is born. It takes no place.
    pub fn birth_of_none(&mut self) -> Result<(), OutOfMemory>
        requires { AreSound self.old }
        ensures sound { AreSound self.new }
        ensures born { OnOk result (self.new.lives ≡ self.old.lives ++ life.Birth 0 ∷ []) }
        ensures block { OnOk result (IsBlock (laid self.new.lives).marks self.old.births 0 0) }
        ensures top { self.new.top ≡ self.old.top }
        ensures births { OnOk result (self.new.births ≡ self.old.births + 1) }
        ensures same_births { OnErr result (self.new.births ≡ self.old.births) }
        ensures as_before { OnErr result (self.new.lives ≡ self.old.lives) }
        ensures live { self.new.live ≡ self.old.live }
        ensures holes { vec_capacity self.new.holes ≡ vec_capacity self.old.holes }
        ensures fits { OnOk result (self.new.births < 2 ^ 64) }
        ensures succeeds { self.old.births < 2 ^ 64 - 1 → IsOk result }
    {
        below(self.births, Limit::Births)?;
        self.births += 1;
        self.lives = self.lives.and(&Life::Birth { cells: 0 });
        Ok(())
    }

    /// Ends the block at these places.
    pub fn death(&mut self, serial: u64, start: usize, cells: u32)
        requires sound { AreSound self.old }
        requires block { IsBlock (laid self.old.lives).marks serial start cells }
        ensures sound { AreSound self.new }
        ensures dead { self.new.lives ≡ self.old.lives ++ life.Death serial ∷ [] }
        ensures spare_cells { self.new.top ≤ self.old.top }
        ensures spare_births { vec_capacity self.old.holes + self.new.live ≤ vec_capacity self.new.holes + self.old.live }
        ensures births { self.new.births ≡ self.old.births }
    {
        if cells == 0 {
            self.lives = self.lives.and(&Life::Death { serial });
            return;
        }
        give_back(&mut self.holes, start, cells as usize, self.top);
        self.top = drop_top(&mut self.holes, self.top);
        self.taken -= cells as usize;
        self.live -= 1;
        self.lives = self.lives.and(&Life::Death { serial });
    }

    /// The used places, and the top.
    pub fn layout(&self) -> (u64, u64)
        requires { AreSound self.now }
        ensures taken { result.0 ≡ (layout_of self.now.lives).taken }
        ensures top { result.1 ≡ (layout_of self.now.lives).top }
    {
        (self.taken as u64, self.top as u64)
    }
}
