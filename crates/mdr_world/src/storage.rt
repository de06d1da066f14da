// The memory of a run, beside all births and deaths so far.

ghost use Rattle.std.specs.Prelude.{◌≡◌, ◌+◌, ◌++◌, ◌∷◌, [], IfOk, OnOk, length};
ghost use Rattle.mdr_mem.specs.Contents.{births_in, new_block};
ghost use Rattle.mdr_mem.specs.declared.cells.Life.TheVariants as life;
ghost use Rattle.mdr_model.specs.Memory.{killed};
ghost use Rattle.mdr_region.specs.Layout.{laid};
ghost use Rattle.mdr_world.specs.Stored.{AreMarked, IsCounted};

use mdr_core::{Block, Limit, OutOfMemory, Shape, Value, within};
use mdr_history::History;
use mdr_mem::{Cells, Life};
use mdr_model::BirthKind;
use mdr_region::RegionBlocks;
use std::alloc::Global;

/// Blocks, and all births and deaths, which may tell of the death of a block that didn't live.
#[derive(Drop)]
pub struct Storage {
    pub blocks: RegionBlocks,
    pub lives: History<Life>,
}

impl Storage {
    pub fn new(alloc: Global) -> Storage
        ensures counted { IsCounted result }
        ensures memory { result.blocks.memory ≡ [] }
        ensures lives { result.lives ≡ [] }
    {
        Storage {
            blocks: RegionBlocks::new(alloc),
            lives: History::new(),
        }
    }

    /// A block more, with these first values. More of them than can be counted are too many.
    pub fn add(
        &mut self,
        alloc: Global,
        kind: BirthKind,
        shape: Shape,
        first: &[Value],
    ) -> Result<Block, OutOfMemory>
        requires { IsCounted self.old }
        ensures counted { IsCounted self.new }
        ensures serial { IfOk result (λ b. b.serial ≡ births_in self.old.lives) }
        ensures memory { IfOk result (λ b. self.new.blocks.memory ≡ self.old.blocks.memory ++ new_block kind shape first.now b self.old.blocks.handles ∷ []) }
        ensures lives { OnOk result (self.new.lives ≡ self.old.lives ++ life.Birth (length first.now) ∷ []) }
    {
        within(first.len() as u64, Limit::Cells)?;
        let block = self.blocks.birth(alloc, kind, shape, first)?;
        self.lives = with_birth(&self.lives, first.len() as u32);
        Ok(block)
    }

    /// A block dies, if it lives.
    pub fn end(&mut self, serial: u64)
        requires { IsCounted self.old }
        ensures counted { IsCounted self.new }
        ensures memory { self.new.blocks.memory ≡ killed serial self.old.blocks.memory }
        ensures lives { self.new.lives ≡ self.old.lives ++ life.Death serial ∷ [] }
    {
        end_in(&mut self.blocks, serial);
        self.lives = with_death(&self.lives, serial);
    }
}

fn with_birth(lives: &History<Life>, cells: u32) -> History<Life>
    ensures value { result ≡ lives.now ++ life.Birth cells ∷ [] }
    ensures counted { births_in result ≡ births_in lives.now + 1 }
{
    lives.and(&Life::Birth { cells })
}

fn with_death(lives: &History<Life>, serial: u64) -> History<Life>
    ensures value { result ≡ lives.now ++ life.Death serial ∷ [] }
    ensures counted { births_in result ≡ births_in lives.now }
{
    lives.and(&Life::Death { serial })
}

fn end_in(blocks: &mut RegionBlocks, serial: u64)
    ensures memory { blocks.new.memory ≡ killed serial blocks.old.memory }
    ensures births { births_in blocks.new.lives ≡ births_in blocks.old.lives }
    ensures places { AreMarked blocks.old.lives blocks.old.handles → laid blocks.new.lives ≡ laid (blocks.old.lives ++ life.Death serial ∷ []) }
    ensures marked { AreMarked blocks.old.lives blocks.old.handles → AreMarked blocks.new.lives blocks.new.handles }
{
    let _in_order = blocks.births();
    match blocks.find(serial) {
        Some(b) => blocks.kill(b),
        None => (),
    }
}
