// The memory that running code loads from and stores to.

use mdr_core::{Block, OutOfMemory, Shape, Value};
use mdr_model::BirthKind;
use std::alloc::Global;

/// A birth or a death.
#[derive(Clone, Copy)]
pub enum Life {
    /// Of a block of so many cells.
    Birth { cells: u32 },
    /// Of the block with this serial.
    Death { serial: u64 },
}

/// A memory. `contents` is what it holds: the handles of the live blocks in the order of their births, the blocks
/// with their cells, and all births and deaths so far. `touchable` are the cells that running code may touch,
/// `None` where it may touch all; no call changes them.
///
/// A `Block` is a handle: it is alive while its block lives, and never again, whoever lies in its slot later.
/// Pointers are held as given. Those whose handles aren't alive are dead ones.
pub trait Cells {
    ghost use Rattle.std.specs.Prelude.{◌≡◌, ◌<◌, ◌≤◌, ℕ, List, length, Option, Some, IsTrue, IsSome, IfOk, OnErr};
    ghost use Rattle.mdr_model.specs.Memory.{cell_at, born_at};
    ghost use Rattle.mdr_model.specs.declared.memory.Cell.{Cell};
    ghost use Rattle.mdr_meaning.specs.Values.{wire_of};
    ghost use Rattle.mdr_mem.specs.Contents.{Contents, IsInOrder, is_handle, handle_of, cell_in, current, births_in, after_birth, after_death, after_store, shape_of, kind_of, may_touch};

    ghost contents: { Self → Contents };

    ghost touchable: { Self → Option (List Cell) };

    /// A new block with these first values. Where memory is wanting all is as before.
    fn birth(
        &mut self,
        alloc: Global,
        kind: BirthKind,
        shape: Shape,
        first: &[Value],
    ) -> Result<Block, OutOfMemory>
        requires some { 0 < length first.now }
        requires few { length first.now ≤ 65536 }
        ensures next { IfOk result (λ b. b.serial ≡ births_in (contents self.old).lives) }
        ensures born { IfOk result (λ b. contents self.new ≡ after_birth kind shape first.now b (contents self.old)) }
        ensures as_before { OnErr result (contents self.new ≡ contents self.old) }
        ensures same_cells { touchable self.new ≡ touchable self.old };

    /// Ends the block. Pointers to it are dead ones from now on.
    fn kill(&mut self, b: Block)
        requires alive { IsTrue (is_handle (contents self.old).handles b) }
        ensures dead { contents self.new ≡ after_death b.serial (contents self.old) }
        ensures same_cells { touchable self.new ≡ touchable self.old };

    /// What the cell holds. A pointer that it gives is alive, or `Dead`.
    fn load(&self, b: Block, cell: u32) -> Value
        requires alive { IsTrue (is_handle (contents self.now).handles b) }
        requires inside { IsSome (cell_at (contents self.now).memory (cell_in b cell)) }
        ensures value { cell_at (contents self.now).memory (cell_in b cell) ≡ Some (wire_of result) }
        ensures alive { current (contents self.now).handles result ≡ result };

    /// Puts a value into the cell. No other cell changes.
    fn store(&mut self, b: Block, cell: u32, v: Value)
        requires alive { IsTrue (is_handle (contents self.old).handles b) }
        requires inside { IsSome (cell_at (contents self.old).memory (cell_in b cell)) }
        ensures stored { contents self.new ≡ after_store b cell v (contents self.old) }
        ensures same_cells { touchable self.new ≡ touchable self.old };

    /// Whether the handle's block lives.
    fn alive(&self, b: Block) -> bool
        ensures { result ≡ is_handle (contents self.now).handles b };

    /// What the block is made of.
    fn shape(&self, b: Block) -> Shape
        requires { IsTrue (is_handle (contents self.now).handles b) }
        ensures { shape_of (born_at (contents self.now).memory b.serial) ≡ Some result };

    /// How the block was born.
    fn kind(&self, b: Block) -> BirthKind
        requires { IsTrue (is_handle (contents self.now).handles b) }
        ensures { kind_of (born_at (contents self.now).memory b.serial) ≡ Some result };

    /// The handle of the live block with this serial.
    fn find(&self, serial: u64) -> Option<Block>
        ensures { result ≡ handle_of (contents self.now).handles serial };

    /// How many blocks were born, which is the next block's serial.
    fn births(&self) -> u64
        ensures value { result ≡ births_in (contents self.now).lives }
        ensures in_order { IsInOrder (contents self.now) };

    /// How many blocks live.
    fn live(&self) -> u64
        ensures { result ≡ length (contents self.now).memory };

    /// Whether running code may touch the cell.
    fn allowed(&self, b: Block, cell: u32) -> bool
        requires alive { IsTrue (is_handle (contents self.now).handles b) }
        requires inside { IsSome (cell_at (contents self.now).memory (cell_in b cell)) }
        ensures { result ≡ may_touch (touchable self.now) (cell_in b cell) };
}
