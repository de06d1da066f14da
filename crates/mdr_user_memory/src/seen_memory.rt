// The memory that the user half's code runs on.

ghost use Rattle.std.specs.Prelude.{◌≡◌, true, false, option_map, IfSome, OnErr};
ghost use Rattle.mdr_meaning.specs.Values.{wire_of};
ghost use Rattle.mdr_model.specs.Copies.{held, put_runs};
ghost use Rattle.mdr_model.specs.Memory.{cell_at, is_live, normal, put};
ghost use Rattle.mdr_track.specs.Tracked.{pairs_of};
ghost use Rattle.mdr_user_memory.specs.Copied.{copied, past_of};
ghost use Rattle.mdr_user_memory.specs.Kept.{IsSeen, past_in};
ghost use Rattle.mdr_user_memory.specs.Paired.{now_of};
ghost use Rattle.mdr_user_memory.specs.Spots.{cell_in};

use crate::access::{fresh, loaded, stored};
use crate::bytes::read;
use crate::looking::held;
use crate::quick::{first_integer, set_first_integer};
use crate::spot::Spot;
use crate::steps::keep;
use crate::user_memory::{UserMemory, user_memory};
use mdr_copy::{CellList, RisingBlocks, put_runs};
use mdr_core::{Items, StopKind, Value};
use mdr_events::{Integer, Memory};
use mdr_meaning::Shape64;
use mdr_model::{Cell, Run};
use mdr_region::Region;
use mdr_track::Tracker;
use std::alloc::{AllocError, Global};
use std::marker::Model;

/// The memory of the user half while its code runs, and the cells that the code may touch. It is seen by the serials of
/// the copy, to which it is compared when the code comes to an event.
#[derive(Drop)]
pub struct SeenMemory {
    agreed: RisingBlocks,
    region: Region,
    pairs: Tracker,
    view: CellList,
}

impl Model for SeenMemory {
    ghost use Rattle.mdr_track.specs.Tracked.{pairs_of};
    ghost use Rattle.mdr_user_memory.specs.Copied.{Copied, copied, past_of};
    ghost use Rattle.mdr_user_memory.specs.Kept.{IsSeen};
    ghost use Rattle.mdr_user_memory.specs.Paired.{now_of};

    ghost Value = { Copied };

    ghost view = { λ s. copied (past_of s.region s.pairs) s.agreed s.view (now_of s.agreed s.region.contents (pairs_of s.pairs)) };

    ghost invariant = { λ s. IsSeen s.agreed s.region s.pairs };
}

/// The memory of these parts.
pub(crate) fn seen_memory(
    agreed: RisingBlocks,
    region: Region,
    pairs: Tracker,
    view: CellList,
) -> SeenMemory
    requires { IsSeen agreed region pairs }
    ensures { result ≡ copied (past_of region pairs) agreed view (now_of agreed region.contents (pairs_of pairs)) }
{
    SeenMemory {
        agreed,
        region,
        pairs,
        view,
    }
}

/// The copy with the values that are told.
fn told_copy(copy: RisingBlocks, runs: &[Run]) -> RisingBlocks
    ensures { result ≡ put_runs runs.now copy }
{
    let mut copy = copy;
    put_runs(&mut copy, runs);
    copy
}

/// What is left behind an event.
#[derive(Drop)]
pub struct Settled {
    pub memory: UserMemory,
    pub view: CellList,
}

impl SeenMemory {
    /// The copy that was agreed on before code ran.
    pub fn agreed(&self) -> &RisingBlocks
        ensures { result.now ≡ self.now.agreed }
    {
        &self.agreed
    }

    /// The cells that code may touch.
    pub fn view(&self) -> &CellList
        ensures { result.now ≡ self.now.view }
    {
        &self.view
    }

    /// The same, one after the other.
    pub fn cells(&self) -> &[Cell]
        ensures { result.now ≡ self.now.view }
    {
        self.view.as_slice()
    }

    /// Whether the block with a serial lives.
    pub fn is_live(&self, serial: u64) -> bool
        ensures { result ≡ is_live self.now.memory serial }
    {
        self.pairs.user_of(serial).is_some()
    }

    /// What a cell holds, where its block is live and has it.
    pub fn held(&self, spot: Spot) -> Option<Value>
        ensures { option_map wire_of result ≡ cell_at self.now.memory (cell_in spot) }
    {
        held(&self.region, &self.pairs, spot)
    }

    /// A value in hand is put into a cell. Where there is none, nothing is done. It takes no memory.
    pub fn put(&mut self, spot: Spot, value: Value)
        ensures { self.new ≡ copied self.old.past self.old.agreed self.old.view (put self.old.memory (cell_in spot) (normal self.old.memory (wire_of value))) }
    {
        keep(&mut self.region, &self.pairs, spot, value);
    }

    /// The memory between messages, where both halves agree on what these runs tell of it.
    pub fn settled(self, runs: &[Run]) -> Settled
        requires { put_runs runs.now self.agreed ≡ self.memory }
        ensures memory { result.memory.agreed ≡ self.memory }
        ensures view { result.view ≡ self.view }
        ensures past { past_in result.memory ≡ self.past }
    {
        let agreed = told_copy(self.agreed, runs);
        Settled {
            memory: user_memory(agreed, self.region, self.pairs),
            view: self.view,
        }
    }
}

impl Memory for SeenMemory {
    ghost use Rattle.mdr_user_memory.specs.Copied.{copy_accesses};

    ghost accesses = { copy_accesses };

    fn load(&self, pointer: Value) -> Result<Value, StopKind> {
        loaded(self, pointer)
    }

    fn fresh(&self, pointer: Value) -> Result<Value, StopKind> {
        fresh(self, pointer)
    }

    fn store(&mut self, pointer: Value, value: Value) -> Result<(), StopKind> {
        stored(self, pointer, value)
    }

    fn first(&self, serial: u64) -> Option<Integer> {
        first_integer(self, serial)
    }

    fn set_first(&mut self, serial: u64, integer: Integer) -> bool {
        set_first_integer(self, serial, integer)
    }

    fn read(
        &self,
        alloc: Global,
        pointer: Value,
        count: u64,
    ) -> Result<Result<Items<u8>, StopKind>, AllocError> {
        read(self, alloc, pointer, count)
    }

    /// User code asks for births by a service. So here none is made.
    fn birth(&mut self, alloc: Global, _shapes: &[Shape64]) -> Result<Items<Value>, AllocError> {
        Ok(Items::new(alloc))
    }

    /// So it does for deaths.
    fn death(&mut self, _pointers: &[Value]) {}

    fn slot(&self, _serial: u64) -> u32 {
        0
    }
}
