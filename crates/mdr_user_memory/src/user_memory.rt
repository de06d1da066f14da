// The user half's memory between messages.

ghost use Rattle.std.specs.Prelude.{◌≡◌, [], true, IfOk, OnOk, OnErr};
ghost use Rattle.mdr_model.specs.Agreement.{SerialsRise};
ghost use Rattle.mdr_model.specs.Copies.{put_runs, values_of_runs};
ghost use Rattle.mdr_model.specs.User.{lives_fit, renewed_copy};
ghost use Rattle.mdr_track.specs.Tracked.{pairs_of};
ghost use Rattle.mdr_user_memory.specs.Beginning.{ComeInOrder};
ghost use Rattle.mdr_user_memory.specs.Copied.{copied};
ghost use Rattle.mdr_user_memory.specs.Kept.{IsKept, IsLived, LivesTo, kept, past_in};
ghost use Rattle.mdr_user_memory.specs.Lived.{lived_by, lived_of};
ghost use Rattle.mdr_user_memory.specs.Paired.{Paired};
ghost use Rattle.mdr_user_memory.specs.Taking.{AreKept};

use crate::opening::twins_of;
use crate::release::{given_up, put};
use crate::seen_memory::{SeenMemory, seen_memory};
use crate::taking::{Tidings, take_told};
use mdr_copy::{CellList, RisingBlocks};
use mdr_core::{OutOfMemory, Program};
use mdr_mem::Cells;
use mdr_region::Region;
use mdr_track::Tracker;
use std::alloc::Global;
use std::marker::Model;

/// The copy of memory that both halves agree on, and the user half's own memory, whose blocks are paired with those of the
/// copy: of the same kinds and shapes, with the same values, where a pointer is taken through the pairs.
#[derive(Drop)]
pub struct UserMemory {
    agreed: RisingBlocks,
    region: Region,
    pairs: Tracker,
}

impl Model for UserMemory {
    ghost use Rattle.mdr_user_memory.specs.Kept.{Kept};

    ghost Value = { Kept };

    ghost use Rattle.mdr_user_memory.specs.Kept.{IsKept, kept};

    ghost view = { λ s. kept s.agreed s.region s.pairs };

    ghost invariant = { λ s. IsKept s.agreed s.region s.pairs };
}

/// A memory of these parts.
pub(crate) fn user_memory(agreed: RisingBlocks, region: Region, pairs: Tracker) -> UserMemory
    requires { IsKept agreed region pairs }
    ensures { result ≡ kept agreed region pairs }
{
    UserMemory {
        agreed,
        region,
        pairs,
    }
}

impl UserMemory {
    /// The memory without blocks. It takes no memory.
    pub fn new(alloc: Global) -> UserMemory
        ensures { result.agreed ≡ [] }
    {
        let region = Region::new(alloc);
        let _in_order = region.births();
        let pairs = Tracker::new(alloc);
        user_memory(RisingBlocks::new(alloc), region, pairs)
    }

    /// The memory of a copy whose serials rise, and in which each block has from 1 to 65,536 cells and points to blocks
    /// before it alone. Its blocks are born in the copy's order.
    pub fn of_copy(alloc: Global, copy: RisingBlocks) -> Result<UserMemory, OutOfMemory>
        requires rises { SerialsRise copy }
        requires ordered { ComeInOrder copy }
        ensures copy { IfOk result (λ u. u.agreed ≡ copy) }
        ensures lived { IfOk result (IsLived (lived_of copy)) }
    {
        match twins_of(alloc, copy.as_slice()) {
            Ok(twins) => Ok(user_memory(copy, twins.region, twins.pairs)),
            Err(error) => given_up(error, copy),
        }
    }

    /// The copy that both halves agree on.
    pub fn agreed(&self) -> &RisingBlocks
        ensures { result.now ≡ self.now.agreed }
    {
        &self.agreed
    }

    /// Lends the pairs of the copy's serials with the blocks of the user half's own memory.
    pub fn pairs(&self) -> &Tracker
        ensures { result.now ≡ self.now.pairs }
    {
        &self.pairs
    }

    /// Lends the user half's own memory.
    pub fn region(&self) -> &Region
        ensures { result.now ≡ self.now.region }
    {
        &self.region
    }

    /// It goes with the copy.
    pub fn is_paired(&self)
        ensures paired { Paired self.now.agreed self.now.region.contents (pairs_of self.now.pairs) }
        ensures rises { SerialsRise self.now.agreed }
    {
        let _ = &self.pairs;
    }

    /// Takes what a message tells, which leads to this copy: deaths, then births, then values. Room for all that is born
    /// is promised first, and what follows can't fail. Where memory is wanting no cell and no pair is changed.
    pub fn take(
        &mut self,
        alloc: Global,
        program: &Program,
        told: Tidings,
        copy: RisingBlocks,
    ) -> Result<(), OutOfMemory>
        requires lives { lives_fit program.now self.old.agreed told.deaths.now told.news.now ≡ true }
        requires leads { copy ≡ put_runs told.runs.now (renewed_copy program.now told.deaths.now told.news.now self.old.agreed) }
        requires kept { AreKept (values_of_runs told.runs.now) (renewed_copy program.now told.deaths.now told.news.now self.old.agreed) }
        ensures taken { OnOk result (self.new.agreed ≡ copy) }
        ensures lived { OnOk result (LivesTo (lived_by program.now told.entry.deaths.now told.entry.news.now) self.old self.new) }
        ensures same_copy { OnErr result (self.new.agreed ≡ self.old.agreed) }
        ensures same_memory { OnErr result (self.new.region.contents ≡ self.old.region.contents) }
        ensures same_pairs { OnErr result (pairs_of self.new.pairs ≡ pairs_of self.old.pairs) }
    {
        match take_told(&mut self.region, &mut self.pairs, alloc, program, told) {
            Ok(()) => {
                put(&mut self.agreed, copy);
                Ok(())
            }
            Err(error) => given_up(error, copy),
        }
    }

    /// What user code runs on, where it may touch these cells.
    pub fn seen(self, view: CellList) -> SeenMemory
        ensures { result ≡ copied (past_in self) self.agreed view self.agreed }
    {
        seen_memory(self.agreed, self.region, self.pairs, view)
    }
}
