// Deaths, births and stores, one after the other.

ghost use Rattle.std.specs.Prelude.{◌≡◌};
ghost use Rattle.mdr_model.specs.Copies.{numbered, without};
ghost use Rattle.mdr_track.specs.Tracked.{pairs_of};
ghost use Rattle.mdr_user_memory.specs.Lived.{LivesIn, all_born, all_died};
ghost use Rattle.mdr_user_memory.specs.Paired.{IsLinked};
ghost use Rattle.mdr_user_memory.specs.Taking.{Fit, Moves, borne, kept_all, kept_runs, unpaired_all};

use crate::newborn::Newborn;
use crate::spot::Spot;
use crate::steps::{bear, bury, keep};
use crate::values::value_of;
use mdr_model::{Run, Wire};
use mdr_region::Region;
use mdr_track::Tracker;
use std::alloc::Global;

/// Blocks die, one after the other.
pub(crate) fn bury_all(region: &mut Region, pairs: &mut Tracker, serials: &[u64])
    requires { IsLinked region.old.contents (pairs_of pairs.old) }
    ensures linked { IsLinked region.new.contents (pairs_of pairs.new) }
    ensures moves { Moves (without serials.now) region.old.contents (pairs_of pairs.old) region.new.contents (pairs_of pairs.new) }
    ensures pairs { pairs_of pairs.new ≡ unpaired_all serials.now (pairs_of pairs.old) }
    ensures cells { region.new.cells ≡ region.old.cells }
    ensures births { region.new.births ≡ region.old.births }
    ensures room { pairs.new.room ≡ pairs.old.room }
    ensures lived { LivesIn (all_died serials.now) region.old pairs.old region.new pairs.new }
{
    for serial in serials {
        bury(region, pairs, *serial);
    }
}

/// Blocks are born, the first one first, within what was promised.
pub(crate) fn bear_all(region: &mut Region, pairs: &mut Tracker, alloc: Global, news: &[Newborn])
    requires linked { IsLinked region.old.contents (pairs_of pairs.old) }
    requires fit { Fit news.now (pairs_of pairs.old) region.old.cells region.old.births pairs.old.room }
    ensures linked { IsLinked region.new.contents (pairs_of pairs.new) }
    ensures moves { Moves (borne news.now) region.old.contents (pairs_of pairs.old) region.new.contents (pairs_of pairs.new) }
    ensures lived { LivesIn (all_born news.now) region.old pairs.old region.new pairs.new }
{
    for new in news {
        bear(region, pairs, alloc, new);
    }
}

/// Values are put into cells that follow one another.
fn keep_row(region: &mut Region, pairs: &Tracker, serial: u64, first: u32, values: &[Wire])
    requires { IsLinked region.old.contents (pairs_of pairs.now) }
    ensures linked { IsLinked region.new.contents (pairs_of pairs.now) }
    ensures moves { Moves (kept_all (numbered serial first values.now)) region.old.contents (pairs_of pairs.now) region.new.contents (pairs_of pairs.now) }
    ensures lives { region.new.contents.lives ≡ region.old.contents.lives }
{
    for (i, value) in values.iter().enumerate() {
        let spot = Spot {
            serial,
            index: first as usize + i,
        };
        keep(region, pairs, spot, value_of(*value));
    }
}

/// The values of runs are put into their cells. What lies in no block is left out. It takes no memory.
pub(crate) fn scatter(region: &mut Region, pairs: &Tracker, runs: &[Run])
    requires { IsLinked region.old.contents (pairs_of pairs.now) }
    ensures linked { IsLinked region.new.contents (pairs_of pairs.now) }
    ensures moves { Moves (kept_runs runs.now) region.old.contents (pairs_of pairs.now) region.new.contents (pairs_of pairs.now) }
    ensures lives { region.new.contents.lives ≡ region.old.contents.lives }
{
    for run in runs {
        keep_row(region, pairs, run.serial, run.first, run.values.as_slice());
    }
}
