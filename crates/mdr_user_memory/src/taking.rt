// The births, deaths and values of a message are taken whole, or memory was wanting and nothing is changed.

ghost use Rattle.std.specs.Prelude.{◌≡◌, ◌+◌, length, map, IfOk, OnErr, OnOk};
ghost use Rattle.mdr_track.specs.Tracked.{pairs_of};
ghost use Rattle.mdr_user_memory.specs.Lived.{LivesIn, lived_by, lived_with};
ghost use Rattle.mdr_user_memory.specs.Paired.{IsLinked};
ghost use Rattle.mdr_user_memory.specs.Taking.{AreFresh, AreSized, Fit, IsRoom, MovesIn, newborn_of, taken, taken_by, total, unpaired_all};

use crate::lists::{bear_all, bury_all, scatter};
use crate::newborn::Newborn;
use crate::values::values_of;
use mdr_copy::{RisingBlocks, with_news};
use mdr_core::{Items, Limit, OutOfMemory, Program};
use mdr_model::{New, Run};
use mdr_region::Region;
use mdr_track::Tracker;
use std::alloc::Global;

/// What a message tells of memory.
#[derive(Clone, Copy)]
pub struct Tidings<'a> {
    pub deaths: &'a [u64],
    pub news: &'a [New],
    pub runs: &'a [Run],
}

/// A new block, with a zero in each cell.
fn newborn(alloc: Global, program: &Program, new: New) -> Result<Newborn, OutOfMemory>
    ensures { IfOk result (λ x. x ≡ newborn_of program.now new) }
{
    let blocks = with_news(alloc, program, &[new], RisingBlocks::new(alloc))?;
    let mut zeros = blocks.into_vec();
    match zeros.pop() {
        Some(block) => Ok(Newborn {
            born: new,
            first: values_of(alloc, block.cells.as_slice())?,
        }),
        None => unreachable!(),
    }
}

/// The new blocks of a message, with the memory for their first values.
fn newborns(alloc: Global, program: &Program, news: &[New]) -> Result<Items<Newborn>, OutOfMemory>
    ensures { IfOk result (λ xs. xs ≡ map (newborn_of program.now) news.now) }
{
    let mut list = Items::new(alloc);
    for new in news {
        list.push(newborn(alloc, program, *new)?)?;
    }
    Ok(list)
}

fn more(sum: u64, cells: usize) -> Result<u64, OutOfMemory>
    ensures { IfOk result (λ n. n ≡ sum + cells) }
{
    match sum.checked_add(cells as u64) {
        Some(n) => Ok(n),
        None => Err(Limit::Cells.past()),
    }
}

/// How many cells new blocks have.
fn total(news: &[Newborn]) -> Result<u64, OutOfMemory>
    ensures { IfOk result (λ n. n ≡ total news.now) }
{
    let mut sum = 0;
    for new in news {
        sum = more(sum, new.first.len())?;
    }
    Ok(sum)
}

fn pairs_for(news: &[Newborn]) -> Result<u32, OutOfMemory>
    ensures { IfOk result (λ n. n ≡ length news.now) }
{
    match u32::try_from(news.len()) {
        Ok(n) => Ok(n),
        Err(_) => Err(Limit::Blocks.past()),
    }
}

/// Room for all that is born is promised, or nothing is changed.
fn promise(region: &mut Region, pairs: &mut Tracker, news: &[Newborn]) -> Result<(), OutOfMemory>
    ensures contents { region.new.contents ≡ region.old.contents }
    ensures pairs { pairs_of pairs.new ≡ pairs_of pairs.old }
    ensures room { OnOk result (IsRoom news.now region.new.cells region.new.births pairs.new.room) }
{
    let cells = total(news)?;
    let count = pairs_for(news)?;
    region.reserve(cells, count as u64)?;
    pairs.reserve(count)?;
    Ok(())
}

/// Deaths, births and values, within what was promised: it can't fail.
fn change(region: &mut Region, pairs: &mut Tracker, alloc: Global, told: Tidings, news: &[Newborn])
    requires linked { IsLinked region.old.contents (pairs_of pairs.old) }
    requires fit { Fit news.now (unpaired_all told.deaths.now (pairs_of pairs.old)) region.old.cells region.old.births pairs.old.room }
    ensures moves { MovesIn (taken told.entry.deaths.now news.now told.entry.runs.now) region.old pairs.old region.new pairs.new }
    ensures lived { LivesIn (lived_with told.entry.deaths.now news.now) region.old pairs.old region.new pairs.new }
{
    bury_all(region, pairs, told.deaths);
    bear_all(region, pairs, alloc, news);
    scatter(region, pairs, told.runs);
}

/// New blocks, deaths and values, where memory is there for all that is born.
fn take_in(
    region: &mut Region,
    pairs: &mut Tracker,
    alloc: Global,
    told: Tidings,
    news: &[Newborn],
) -> Result<(), OutOfMemory>
    requires linked { IsLinked region.old.contents (pairs_of pairs.old) }
    requires sized { AreSized news.now }
    requires fresh { AreFresh news.now (unpaired_all told.deaths.now (pairs_of pairs.old)) }
    ensures moves { OnOk result (MovesIn (taken told.entry.deaths.now news.now told.entry.runs.now) region.old pairs.old region.new pairs.new) }
    ensures lived { OnOk result (LivesIn (lived_with told.entry.deaths.now news.now) region.old pairs.old region.new pairs.new) }
    ensures same_memory { OnErr result (region.new.contents ≡ region.old.contents) }
    ensures same_pairs { OnErr result (pairs_of pairs.new ≡ pairs_of pairs.old) }
{
    promise(region, pairs, news)?;
    change(region, pairs, alloc, told, news);
    Ok(())
}

/// Takes what a message tells, whole, or changes no cell and no pair.
pub(crate) fn take_told(
    region: &mut Region,
    pairs: &mut Tracker,
    alloc: Global,
    program: &Program,
    told: Tidings,
) -> Result<(), OutOfMemory>
    requires linked { IsLinked region.old.contents (pairs_of pairs.old) }
    requires sized { AreSized (map (newborn_of program.now) told.news.now) }
    requires fresh { AreFresh (map (newborn_of program.now) told.news.now) (unpaired_all told.deaths.now (pairs_of pairs.old)) }
    ensures moves { OnOk result (MovesIn (taken_by program.now told.entry.deaths.now told.entry.news.now told.entry.runs.now) region.old pairs.old region.new pairs.new) }
    ensures lived { OnOk result (LivesIn (lived_by program.now told.entry.deaths.now told.entry.news.now) region.old pairs.old region.new pairs.new) }
    ensures same_memory { OnErr result (region.new.contents ≡ region.old.contents) }
    ensures same_pairs { OnErr result (pairs_of pairs.new ≡ pairs_of pairs.old) }
{
    let news = newborns(alloc, program, told.news)?;
    take_in(region, pairs, alloc, told, news.as_slice())
}
