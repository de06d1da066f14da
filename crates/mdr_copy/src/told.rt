// What a message of the kernel half tells of memory, and the agreed copy after it.

ghost use Rattle.std.specs.Prelude.{◌≡◌, ◌++◌, ◌&&◌, not, OnOk, IfOk};
ghost use Rattle.std.specs.List.Sorted.{IsNonDecreasing};
ghost use Rattle.mdr_copy.specs.Namings.{is_listed, news_by};
ghost use Rattle.mdr_model.specs.Memory.{is_live};
ghost use Rattle.mdr_model.specs.Copies.{died, news_of, changed_values, with_news, agreed_after, tells};

use crate::changed::{changed_values, changes};
use crate::lives::{put_news, without};
use crate::naming::{is_listed, named_in_order};
use crate::runs::runs_of_cells;
use crate::store::{RisingBlocks, is_live, put_runs};
use mdr_core::{Items, OutOfMemory, Program};
use mdr_model::{Cell, MemoryBlock, New, Told, Wire};
use std::alloc::Global;

/// The serials that the copy has and the memory hasn't.
#[tactic(auto, unfolding(mdr_model::specs::Copies::died))]
fn died(
    alloc: Global,
    copy: &[MemoryBlock],
    memory: &RisingBlocks,
) -> Result<Items<u64>, OutOfMemory>
    ensures { IfOk result (λ d. d ≡ died copy.now memory.now) }
{
    let mut out = Vec::new(alloc);
    for block in copy {
        if !is_live(memory, block.born.serial) {
            out.push(block.born.serial)?;
        }
    }
    Ok(Items::from_vec(out))
}

fn is_news(copy: &RisingBlocks, named: &[u64], serial: u64) -> bool
    requires { IsNonDecreasing named.now }
    ensures { result ≡ (not (is_live copy.now serial) && is_listed named.now serial) }
{
    !is_live(copy, serial) && is_listed(named, serial)
}

/// The live blocks that are named and the copy hasn't.
#[tactic(auto, unfolding(crate::specs::Namings::news_by))]
fn news_of(
    alloc: Global,
    copy: &RisingBlocks,
    named: &[u64],
    memory: &[MemoryBlock],
) -> Result<Items<New>, OutOfMemory>
    requires { IsNonDecreasing named.now }
    ensures { IfOk result (λ n. n ≡ news_by copy.now (is_listed named.now) memory.now) }
{
    let mut out = Vec::new(alloc);
    for block in memory {
        if is_news(copy, named, block.born.serial) {
            out.push(block.born)?;
        }
    }
    Ok(Items::from_vec(out))
}

fn put_values(out: &mut Vec<Wire>, values: &[Wire]) -> Result<(), OutOfMemory>
    ensures { OnOk result (out.new.items ≡ out.old.items ++ values.now) }
{
    for value in values {
        out.push(*value)?;
    }
    Ok(())
}

/// The values of a message: those that it passes, and those of the visible cells that changed.
fn all_values(
    alloc: Global,
    view: &[Cell],
    values: &[Wire],
    left: &RisingBlocks,
    memory: &RisingBlocks,
) -> Result<Vec<Wire>, OutOfMemory>
    ensures { IfOk result (λ all. all.items ≡ values.now ++ changed_values view.now left.now memory.now) }
{
    let mut all = Vec::new(alloc);
    put_values(&mut all, values)?;
    let changed = changed_values(alloc, view, left, memory)?;
    put_values(&mut all, changed.as_slice())?;
    Ok(all)
}

/// The blocks that a message tells for the first time, where the copy is rid of those that died.
fn told_news(
    alloc: Global,
    view: &[Cell],
    values: &[Wire],
    left: &RisingBlocks,
    memory: &RisingBlocks,
) -> Result<Items<New>, OutOfMemory>
    ensures { IfOk result (λ n. n ≡ news_of left.now (values.now ++ changed_values view.now left.now memory.now) memory.now) }
{
    let all = all_values(alloc, view, values, left, memory)?;
    let serials = named_in_order(alloc, all.as_slice())?;
    let news = news_of(alloc, left, serials.as_slice(), memory.as_slice())?;
    Ok(news)
}

/// The copy with the new blocks, which are zero. It fails only where the memory for them is missing.
pub fn with_news(
    alloc: Global,
    program: &Program,
    news: &[New],
    left: RisingBlocks,
) -> Result<RisingBlocks, OutOfMemory>
    ensures { IfOk result (λ m. m ≡ with_news program.now news.now left) }
{
    let mut begun = left;
    put_news(alloc, program, news, &mut begun)?;
    Ok(begun)
}

/// What a message with these values tells, and the agreed copy after it, where the copy is agreed and the memory
/// is now. It fails only where the memory for them is missing.
#[tactic(auto, unfolding(mdr_model::specs::Copies::tells, mdr_model::specs::Copies::told_news, mdr_model::specs::Copies::begun_copy, mdr_model::specs::Copies::left_of, mdr_model::specs::Copies::agreed_after))]
pub fn tells(
    alloc: Global,
    program: &Program,
    view: &[Cell],
    values: &[Wire],
    copy: RisingBlocks,
    memory: &RisingBlocks,
) -> Result<(Told, RisingBlocks), OutOfMemory>
    ensures what { IfOk result (λ t. t.0 ≡ tells program.now view.now values.now copy memory.now) }
    ensures agreed { IfOk result (λ t. t.1 ≡ agreed_after program.now (tells program.now view.now values.now copy memory.now) copy) }
{
    let shown = runs_of_cells(alloc, view)?;
    let deaths = died(alloc, copy.as_slice(), memory)?;
    let left = without(alloc, deaths.as_slice(), copy)?;
    let news = told_news(alloc, view, values, &left, memory)?;
    let mut agreed = with_news(alloc, program, news.as_slice(), left)?;
    let runs = changes(alloc, view, &agreed, memory)?;
    put_runs(&mut agreed, runs.as_slice());
    let told = Told {
        deaths,
        news,
        view: shown,
        runs,
    };
    Ok((told, agreed))
}
