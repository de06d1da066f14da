// The visible cells behind an answer.

ghost use Rattle.std.specs.Prelude.{◌≡◌, ◌≤◌, ◌*◌, [], ◌∷◌, ◌++◌, true, filter, IfOk, OnOk};
ghost use Rattle.std.specs.List.{list_all};
ghost use Rattle.mdr_core.specs.Sound.{IsSound};
ghost use Rattle.mdr_extents.specs.Extent.{is_touched};
ghost use Rattle.mdr_extents.specs.Reaching.{own_cells};
ghost use Rattle.mdr_model.specs.Memory.{size_of, zero_block};
ghost use Rattle.mdr_model.specs.Sets.{cells_from};
ghost use Rattle.mdr_model.specs.User.{has_shape, still_live};
ghost use Rattle.mdr_split.specs.User.{cells_of_news};

use crate::keys::is_touched;
use mdr_copy::{CellList, RisingBlocks, is_live};
use mdr_core::{Items, Key, OutOfMemory, Program, cells_of};
use mdr_model::{Cell, New};
use std::alloc::Global;

fn product(a: u32, b: u32) -> u32
    requires { a * b ≤ 65536 }
    ensures { result ≡ a * b }
{
    a * b
}

/// How many cells a block has.
fn size_of(program: &Program, block: New) -> u32
    requires sound { IsSound program.now }
    requires shaped { has_shape program.now block ≡ true }
    ensures { result ≡ size_of program.now block }
{
    product(block.count, cells_of(program, block.ty))
}

/// Adds a cell of a block, if its key is among these.
fn put_touched(
    out: &mut Items<Cell>,
    program: &Program,
    touched: &[Key],
    block: New,
    index: u32,
) -> Result<(), OutOfMemory>
    requires { IsSound program.now }
    ensures { OnOk result (out.new ≡ out.old ++ filter (λ c. is_touched program.now touched.now block c.index) (record { serial = block.serial; index = index } ∷ [])) }
{
    if is_touched(program, touched, block, index as u64) {
        out.push(Cell {
            serial: block.serial,
            index,
        })?;
    }
    Ok(())
}

fn put_all_touched(
    out: &mut Items<Cell>,
    program: &Program,
    touched: &[Key],
    block: New,
    size: u32,
) -> Result<(), OutOfMemory>
    requires { IsSound program.now }
    ensures { OnOk result (out.new ≡ out.old ++ filter (λ c. is_touched program.now touched.now block c.index) (cells_from block.serial 0 size)) }
{
    for index in 0..size {
        put_touched(out, program, touched, block, index)?;
    }
    Ok(())
}

/// Adds the cells of a new block that have a key among these.
fn put_own(
    out: &mut Items<Cell>,
    program: &Program,
    touched: &[Key],
    block: New,
) -> Result<(), OutOfMemory>
    requires sound { IsSound program.now }
    requires shaped { has_shape program.now block ≡ true }
    ensures { OnOk result (out.new ≡ out.old ++ own_cells program.now touched.now (zero_block program.now block)) }
{
    let size = size_of(program, block);
    put_all_touched(out, program, touched, block, size)
}

#[tactic(auto, unfolding(mdr_split::specs::User::cells_of_news))]
fn put_news(
    out: &mut Items<Cell>,
    program: &Program,
    touched: &[Key],
    news: &[New],
) -> Result<(), OutOfMemory>
    requires sound { IsSound program.now }
    requires shaped { list_all (has_shape program.now) news.now ≡ true }
    ensures { OnOk result (out.new ≡ out.old ++ cells_of_news program.now touched.now news.now) }
{
    for block in news {
        put_own(out, program, touched, *block)?;
    }
    Ok(())
}

/// The visible cells that are left when blocks died.
fn still_live(alloc: Global, copy: &RisingBlocks, seen: &[Cell]) -> Result<Items<Cell>, OutOfMemory>
    ensures { IfOk result (λ left. left ≡ filter (still_live copy.now) seen.now) }
{
    let mut left = Items::new(alloc);
    for cell in seen {
        if is_live(copy, cell.serial) {
            left.push(*cell)?;
        }
    }
    Ok(left)
}

/// The visible cells that are left, and those of the new blocks that have a key among these. Each new block has a type of
/// the table, and 1 to 65,536 cells.
pub(crate) fn visible_after(
    alloc: Global,
    program: &Program,
    touched: &[Key],
    copy: &RisingBlocks,
    news: &[New],
    seen: &[Cell],
) -> Result<CellList, OutOfMemory>
    requires sound { IsSound program.now }
    requires shaped { list_all (has_shape program.now) news.now ≡ true }
    ensures { IfOk result (λ cells. cells ≡ filter (still_live copy.now) seen.now ++ cells_of_news program.now touched.now news.now) }
{
    let mut cells = still_live(alloc, copy, seen)?;
    put_news(&mut cells, program, touched, news)?;
    Ok(CellList::of(cells))
}
