// Blocks that are born.

ghost use Rattle.std.specs.Prelude.{◌≡◌, ◌≤◌, ◌++◌, ◌∷◌, [], IfOk, length};
ghost use Rattle.mdr_cells.specs.Names.{AreBefore, cell_of};
ghost use Rattle.mdr_mem.specs.Contents.{births_in};
ghost use Rattle.mdr_reach.specs.Answers.{IsOlder};
ghost use Rattle.mdr_reach.specs.Marks.{IsHeld, cell_in, cells_born, touched_cells};
ghost use Rattle.mdr_reach.specs.Spots.{AreLayouts};
ghost use Rattle.mdr_watched.specs.Views.{new_cells};

use crate::held::{Held, block_at, is_touched};
use crate::layouts::layouts_of;
use crate::scene::Scene;
use mdr_cells::{CellName, CellSet};
use mdr_core::{Key, OutOfMemory, Program};
use mdr_mem::Cells;
use mdr_region::RegionBlocks;
use std::alloc::Global;

/// The set, with a cell that comes after all others.
fn with_name(set: CellSet, name: CellName) -> Result<CellSet, OutOfMemory>
    requires { AreBefore set (cell_of name) }
    ensures { IfOk result (λ all. all ≡ set ++ cell_of name ∷ []) }
{
    let mut set = set;
    set.push(name)?;
    Ok(set)
}

/// The set, with a cell of a block that comes after all others, if its key is among those that may be touched.
fn with_cell(
    scene: Scene<'_>,
    set: CellSet,
    h: Held<'_>,
    index: u64,
) -> Result<CellSet, OutOfMemory>
    requires held { IsHeld scene.program.now scene.touched.now scene.blocks.now h }
    requires before { AreBefore set (cell_in h index) }
    ensures { IfOk result (λ all. all ≡ set ++ touched_cells scene.entry h.entry index 1) }
{
    if is_touched(scene, h, index) {
        let all = with_name(
            set,
            CellName {
                serial: h.born.serial,
                index,
            },
        )?;
        Ok(all)
    } else {
        Ok(set)
    }
}

/// The set, with those cells of a block of which it has none.
fn with_block(scene: Scene<'_>, set: CellSet, h: Held<'_>) -> Result<CellSet, OutOfMemory>
    requires held { IsHeld scene.program.now scene.touched.now scene.blocks.now h }
    requires older { IsOlder h.born.serial set }
    ensures { IfOk result (λ all. all ≡ set ++ touched_cells scene.entry h.entry 0 (length h.entry.cells.now)) }
{
    let mut set = set;
    for index in 0..h.cells.len() {
        set = with_cell(scene, set, h, index as u64)?;
    }
    Ok(set)
}

/// The set, with those of the block with a serial, if it lives.
fn with_serial(scene: Scene<'_>, set: CellSet, serial: u64) -> Result<CellSet, OutOfMemory>
    requires layouts { AreLayouts scene.program.now scene.touched.now scene.layouts.now }
    requires older { IsOlder serial set }
    ensures { IfOk result (λ all. all ≡ set ++ cells_born scene.entry.program.now scene.entry.touched.now serial scene.entry.blocks.now.memory) }
{
    match block_at(scene, serial) {
        Some(h) => {
            let all = with_block(scene, set, h)?;
            Ok(all)
        }
        None => Ok(set),
    }
}

fn with_serials(scene: Scene<'_>, set: CellSet, next: u64) -> Result<CellSet, OutOfMemory>
    requires layouts { AreLayouts scene.program.now scene.touched.now scene.layouts.now }
    requires older { IsOlder next set }
    requires counted { next ≤ births_in scene.blocks.now.lives }
    ensures gains { IfOk result (λ all. all ≡ set ++ new_cells scene.entry.program.now scene.entry.touched.now next scene.entry.blocks.now.memory) }
    ensures older { IfOk result (IsOlder (births_in scene.entry.blocks.now.lives)) }
{
    let mut set = set;
    let births = scene.blocks.births();
    let mut serial = next;
    while serial < births {
        set = with_serial(scene, set, serial)?;
        serial += 1;
    }
    Ok(set)
}

/// The set, with the cells that have a key among these of the blocks that were born when the next serial was this one,
/// and since.
pub fn gained(
    alloc: Global,
    program: &Program,
    touched: &[Key],
    blocks: &RegionBlocks,
    set: CellSet,
    next: u64,
) -> Result<CellSet, OutOfMemory>
    requires older { IsOlder next set }
    requires counted { next ≤ births_in blocks.now.lives }
    ensures gains { IfOk result (λ all. all ≡ set ++ new_cells program.now touched.now next blocks.now.memory) }
    ensures older { IfOk result (IsOlder (births_in blocks.now.lives)) }
{
    let layouts = layouts_of(alloc, program, touched)?;
    let scene = Scene {
        program,
        touched,
        layouts: &layouts,
        blocks,
    };
    let all = with_serials(scene, set, next)?;
    Ok(all)
}
