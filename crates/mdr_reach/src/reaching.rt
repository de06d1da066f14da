// The visible cells.

ghost use Rattle.std.specs.Prelude.{◌≡◌, ◌<◌, Err, IfOk, List, MatchOption, None, Ok, Some, length, slice_get};
ghost use Rattle.mdr_cells.specs.Names.{named};
ghost use Rattle.mdr_extents.specs.CellOrder.{cells};
ghost use Rattle.mdr_extents.specs.Reaching.{Roots, visible as visible_now};
ghost use Rattle.mdr_mem.specs.Contents.{births_in};
ghost use Rattle.mdr_model.specs.declared.memory.Cell.{Cell};
ghost use Rattle.mdr_paths.specs.Paths.{Rises, is_in};
ghost use Rattle.mdr_reach.specs.Answers.{IsOlder, answered, roots_of};
ghost use Rattle.mdr_reach.specs.Marks.{Begins, IsBegun, IsFollowed, IsFound, graph_in, visible_in};
ghost use Rattle.mdr_reach.specs.Spots.{AreLayouts};

use crate::failing::Failing;
use crate::follow::enter_roots;
use crate::held::block_behind;
use crate::layouts::layouts_of;
use crate::least::follow_on;
use crate::marked::Marked;
use crate::marks::{enter_names, marked_globals};
use crate::roots::Root;
use crate::scene::Scene;
use mdr_cells::{CellName, CellSet};
use mdr_core::{Key, OutOfMemory, Program, Value};
use mdr_mem::Cells;
use mdr_region::RegionBlocks;
use std::alloc::Global;

/// The marked cell with a number.
fn name_at(marked: &Marked, i: usize) -> CellName
    requires { i < length marked.now }
    ensures { slice_get marked.now i ≡ Some result }
{
    marked.names()[i]
}

/// The marked cells, unless one fails.
fn unless_failing(marked: Marked, failing: Option<CellName>) -> Result<Marked, CellName>
    ensures { MatchOption failing (result ≡ Ok marked) (λ name. result ≡ Err name) }
{
    match failing {
        Some(name) => Err(name),
        None => Ok(marked),
    }
}

/// Marks all cells that the marked ones lead to, each cell that is marked being followed in its turn; or the first cell in
/// their order whose pointer fails.
fn reached(scene: Scene<'_>, marked: Marked) -> Result<Result<Marked, CellName>, OutOfMemory>
    requires { AreLayouts scene.program.now scene.touched.now scene.layouts.now }
    ensures { (roots : List Cell) → IsFollowed (graph_in scene.entry) roots (named marked) 0 None → IfOk result (IsFound (graph_in scene.entry) roots) }
{
    let _in_order = scene.blocks.births();
    let mut marked = marked;
    let mut failing = None;
    let mut last = None;
    let mut i = 0;
    while i < marked.names().len() {
        let name = name_at(&marked, i);
        let block = block_behind(scene, last, name.serial);
        failing = follow_on(scene, &mut marked, name, block, failing)?;
        last = block;
        i += 1;
    }
    Ok(unless_failing(marked, failing))
}

/// The cells with which the set begins, or the number of the first pointer that is passed and fails.
fn begun(
    alloc: Global,
    scene: Scene<'_>,
    known: &CellSet,
    roots: &[Root],
    passed: &[Value],
) -> Result<Result<Marked, usize>, OutOfMemory>
    requires { AreLayouts scene.program.now scene.touched.now scene.layouts.now }
    ensures { IfOk result (Begins scene.entry known.now (roots_of roots.now passed.now)) }
{
    let _in_order = scene.blocks.births();
    let mut marked = marked_globals(alloc, scene)?;
    enter_names(scene, &mut marked, known.names())?;
    match enter_roots(scene, &mut marked, passed, roots)? {
        Some(number) => Ok(Err(number)),
        None => Ok(Ok(marked)),
    }
}

/// The marked cells as a set.
fn set_of(alloc: Global, marked: &Marked) -> Result<CellSet, OutOfMemory>
    ensures rises { IfOk result (λ set. Rises cells set) }
    ensures same { IfOk result (λ set. (c : Cell) → is_in cells set c ≡ is_in cells (named marked.now) c) }
{
    let names = Vec::from_slice(alloc, marked.names())?;
    Ok(CellSet::of(names))
}

/// The set that begins with these cells, or the pointer that fails.
fn set_from(
    alloc: Global,
    scene: Scene<'_>,
    marked: Marked,
) -> Result<Result<CellSet, Failing>, OutOfMemory>
    requires { AreLayouts scene.program.now scene.touched.now scene.layouts.now }
    ensures { (known : List Cell) (roots : Roots) → IsBegun scene.entry known roots (named marked) → IfOk result (λ r. answered r ≡ visible_in scene.entry known roots) }
{
    let _in_order = scene.blocks.births();
    match reached(scene, marked)? {
        Ok(all) => {
            let set = set_of(alloc, &all)?;
            Ok(Ok(set))
        }
        Err(name) => Ok(Err(Failing::At(name))),
    }
}

fn set_or_failing(
    alloc: Global,
    scene: Scene<'_>,
    known: &CellSet,
    roots: &[Root],
    passed: &[Value],
) -> Result<Result<CellSet, Failing>, OutOfMemory>
    requires { AreLayouts scene.program.now scene.touched.now scene.layouts.now }
    ensures { IfOk result (λ r. answered r ≡ visible_in scene.entry known.now (roots_of roots.now passed.now)) }
{
    let _in_order = scene.blocks.births();
    match begun(alloc, scene, known, roots, passed)? {
        Ok(marked) => {
            let answer = set_from(alloc, scene, marked)?;
            Ok(answer)
        }
        Err(number) => Ok(Err(Failing::Argument(number))),
    }
}

/// The cells that a function may touch which is called with these roots, or which is given them, where `passed` are the
/// values of its parameters and `known` is the set that it has so far; or the pointer that fails: the first root, else the
/// one in the first cell in their order.
pub fn visible(
    alloc: Global,
    program: &Program,
    touched: &[Key],
    blocks: &RegionBlocks,
    known: &CellSet,
    roots: &[Root],
    passed: &[Value],
) -> Result<Result<CellSet, Failing>, OutOfMemory>
    ensures exact { IfOk result (λ r. answered r ≡ visible_now program.now touched.now blocks.now.memory known.now (roots_of roots.now passed.now)) }
    ensures older { IfOk result (λ r. IfOk r (IsOlder (births_in blocks.now.lives))) }
{
    let _in_order = blocks.births();
    let layouts = layouts_of(alloc, program, touched)?;
    let scene = Scene {
        program,
        touched,
        layouts: &layouts,
        blocks,
    };
    let answer = set_or_failing(alloc, scene, known, roots, passed)?;
    Ok(answer)
}
