// Cells that are marked as visible, in the order in which they are met.

ghost use Rattle.std.specs.Prelude.{◌≡◌, ◌==◌, ◌||◌, ◌+◌, ◌<◌, ◌≤◌, ◌++◌, ◌∷◌, [], Bool, IfOk, MatchOption, None, OnOk, length, nat_lt, not};
ghost use Rattle.mdr_cells.specs.Names.{cell_of, named};
ghost use Rattle.mdr_core.specs.Layout.{chosen};
ghost use Rattle.mdr_extents.specs.CellOrder.{cells};
ghost use Rattle.mdr_extents.specs.Extent.{Elements, has_failed};
ghost use Rattle.mdr_meaning.specs.declared.wire.Wire.TheVariants as wire;
ghost use Rattle.mdr_meaning.specs.Values.{wire_of, wire_view};
ghost use Rattle.mdr_model.specs.declared.memory.Cell.{Cell};
ghost use Rattle.mdr_model.specs.Memory.{born_at};
ghost use Rattle.mdr_model.specs.Sets.{cells_from};
ghost use Rattle.mdr_paths.specs.Paths.{is_in};
ghost use Rattle.mdr_reach.specs.Marks.{AreMarkedIn, IsHeld, cell_in, entered_in, extent_of, target_cells, with_cell_in};
ghost use Rattle.mdr_reach.specs.Spots.{AreLayouts};

use crate::extent::{Extent, element_size};
use crate::held::{Held, block_at, block_behind, block_of, counts};
use crate::marked::Marked;
use crate::scene::Scene;
use mdr_cells::CellName;
use mdr_core::{Block, OutOfMemory, Value, View};
use std::alloc::Global;

/// Marks a cell of a block, if it counts.
fn enter(scene: Scene<'_>, marked: &mut Marked, h: Held<'_>, index: u64) -> Result<(), OutOfMemory>
    requires { IsHeld scene.program.now scene.touched.now scene.blocks.now h }
    ensures { OnOk result (named marked.new ≡ with_cell_in scene.entry (named marked.old) (cell_in h.entry index)) }
{
    if counts(scene, h, index) {
        marked.mark(CellName {
            serial: h.born.serial,
            index,
        })?;
        Ok(())
    } else {
        Ok(())
    }
}

/// Where so many cells from one on end, as far as a block of so many has them.
fn end_of(first: u64, count: u64, cells: usize) -> u64
    ensures from { first ≤ result }
    ensures most { result ≤ first + count }
    ensures whole { result < first + count → cells ≤ result }
{
    let cells = cells as u64;
    if cells <= first {
        return first;
    }
    if count < cells - first {
        first + count
    } else {
        cells
    }
}

/// Marks those of so many cells of a block that count.
#[tactic(auto, unfolding(crate::specs::Marks::entered))]
fn enter_in(
    scene: Scene<'_>,
    marked: &mut Marked,
    h: Held<'_>,
    first: u64,
    count: u64,
) -> Result<(), OutOfMemory>
    requires held { IsHeld scene.program.now scene.touched.now scene.blocks.now h }
    ensures { OnOk result (named marked.new ≡ entered_in scene.entry (named marked.old) (cells_from h.entry.born.serial first count)) }
{
    let end = end_of(first, count, h.cells.len());
    let mut index = first;
    while index < end {
        enter(scene, marked, h, index)?;
        index += 1;
    }
    Ok(())
}

/// Those of the block of a handle, if it lives.
fn enter_from(
    scene: Scene<'_>,
    marked: &mut Marked,
    block: Block,
    first: u64,
    count: u64,
) -> Result<(), OutOfMemory>
    requires { AreLayouts scene.program.now scene.touched.now scene.layouts.now }
    ensures { OnOk result (named marked.new ≡ entered_in scene.entry (named marked.old) (cells_from block.serial first count)) }
{
    match block_of(scene, block) {
        Some(h) => {
            enter_in(scene, marked, h, first, count)?;
            Ok(())
        }
        None => Ok(()),
    }
}

/// Those of so many elements from a pointer on.
fn enter_elements(
    scene: Scene<'_>,
    marked: &mut Marked,
    p: View,
    count: u32,
) -> Result<(), OutOfMemory>
    requires { AreLayouts scene.program.now scene.touched.now scene.layouts.now }
    ensures { OnOk result (named marked.new ≡ entered_in scene.entry (named marked.old) (target_cells scene.entry (wire.Ptr (wire_view p)) (Elements count))) }
{
    let size = element_size(scene, p.ty);
    let first = p.first as u64 + p.index as u64 * size as u64;
    let cells = count as u64 * size as u64;
    enter_from(scene, marked, p.block, first, cells)?;
    Ok(())
}

/// Those of so many elements from where a value points. No other value points anywhere.
#[tactic(auto, unfolding(crate::specs::Marks::entered))]
fn enter_target(
    scene: Scene<'_>,
    marked: &mut Marked,
    value: Value,
    count: u32,
) -> Result<(), OutOfMemory>
    requires { AreLayouts scene.program.now scene.touched.now scene.layouts.now }
    ensures { OnOk result (named marked.new ≡ entered_in scene.entry (named marked.old) (target_cells scene.entry (wire_of value) (Elements count))) }
{
    match value {
        Value::Ptr(p) => {
            enter_elements(scene, marked, p, count)?;
            Ok(())
        }
        Value::Int(_, _) => Ok(()),
        Value::Null => Ok(()),
        Value::Dead => Ok(()),
        Value::Fn(_) => Ok(()),
        Value::Lock(_) => Ok(()),
        Value::NoValue => Ok(()),
    }
}

/// Those of a value's extent. Whether it doesn't fail: then nothing is marked.
pub(crate) fn enter_extent(
    scene: Scene<'_>,
    marked: &mut Marked,
    value: Value,
    extent: Extent,
) -> Result<bool, OutOfMemory>
    requires { AreLayouts scene.program.now scene.touched.now scene.layouts.now }
    ensures whole { IfOk result (λ t. t ≡ not (has_failed (extent_of extent))) }
    ensures marked { OnOk result (named marked.new ≡ entered_in scene.entry (named marked.old) (target_cells scene.entry (wire_of value) (extent_of extent))) }
{
    match extent {
        Extent::Elements(count) => {
            enter_target(scene, marked, value, count)?;
            Ok(true)
        }
        Extent::Fails => Ok(false),
    }
}

/// Marks a cell by its name and block, if it counts.
fn enter_name(
    scene: Scene<'_>,
    marked: &mut Marked,
    name: CellName,
    block: Option<Held<'_>>,
) -> Result<(), OutOfMemory>
    requires held { MatchOption block (born_at scene.blocks.now.memory name.serial ≡ None) (λ x. IsHeld scene.program.now scene.touched.now scene.blocks.now x) }
    requires serial { MatchOption block (Unit {0}) (λ x. x.born.serial ≡ name.serial) }
    ensures { OnOk result (named marked.new ≡ with_cell_in scene.entry (named marked.old) (cell_of name)) }
{
    match block {
        Some(h) => {
            enter(scene, marked, h, name.index)?;
            Ok(())
        }
        None => Ok(()),
    }
}

/// Marks those of these cells that count.
#[tactic(auto, unfolding(crate::specs::Marks::entered))]
pub(crate) fn enter_names(
    scene: Scene<'_>,
    marked: &mut Marked,
    names: &[CellName],
) -> Result<(), OutOfMemory>
    requires { AreLayouts scene.program.now scene.touched.now scene.layouts.now }
    ensures { OnOk result (named marked.new ≡ entered_in scene.entry (named marked.old) (named names.now)) }
{
    let mut last = None;
    for name in names {
        let block = block_behind(scene, last, name.serial);
        enter_name(scene, marked, *name, block)?;
        last = block;
    }
    Ok(())
}

/// Marks all cells of a global that count.
fn enter_global(scene: Scene<'_>, marked: &mut Marked, global: u64) -> Result<(), OutOfMemory>
    requires layouts { AreLayouts scene.program.now scene.touched.now scene.layouts.now }
    ensures { (test : Cell → Bool) → AreMarkedIn scene.entry test (named marked.old) → OnOk result (AreMarkedIn scene.entry (λ c. test c || (c.serial == global)) (named marked.new)) }
{
    match block_at(scene, global) {
        Some(h) => {
            enter_in(scene, marked, h, 0, h.cells.len() as u64)?;
            Ok(())
        }
        None => Ok(()),
    }
}

/// Marks all cells of the globals that count.
pub(crate) fn marked_globals(alloc: Global, scene: Scene<'_>) -> Result<Marked, OutOfMemory>
    requires { AreLayouts scene.program.now scene.touched.now scene.layouts.now }
    ensures { IfOk result (λ marked. AreMarkedIn scene.entry (λ c. nat_lt c.serial (length scene.entry.program.now.globals)) (named marked)) }
{
    let mut marked = Marked::new(alloc);
    for global in 0..scene.program.globals.len() {
        enter_global(scene, &mut marked, global as u64)?;
    }
    Ok(marked)
}
