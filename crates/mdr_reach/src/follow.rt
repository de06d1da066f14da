// Where marked cells lead.

ghost use Rattle.std.specs.Prelude.{◌≡◌, ◌<◌, false, IfOk, MatchOption, None, OnOk, Some, length, map, not, slice_get};
ghost use Rattle.mdr_cells.specs.Names.{cell_of, named};
ghost use Rattle.mdr_core.specs.declared.plan.Key.TheVariants as key;
ghost use Rattle.mdr_extents.specs.Around.{ann_of, global_ann, struct_start};
ghost use Rattle.mdr_extents.specs.Extent.{has_failed};
ghost use Rattle.mdr_meaning.specs.Values.{wire_of};
ghost use Rattle.mdr_model.specs.Memory.{born_at};
ghost use Rattle.mdr_reach.specs.Answers.{root_of, roots_of};
ghost use Rattle.mdr_reach.specs.Marks.{IsHeld, IsNoPointer, cell_extent, cell_in, entered_in, extent_of, failing_in, held_extent, led_in, passed_cells, passed_extent, passed_in};
ghost use Rattle.mdr_reach.specs.Spots.{AreLayouts};

use crate::extent::{Extent, value_extent};
use crate::held::{Held, around, offset, value_at};
use crate::lengths::Siblings;
use crate::marked::Marked;
use crate::marks::enter_extent;
use crate::roots::Root;
use crate::rows::{Around, fields};
use crate::scene::Scene;
use mdr_cells::CellName;
use mdr_core::{Ann, Key, OutOfMemory, Program, Value};

/// The annotation of a field.
fn field_ann(program: &Program, s: u32, f: u32) -> Ann
    ensures { result ≡ ann_of program.now (key.Field s f) }
{
    match fields(program.structs.as_slice(), s).get(f as usize) {
        Some(field) => field.ann,
        None => Ann::Single,
    }
}

/// The annotation of a global.
fn global_ann(program: &Program, g: u64) -> Ann
    ensures { result ≡ global_ann (slice_get program.now.globals g) }
{
    match program.globals.as_slice().get(g as usize) {
        Some(def) => def.ann,
        None => Ann::Single,
    }
}

/// The cell with which the innermost struct around a cell begins.
#[tactic(auto, unfolding(mdr_extents::specs::Around::struct_start))]
fn start(scene: Scene<'_>, h: Held<'_>, index: u64) -> u64
    requires { IsHeld scene.program.now scene.touched.now scene.blocks.now h }
    ensures { result ≡ struct_start scene.entry.program.now h.entry.born index }
{
    match offset(scene, h, index) {
        Some(offset) => index.saturating_sub(offset as u64),
        None => index,
    }
}

/// The extent of a pointer in a cell, by what stands around the cell.
fn extent_around(scene: Scene<'_>, h: Held<'_>, index: u64, value: Value) -> Extent
    requires layouts { AreLayouts scene.program.now scene.touched.now scene.layouts.now }
    requires held { IsHeld scene.program.now scene.touched.now scene.blocks.now h }
    ensures { extent_of result ≡ held_extent scene.entry h.entry index (wire_of value) }
{
    match around(scene, h, index) {
        Some(Around::Field(s, f, _)) => {
            let siblings = Siblings::Fields(h.cells, start(scene, h, index), s);
            let ann = field_ann(scene.program, s, f);
            value_extent(scene, siblings, ann, value)
        }
        Some(Around::Nothing) => {
            let ann = global_ann(scene.program, h.born.serial);
            value_extent(scene, Siblings::Nothing, ann, value)
        }
        None => Extent::Elements(0),
    }
}

fn is_pointer(value: &Value) -> bool
    ensures { result ≡ false → IsNoPointer (wire_of value.now) }
{
    match *value {
        Value::Ptr(_) => true,
        Value::Int(_, _) => false,
        Value::Null => false,
        Value::Dead => false,
        Value::Fn(_) => false,
        Value::Lock(_) => false,
        Value::NoValue => false,
    }
}

/// The extent of what a cell holds. What is no pointer leads nowhere, whatever stands around it.
fn extent_in_cell(scene: Scene<'_>, h: Held<'_>, index: u64, value: Value) -> Extent
    requires layouts { AreLayouts scene.program.now scene.touched.now scene.layouts.now }
    requires held { IsHeld scene.program.now scene.touched.now scene.blocks.now h }
    ensures { extent_of result ≡ held_extent scene.entry h.entry index (wire_of value) }
{
    if is_pointer(&value) {
        extent_around(scene, h, index, value)
    } else {
        Extent::Elements(0)
    }
}

/// Whether a cell of a block holds a pointer.
fn holds_pointer(h: Held<'_>, index: u64) -> bool
    ensures { result ≡ false → MatchOption (slice_get h.entry.cells.now index) (Unit {0}) (λ v. IsNoPointer (wire_of v)) }
{
    match h.cells.get(index as usize) {
        Some(value) => is_pointer(value),
        None => false,
    }
}

/// Marks the cells that the pointer in a cell of a block leads to. Whether it doesn't fail.
fn follow_pointer(
    scene: Scene<'_>,
    marked: &mut Marked,
    h: Held<'_>,
    index: u64,
) -> Result<bool, OutOfMemory>
    requires layouts { AreLayouts scene.program.now scene.touched.now scene.layouts.now }
    requires held { IsHeld scene.program.now scene.touched.now scene.blocks.now h }
    ensures whole { IfOk result (λ t. t ≡ not (has_failed (cell_extent scene.entry (cell_in h.entry index)))) }
    ensures marked { OnOk result (named marked.new ≡ entered_in scene.entry (named marked.old) (led_in scene.entry (cell_in h.entry index))) }
{
    match value_at(scene, h, index) {
        Some(value) => {
            let extent = extent_in_cell(scene, h, index, value);
            let whole = enter_extent(scene, marked, value, extent)?;
            Ok(whole)
        }
        None => Ok(true),
    }
}

/// Marks the cells that a cell of a block leads to. Whether its pointer doesn't fail.
fn follow_in(
    scene: Scene<'_>,
    marked: &mut Marked,
    h: Held<'_>,
    index: u64,
) -> Result<bool, OutOfMemory>
    requires layouts { AreLayouts scene.program.now scene.touched.now scene.layouts.now }
    requires held { IsHeld scene.program.now scene.touched.now scene.blocks.now h }
    ensures whole { IfOk result (λ t. t ≡ not (has_failed (cell_extent scene.entry (cell_in h.entry index)))) }
    ensures marked { OnOk result (named marked.new ≡ entered_in scene.entry (named marked.old) (led_in scene.entry (cell_in h.entry index))) }
{
    if holds_pointer(h, index) {
        let whole = follow_pointer(scene, marked, h, index)?;
        Ok(whole)
    } else {
        Ok(true)
    }
}

/// Marks the cells that a cell leads to, by its block. Whether its pointer doesn't fail.
pub(crate) fn follow(
    scene: Scene<'_>,
    marked: &mut Marked,
    name: CellName,
    block: Option<Held<'_>>,
) -> Result<bool, OutOfMemory>
    requires layouts { AreLayouts scene.program.now scene.touched.now scene.layouts.now }
    requires held { MatchOption block (born_at scene.blocks.now.memory name.serial ≡ None) (λ x. IsHeld scene.program.now scene.touched.now scene.blocks.now x) }
    requires serial { MatchOption block (Unit {0}) (λ x. x.born.serial ≡ name.serial) }
    ensures whole { IfOk result (λ t. t ≡ not (has_failed (cell_extent scene.entry (cell_of name)))) }
    ensures marked { OnOk result (named marked.new ≡ entered_in scene.entry (named marked.old) (led_in scene.entry (cell_of name))) }
{
    match block {
        Some(h) => {
            let whole = follow_in(scene, marked, h, name.index)?;
            Ok(whole)
        }
        None => Ok(true),
    }
}

/// Marks the cells of what is passed. Whether it doesn't fail.
fn enter_root(
    scene: Scene<'_>,
    marked: &mut Marked,
    passed: &[Value],
    root: Root,
) -> Result<bool, OutOfMemory>
    requires layouts { AreLayouts scene.program.now scene.touched.now scene.layouts.now }
    ensures whole { IfOk result (λ t. t ≡ not (has_failed (passed_extent scene.entry (map wire_of passed.now) (root_of root)))) }
    ensures marked { OnOk result (named marked.new ≡ entered_in scene.entry (named marked.old) (passed_cells scene.entry (map wire_of passed.now) (root_of root))) }
{
    let extent = value_extent(scene, Siblings::Passed(passed), root.ann, root.value);
    let whole = enter_extent(scene, marked, root.value, extent)?;
    Ok(whole)
}

fn root_at(roots: &[Root], i: usize) -> Root
    requires { i < length roots.now }
    ensures { slice_get roots.now i ≡ Some result }
{
    roots[i]
}

/// Marks the cells of all that is passed, up to the first that fails. Its number, if one does.
pub(crate) fn enter_roots(
    scene: Scene<'_>,
    marked: &mut Marked,
    passed: &[Value],
    roots: &[Root],
) -> Result<Option<usize>, OutOfMemory>
    requires layouts { AreLayouts scene.program.now scene.touched.now scene.layouts.now }
    ensures failing { IfOk result (λ o. o ≡ failing_in scene.entry (roots_of roots.now passed.now)) }
    ensures marked { IfOk result (λ o. o ≡ None → named marked.new ≡ entered_in scene.entry (named marked.old) (passed_in scene.entry (roots_of roots.now passed.now))) }
{
    for i in 0..roots.len() {
        let whole = enter_root(scene, marked, passed, root_at(roots, i))?;
        if !whole {
            return Ok(Some(i));
        }
    }
    Ok(None)
}
