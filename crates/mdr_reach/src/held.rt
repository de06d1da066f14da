// Live blocks.

ghost use Rattle.std.specs.Prelude.{◌≡◌, IsTrue, MatchOption, None, Some, option_map, slice_get};
ghost use Rattle.mdr_core.specs.declared.plan.Key.TheVariants as key;
ghost use Rattle.mdr_core.specs.Layout.{Alone, chosen, key_by, repeated};
ghost use Rattle.mdr_access.specs.KeyOrder.{keys as key_nodes};
ghost use Rattle.mdr_extents.specs.Around.{global_of, offsets_of};
ghost use Rattle.mdr_extents.specs.Extent.{is_touched};
ghost use Rattle.mdr_meaning.specs.Values.{wire_of};
ghost use Rattle.mdr_mem.specs.Contents.{current, handle_of, is_handle};
ghost use Rattle.mdr_model.specs.Memory.{born_at, cell_at, leaf_at};
ghost use Rattle.mdr_paths.specs.Paths.{is_in};
ghost use Rattle.mdr_reach.specs.Marks.{IsHeld, counts_at, is_around_touched};
ghost use Rattle.mdr_reach.specs.Spots.{AreLayouts, around_of};

use crate::keys::is_set;
use crate::layouts::row_for;
use crate::lists::item;
use crate::rows::{Around, Row};
use crate::scene::Scene;
use mdr_core::{Block, Value};
use mdr_mem::Cells;
use mdr_model::New;
use mdr_region::RegionBlocks;

/// A live block: how it was born, the cells of an element, whether the key of a cell that no struct is around is among
/// those that may be touched, and what was put into its cells.
#[derive(Clone, Copy)]
pub struct Held<'a> {
    pub born: New,
    pub row: &'a Row,
    pub alone: bool,
    pub cells: &'a [Value],
}

/// What was put into a cell, as it is now.
#[tactic(auto, unfolding(mdr_mem::specs::Contents::current))]
pub(crate) fn held_now(blocks: &RegionBlocks, v: Value) -> Value
    ensures { result ≡ current blocks.now.handles v }
{
    match v {
        Value::Ptr(p) => {
            if blocks.alive(p.block) {
                v
            } else {
                Value::Dead
            }
        }
        _ => v,
    }
}

/// How the block was born.
fn born_of(blocks: &RegionBlocks, b: Block) -> New
    requires { IsTrue (is_handle blocks.now.handles b) }
    ensures { born_at blocks.now.memory b.serial ≡ Some result }
{
    let shape = blocks.shape(b);
    New {
        serial: b.serial,
        kind: blocks.kind(b),
        ty: shape.ty,
        count: shape.count,
    }
}

fn is_global_touched(scene: Scene<'_>, number: u64) -> bool
    requires { AreLayouts scene.program.now scene.touched.now scene.layouts.now }
    ensures { result ≡ is_in key_nodes scene.entry.touched.now (key.Global number) }
{
    is_set(scene.layouts.keys.globals.as_slice(), number)
}

fn is_type_touched(scene: Scene<'_>, ty: u32) -> bool
    requires { AreLayouts scene.program.now scene.touched.now scene.layouts.now }
    ensures { result ≡ is_in key_nodes scene.entry.touched.now (key.Elem ty) }
{
    is_set(scene.layouts.keys.types.as_slice(), ty as u64)
}

/// Whether the key of a cell that no struct is around is among those that may be touched.
fn is_lone_touched(scene: Scene<'_>, born: New) -> bool
    requires { AreLayouts scene.program.now scene.touched.now scene.layouts.now }
    ensures { result ≡ is_in key_nodes scene.entry.touched.now (key_by Alone (global_of scene.entry.program.now born) born.ty) }
{
    if born.serial < scene.program.globals.len() as u64 {
        is_global_touched(scene, born.serial)
    } else {
        is_type_touched(scene, born.ty)
    }
}

fn held_by<'a>(scene: Scene<'a>, b: Block) -> Held<'a>
    requires layouts { AreLayouts scene.program.now scene.touched.now scene.layouts.now }
    requires alive { IsTrue (is_handle scene.blocks.now.handles b) }
    ensures held { IsHeld scene.entry.program.now scene.entry.touched.now scene.entry.blocks.now result }
    ensures serial { result.born.serial ≡ b.serial }
{
    let born = born_of(scene.blocks, b);
    Held {
        born,
        row: row_for(scene.layouts, scene.program, scene.touched, born.ty),
        alone: is_lone_touched(scene, born),
        cells: scene.blocks.cells(b),
    }
}

/// The live block with a serial, found in logarithmic time.
fn block_found<'a>(scene: Scene<'a>, serial: u64) -> Option<Held<'a>>
    requires { AreLayouts scene.program.now scene.touched.now scene.layouts.now }
    ensures held { MatchOption result (born_at scene.entry.blocks.now.memory serial ≡ None) (λ x. IsHeld scene.entry.program.now scene.entry.touched.now scene.entry.blocks.now x) }
    ensures serial { MatchOption result (Unit {0}) (λ x. x.born.serial ≡ serial) }
{
    let _in_order = scene.blocks.births();
    match scene.blocks.find(serial) {
        Some(b) => Some(held_by(scene, b)),
        None => None,
    }
}

/// The live block with a handle's serial, which mostly is in the handle's slot.
pub(crate) fn block_of<'a>(scene: Scene<'a>, b: Block) -> Option<Held<'a>>
    requires { AreLayouts scene.program.now scene.touched.now scene.layouts.now }
    ensures held { MatchOption result (born_at scene.entry.blocks.now.memory b.serial ≡ None) (λ x. IsHeld scene.entry.program.now scene.entry.touched.now scene.entry.blocks.now x) }
    ensures serial { MatchOption result (Unit {0}) (λ x. x.born.serial ≡ b.serial) }
{
    if scene.blocks.alive(b) {
        Some(held_by(scene, b))
    } else {
        block_found(scene, b.serial)
    }
}

/// The live block with a serial. Until a block dies each is in the slot that has its serial as its number.
pub(crate) fn block_at<'a>(scene: Scene<'a>, serial: u64) -> Option<Held<'a>>
    requires { AreLayouts scene.program.now scene.touched.now scene.layouts.now }
    ensures held { MatchOption result (born_at scene.entry.blocks.now.memory serial ≡ None) (λ x. IsHeld scene.entry.program.now scene.entry.touched.now scene.entry.blocks.now x) }
    ensures serial { MatchOption result (Unit {0}) (λ x. x.born.serial ≡ serial) }
{
    match u32::try_from(serial) {
        Ok(slot) => block_of(scene, Block { slot, serial }),
        Err(_) => block_found(scene, serial),
    }
}

fn has_serial(h: Held<'_>, serial: u64) -> bool
    ensures { IsTrue result → h.entry.born.serial ≡ serial }
{
    h.born.serial == serial
}

/// The live block with a serial, which may be this one.
fn this_or_other<'a>(scene: Scene<'a>, h: Held<'a>, serial: u64) -> Option<Held<'a>>
    requires layouts { AreLayouts scene.program.now scene.touched.now scene.layouts.now }
    requires held { IsHeld scene.program.now scene.touched.now scene.blocks.now h }
    ensures held { MatchOption result (born_at scene.entry.blocks.now.memory serial ≡ None) (λ x. IsHeld scene.entry.program.now scene.entry.touched.now scene.entry.blocks.now x) }
    ensures serial { MatchOption result (Unit {0}) (λ x. x.born.serial ≡ serial) }
{
    if has_serial(h, serial) {
        Some(h)
    } else {
        block_at(scene, serial)
    }
}

/// The live block with a serial, which may be the one that was looked up last: cells of a block mostly follow one another.
pub(crate) fn block_behind<'a>(
    scene: Scene<'a>,
    last: Option<Held<'a>>,
    serial: u64,
) -> Option<Held<'a>>
    requires layouts { AreLayouts scene.program.now scene.touched.now scene.layouts.now }
    requires last { MatchOption last (Unit {0}) (λ x. IsHeld scene.program.now scene.touched.now scene.blocks.now x) }
    ensures held { MatchOption result (born_at scene.entry.blocks.now.memory serial ≡ None) (λ x. IsHeld scene.entry.program.now scene.entry.touched.now scene.entry.blocks.now x) }
    ensures serial { MatchOption result (Unit {0}) (λ x. x.born.serial ≡ serial) }
{
    match last {
        Some(h) => this_or_other(scene, h, serial),
        None => block_at(scene, serial),
    }
}

/// An item of so many lists like this one, one after another.
fn in_elements<T: Copy>(element: &[T], count: u32, index: u64) -> Option<T>
    ensures { result ≡ slice_get (repeated count element.now) index }
{
    let size = element.len() as u64;
    if size == 0 {
        return None;
    }
    if index / size >= count as u64 {
        return None;
    }
    Some(element[(index % size) as usize])
}

/// What stands around a cell of a block.
pub(crate) fn around(scene: Scene<'_>, h: Held<'_>, index: u64) -> Option<Around>
    requires { IsHeld scene.program.now scene.touched.now scene.blocks.now h }
    ensures { result ≡ option_map (λ l. around_of scene.entry.touched.now l.home) (leaf_at scene.entry.program.now h.entry.born index) }
{
    in_elements(h.row.arounds.as_slice(), h.born.count, index)
}

/// How many cells of the innermost struct around a cell come before it.
pub(crate) fn offset(scene: Scene<'_>, h: Held<'_>, index: u64) -> Option<usize>
    requires { IsHeld scene.program.now scene.touched.now scene.blocks.now h }
    ensures { result ≡ slice_get (offsets_of scene.entry.program.now h.entry.born) index }
{
    in_elements(h.row.offsets.as_slice(), h.born.count, index)
}

fn is_around_touched(around: Option<Around>, alone: bool) -> bool
    ensures { result ≡ is_around_touched around alone }
{
    match around {
        Some(Around::Field(_, _, touched)) => touched,
        Some(Around::Nothing) => alone,
        None => false,
    }
}

/// Whether the key of a cell is among those that may be touched.
pub(crate) fn is_touched(scene: Scene<'_>, h: Held<'_>, index: u64) -> bool
    requires { IsHeld scene.program.now scene.touched.now scene.blocks.now h }
    ensures { result ≡ is_touched scene.entry.program.now scene.entry.touched.now h.entry.born index }
{
    is_around_touched(around(scene, h, index), h.alone)
}

/// Whether the block has the cell, with such a key.
pub(crate) fn counts(scene: Scene<'_>, h: Held<'_>, index: u64) -> bool
    requires { IsHeld scene.program.now scene.touched.now scene.blocks.now h }
    ensures { result ≡ counts_at scene.entry.program.now scene.entry.touched.now scene.entry.blocks.now.memory (record { serial = h.entry.born.serial; index = index }) }
{
    if index < h.cells.len() as u64 {
        is_touched(scene, h, index)
    } else {
        false
    }
}

/// What a cell holds.
pub(crate) fn value_at(scene: Scene<'_>, h: Held<'_>, index: u64) -> Option<Value>
    requires { IsHeld scene.program.now scene.touched.now scene.blocks.now h }
    ensures { option_map wire_of result ≡ cell_at scene.entry.blocks.now.memory (record { serial = h.entry.born.serial; index = index }) }
{
    match item(h.cells, index) {
        Some(v) => Some(held_now(scene.blocks, v)),
        None => None,
    }
}
