// Lengths that annotations name.

ghost use Rattle.std.specs.Prelude.{◌≡◌, map, option_map, slice_get};
ghost use Rattle.std.specs.Prelude.{◌+◌};
ghost use Rattle.mdr_core.specs.Layout.{field_start};
ghost use Rattle.mdr_extents.specs.Extent.{length_now, number_in};
ghost use Rattle.mdr_meaning.specs.Values.{wire_of};
ghost use Rattle.mdr_mem.specs.Contents.{wire_in};
ghost use Rattle.mdr_model.specs.Memory.{cell_at};
ghost use Rattle.mdr_reach.specs.Marks.{siblings_of};
ghost use Rattle.mdr_reach.specs.Spots.{AreLayouts};

use crate::held::{block_at, value_at};
use crate::layouts::start_of;
use crate::lists::item;
use crate::scene::Scene;
use mdr_core::{LenOf, Value};

/// What holds the siblings of a pointer: nothing, the fields of the struct with this number that begins at a cell of a
/// block with these values, or the parameters of a call.
#[derive(Clone, Copy)]
pub enum Siblings<'a> {
    Nothing,
    Fields(&'a [Value], u64, u32),
    Passed(&'a [Value]),
}

/// The number that a value is: 0 if it is none.
fn number(value: Option<Value>) -> i128
    ensures { result ≡ number_in (option_map wire_of value) }
{
    match value {
        Some(Value::Int(_, n)) => n,
        Some(_) => 0,
        None => 0,
    }
}

/// The value so many items behind one, if there are as many.
fn item_behind(values: &[Value], start: u64, more: u32) -> Option<Value>
    ensures { result ≡ slice_get values.now (start + more) }
{
    match start.checked_add(more as u64) {
        Some(index) => item(values, index),
        None => None,
    }
}

/// A field's number. What is past all cells counts as 0.
fn field_number(scene: Scene<'_>, cells: &[Value], start: u64, s: u32, f: u32) -> i128
    requires { AreLayouts scene.program.now scene.touched.now scene.layouts.now }
    ensures { result ≡ number_in (slice_get (map (wire_in scene.entry.blocks.now.handles) cells.now) (start + field_start scene.entry.program.now.structs s f)) }
{
    let begins = start_of(scene.layouts, scene.program, scene.touched, s, f);
    number(item_behind(cells, start, begins))
}

fn sibling_number(scene: Scene<'_>, siblings: Siblings<'_>, n: u32) -> i128
    requires { AreLayouts scene.program.now scene.touched.now scene.layouts.now }
    ensures { result ≡ number_in (siblings_of scene.entry.program.now scene.entry.blocks.now.handles siblings.entry n) }
{
    match siblings {
        Siblings::Nothing => 0,
        Siblings::Fields(cells, start, s) => field_number(scene, cells, start, s, n),
        Siblings::Passed(values) => number(item(values, n as u64)),
    }
}

fn global_number(scene: Scene<'_>, g: u32) -> i128
    requires { AreLayouts scene.program.now scene.touched.now scene.layouts.now }
    ensures { result ≡ number_in (cell_at scene.entry.blocks.now.memory (record { serial = g; index = 0 })) }
{
    match block_at(scene, g as u64) {
        Some(h) => number(value_at(scene, h, 0)),
        None => 0,
    }
}

/// A length, in the memory as it is.
#[tactic(auto, unfolding(mdr_extents::specs::Extent::length_now))]
pub(crate) fn length_now(scene: Scene<'_>, siblings: Siblings<'_>, length: LenOf) -> i128
    requires { AreLayouts scene.program.now scene.touched.now scene.layouts.now }
    ensures { result ≡ length_now scene.entry.blocks.now.memory (siblings_of scene.entry.program.now scene.entry.blocks.now.handles siblings.entry) length }
{
    match length {
        LenOf::Const(n) => n as i128,
        LenOf::Sibling(n) => sibling_number(scene, siblings, n),
        LenOf::Global(g) => global_number(scene, g),
    }
}
