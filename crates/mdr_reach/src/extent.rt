// How far a pointer may be followed.

ghost use Rattle.std.specs.Prelude.{◌≡◌, ◌-◌, ◌<◌, MatchOption};
ghost use Rattle.std.specs.List.{list_any};
ghost use Rattle.mdr_core.specs.Layout.{struct_of};
ghost use Rattle.mdr_extents.specs.Extent.{annotated, is_touched, start_in, up_to};
ghost use Rattle.mdr_meaning.specs.declared.wire.Wire.TheVariants as wire;
ghost use Rattle.mdr_meaning.specs.Pointers.{size, struct_numbered};
ghost use Rattle.mdr_meaning.specs.Values.{wire_of, wire_view};
ghost use Rattle.mdr_model.specs.declared.memory.Cell.{Cell};
ghost use Rattle.mdr_model.specs.Sets.{cells_from};
ghost use Rattle.mdr_reach.specs.Marks.{IsHeld, block_extent, extent_long, extent_of, extent_searched, extent_single, siblings_of, value_extent};
ghost use Rattle.mdr_reach.specs.Spots.{AreLayouts};

use crate::held::{Held, block_of, is_touched};
use crate::layouts::{size_of, start_of};
use crate::lengths::{Siblings, length_now};
use crate::scene::Scene;
use crate::searches::first_empty;
use mdr_core::{Ann, Program, Ty, Value, View};

/// So many elements from a pointer's index on, or failure.
#[derive(Clone, Copy)]
pub enum Extent {
    Elements(u32),
    Fails,
}

/// How many cells an element has of the type with a number.
pub(crate) fn element_size(scene: Scene<'_>, ty: u32) -> u32
    requires { AreLayouts scene.program.now scene.touched.now scene.layouts.now }
    ensures { result ≡ size scene.entry.program.now ty }
{
    size_of(scene.layouts, scene.program, scene.touched, ty)
}

/// The number of the struct that a type is.
fn struct_named(ty: &Ty) -> Option<u32>
    ensures { result ≡ struct_of ty.now }
{
    match ty {
        Ty::Struct(s) => Some(*s),
        Ty::Void | Ty::Int(_) | Ty::Lock | Ty::Ptr(_) | Ty::VoidPtr | Ty::Fun(_) => None,
    }
}

/// That of the struct which the type with a number is.
fn struct_numbered(program: &Program, ty: u32) -> Option<u32>
    ensures { result ≡ struct_numbered program.now ty }
{
    match program.types.as_slice().get(ty as usize) {
        Some(ty) => struct_named(ty),
        None => None,
    }
}

/// The cell of an element with which a field begins, if it is of a struct.
fn field_in(scene: Scene<'_>, ty: u32, f: u32) -> u32
    requires { AreLayouts scene.program.now scene.touched.now scene.layouts.now }
    ensures { result ≡ start_in scene.entry.program.now (struct_numbered scene.entry.program.now ty) f }
{
    match struct_numbered(scene.program, ty) {
        Some(s) => start_of(scene.layouts, scene.program, scene.touched, s, f),
        None => 0,
    }
}

/// Whether an element has a cell with a key among those that may be touched.
fn is_any_touched(scene: Scene<'_>, h: Held<'_>, first: u32, size: u32) -> bool
    requires { IsHeld scene.program.now scene.touched.now scene.blocks.now h }
    ensures { result ≡ list_any (λ (c : Cell). is_touched scene.entry.program.now scene.entry.touched.now h.entry.born c.index) (cells_from h.entry.born.serial first size) }
{
    let mut i = 0;
    while i < size {
        if is_touched(scene, h, first as u64 + i as u64) {
            return true;
        }
        i += 1;
    }
    false
}

/// So many elements, where there are as many.
fn of_length(p: View, n: i128) -> Extent
    ensures { extent_of result ≡ extent_long (p.count - p.index) n }
{
    if n < 0 {
        return Extent::Fails;
    }
    match u32::try_from(n) {
        Ok(k) => {
            if p.count.saturating_sub(p.index) < k {
                Extent::Fails
            } else {
                Extent::Elements(k)
            }
        }
        Err(_) => Extent::Fails,
    }
}

/// The elements from an index up to and with the one that was found, which is before this end.
fn up_to(index: u32, found: Option<u32>, end: u32) -> Extent
    requires { MatchOption found (Unit {0}) (λ last. last < end) }
    ensures { extent_of result ≡ up_to index found }
{
    let _ = end;
    match found {
        Some(last) => Extent::Elements((last + 1).saturating_sub(index)),
        None => Extent::Fails,
    }
}

/// One element, if the pointer isn't past the end.
fn single(p: View) -> Extent
    ensures { extent_of result ≡ extent_single p.index p.count }
{
    if p.index < p.count {
        Extent::Elements(1)
    } else {
        Extent::Elements(0)
    }
}

/// The elements up to and with the first of which a cell, so many behind its first one, is empty.
fn searched(scene: Scene<'_>, h: Held<'_>, p: View, start: u32) -> Extent
    requires layouts { AreLayouts scene.program.now scene.touched.now scene.layouts.now }
    requires held { IsHeld scene.program.now scene.touched.now scene.blocks.now h }
    requires serial { h.born.serial ≡ p.block.serial }
    ensures { extent_of result ≡ extent_searched scene.entry.program.now scene.entry.blocks.now.memory (wire_view p) start }
{
    let size = element_size(scene, p.ty);
    let found = first_empty(h.cells, p.first, size, start, p.index, p.count);
    up_to(p.index, found, p.count)
}

/// By the annotation.
fn annotated(scene: Scene<'_>, h: Held<'_>, siblings: Siblings<'_>, ann: Ann, p: View) -> Extent
    requires layouts { AreLayouts scene.program.now scene.touched.now scene.layouts.now }
    requires held { IsHeld scene.program.now scene.touched.now scene.blocks.now h }
    requires serial { h.born.serial ≡ p.block.serial }
    ensures { extent_of result ≡ annotated scene.entry.program.now scene.entry.blocks.now.memory (wire_view p) (siblings_of scene.entry.program.now scene.entry.blocks.now.handles siblings.entry) ann }
{
    match ann {
        Ann::Single => single(p),
        Ann::Array(length) => of_length(p, length_now(scene, siblings, length)),
        Ann::Sentinel(f) => searched(scene, h, p, field_in(scene, p.ty, f)),
        Ann::NullTerm => searched(scene, h, p, 0),
        Ann::Opaque => Extent::Elements(0),
    }
}

/// Of a pointer into a live block.
fn extent_in(scene: Scene<'_>, h: Held<'_>, siblings: Siblings<'_>, ann: Ann, p: View) -> Extent
    requires layouts { AreLayouts scene.program.now scene.touched.now scene.layouts.now }
    requires held { IsHeld scene.program.now scene.touched.now scene.blocks.now h }
    requires serial { h.born.serial ≡ p.block.serial }
    ensures { extent_of result ≡ block_extent scene.entry h.entry siblings.entry ann (wire_view p) }
{
    let size = element_size(scene, p.ty);
    if is_any_touched(scene, h, p.first, size) {
        annotated(scene, h, siblings, ann, p)
    } else {
        Extent::Elements(0)
    }
}

/// Of a pointer.
fn extent_view(scene: Scene<'_>, siblings: Siblings<'_>, ann: Ann, p: View) -> Extent
    requires { AreLayouts scene.program.now scene.touched.now scene.layouts.now }
    ensures { extent_of result ≡ value_extent scene.entry siblings.entry ann (wire.Ptr (wire_view p)) }
{
    match block_of(scene, p.block) {
        Some(h) => extent_in(scene, h, siblings, ann, p),
        None => Extent::Elements(0),
    }
}

/// The extent of a value.
#[tactic(auto, unfolding(mdr_extents::specs::Extent::extent))]
pub(crate) fn value_extent(
    scene: Scene<'_>,
    siblings: Siblings<'_>,
    ann: Ann,
    value: Value,
) -> Extent
    requires { AreLayouts scene.program.now scene.touched.now scene.layouts.now }
    ensures { extent_of result ≡ value_extent scene.entry siblings.entry ann (wire_of value) }
{
    match value {
        Value::Ptr(p) => extent_view(scene, siblings, ann, p),
        Value::Int(_, _) => Extent::Elements(0),
        Value::Null => Extent::Elements(0),
        Value::Dead => Extent::Elements(0),
        Value::Fn(_) => Extent::Elements(0),
        Value::Lock(_) => Extent::Elements(0),
        Value::NoValue => Extent::Elements(0),
    }
}
