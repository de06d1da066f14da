// The views of a block.

ghost use Rattle.std.specs.Prelude.{◌≡◌, ◌↔◌, ◌<◌, ◌≤◌, ◌-◌, IsTrue, length, slice_get, Some};
ghost use Rattle.mdr_core.specs.Layout.{struct_cells};
ghost use Rattle.mdr_core.specs.Sound.{IsSound};
ghost use Rattle.mdr_core.specs.Views.{AreLaid, HasCells, IsIn, IsViewOf, IsInFields, IsInStructs, IsWhole};

use crate::layout::{field_at, struct_named, struct_size, type_at};
use crate::program::Program;
use crate::same::same_type;
use crate::types::{Shape, Ty};
use crate::value::View;

/// Whether a number of the type table names a type.
fn is_named(program: &Program, number: u32, ty: &Ty) -> bool
    ensures { IsTrue result ↔ (slice_get program.now.types number ≡ Some ty.now) }
{
    match program.types.as_slice().get(number as usize) {
        Some(named) => same_type(named, ty),
        None => false,
    }
}

/// Whether a view is so many elements from a cell on.
fn is_whole(program: &Program, view: View, first: u32, ty: &Ty, count: u32) -> bool
    ensures { IsTrue result ↔ IsWhole program.now view first ty.now count }
{
    view.first == first && view.count == count && is_named(program, view.ty, ty)
}

/// Whether a view is one of those of so many elements from a cell on.
#[cycle(view)]
fn is_in(program: &Program, view: View, first: u32, ty: &Ty, count: u32) -> bool
    requires laid { AreLaid program.now.structs }
    requires cells { HasCells program.now.structs ty.now }
    ensures { IsTrue result ↔ IsIn program.now view first ty.now count }
{
    if is_whole(program, view, first, ty, count) {
        return true;
    }
    match struct_named(ty) {
        Some(s) => is_in_structs(program, view, s, first, ty, count),
        None => false,
    }
}

/// Whether a view is a struct of so many, or lies in a field of one.
#[cycle(view)]
fn is_in_structs(program: &Program, view: View, s: u32, first: u32, ty: &Ty, count: u32) -> bool
    requires laid { AreLaid program.now.structs }
    requires cells { 1 ≤ length (struct_cells program.now.structs s) }
    ensures { IsTrue result ↔ IsInStructs program.now view s first ty.now count }
{
    let size = struct_size(program.structs.as_slice(), s);
    if view.first < first {
        return false;
    }
    let cell = view.first - first;
    let inside = cell % size;
    if cell / size >= count {
        return false;
    }
    is_whole(program, view, view.first - inside, ty, 1) || is_in_field(program, view, s, inside)
}

/// Whether a view lies in a field of the struct that begins so many cells before it.
#[cycle(view)]
fn is_in_field(program: &Program, view: View, s: u32, inside: u32) -> bool
    requires laid { AreLaid program.now.structs }
    requires behind { inside ≤ view.first }
    requires within { inside < length (struct_cells program.now.structs s) }
    ensures { IsTrue result ↔ IsInFields program.now view s (view.first - inside) }
{
    match field_at(program.structs.as_slice(), s, inside) {
        Some(at) => is_in(
            program,
            view,
            view.first - at.cell,
            &at.field.ty,
            at.field.count,
        ),
        None => false,
    }
}

/// Whether a view's index is at most one past its last element.
fn has_index(view: View) -> bool
    ensures { IsTrue result ↔ (view.index ≤ view.count) }
{
    view.index <= view.count
}

/// Whether a pointer's view is one of a block of this shape, and its index at most one past the view's end. The views of
/// a shape are the whole and, of each view whose elements are structs, each element and each field of each. The time is
/// that of `cells_of` for each struct on the way to the view.
pub fn view_ok(program: &Program, shape: Shape, view: View) -> bool
    requires in_table { shape.ty < length program.now.types }
    requires sound { IsSound program.now }
    ensures { IsTrue result ↔ IsViewOf program.now shape view }
{
    if has_index(view) {
        is_in(program, view, 0, type_at(program, shape.ty), shape.count)
    } else {
        false
    }
}
