// Which values fit places of a type.

ghost use Rattle.std.specs.Prelude.{◌≡◌, true, slice_get};
ghost use Rattle.mdr_core.specs.declared.types.Ty.TheOpen.{Ty-F};
ghost use Rattle.mdr_core.specs.Services.{handler_type};
ghost use Rattle.mdr_core.specs.Sound.{IsSound};
ghost use Rattle.mdr_fits.specs.Judged.{passes_of, places_of};
ghost use Rattle.mdr_meaning.specs.declared.wire.Wire.TheVariants as wire;
ghost use Rattle.mdr_paths.specs.Numbers.{numbers};
ghost use Rattle.mdr_paths.specs.Paths.{is_in};
ghost use Rattle.mdr_split.specs.Fits.{fits, fits_by, fits_function, fits_pointer, fits_result, has_type, is_named};

use crate::places::{Passes, Places};
use crate::types::{has_type, is_handler, is_named};
use crate::views::is_view;
use mdr_copy::is_live;
use mdr_core::{Kind, Ty};
use mdr_model::{Wire, WireView};

#[tactic(auto, unfolding(mdr_paths::specs::Paths::is_in))]
fn is_among(list: &[u32], func: u32) -> bool
    ensures { result ≡ is_in numbers list.now func }
{
    list.iter().any(|f| func == *f)
}

/// Whether the address of a function may be passed.
fn may_pass(passes: Passes, func: u32) -> bool
    ensures { result ≡ passes_of passes.entry func }
{
    match passes {
        Passes::All => true,
        Passes::These(list) => is_among(list, func),
    }
}

fn fits_integer(places: Places, ty: &Ty, kind: Kind, value: Wire) -> bool
    ensures { result ≡ fits_by (places_of places.entry) ty.now (Ty-F.Int kind) value }
{
    match value {
        Wire::Int(own, n) => kind.number() == own.number() && kind.contains(n),
        Wire::Null | Wire::Ptr(_) | Wire::Dead | Wire::Fn(_) | Wire::Lock(_) | Wire::NoValue =>
            false,
    }
}

/// Whether a pointer's block is known, and it is a view of that block.
fn is_known_view(places: Places, view: WireView) -> bool
    requires { IsSound places.program.now }
    ensures { result ≡ fits_pointer (places_of places.entry) (λ n. true) (wire.Ptr view) }
{
    is_live(places.paired, view.serial) && is_view(places.program, places.memory, Wire::Ptr(view))
}

/// Whether a value fits a `void *`.
fn fits_void_pointer(places: Places, value: Wire) -> bool
    requires { IsSound places.program.now }
    ensures { result ≡ fits_pointer (places_of places.entry) (λ n. true) value }
{
    match value {
        Wire::Null | Wire::Dead => true,
        Wire::Ptr(view) => is_known_view(places, view),
        Wire::Int(_, _) | Wire::Fn(_) | Wire::Lock(_) | Wire::NoValue => false,
    }
}

/// Whether a value fits a pointer to a type.
pub(crate) fn fits_pointer(places: Places, element: &Ty, value: Wire) -> bool
    requires { IsSound places.program.now }
    ensures { result ≡ fits_pointer (places_of places.entry) (λ n. is_named places.entry.program.now n element.now) value }
{
    match value {
        Wire::Null | Wire::Dead => true,
        Wire::Ptr(view) => {
            is_named(places.program, view.ty, element) && is_known_view(places, view)
        }
        Wire::Int(_, _) | Wire::Fn(_) | Wire::Lock(_) | Wire::NoValue => false,
    }
}

fn is_function_of(places: Places, func: u32, ty: &Ty) -> bool
    ensures { result ≡ has_type (places_of places.entry) ty.now (slice_get places.entry.program.now.funcs func) }
{
    match places.program.funcs.as_slice().get(func as usize) {
        Some(own) => has_type(own, ty),
        None => false,
    }
}

/// Whether a value fits a pointer to a function.
fn fits_function(places: Places, ty: &Ty, value: Wire) -> bool
    ensures { result ≡ fits_function (places_of places.entry) ty.now value }
{
    match value {
        Wire::Null => true,
        Wire::Fn(func) => { is_function_of(places, func, ty) && may_pass(places.passes, func) }
        Wire::Int(_, _) | Wire::Ptr(_) | Wire::Dead | Wire::Lock(_) | Wire::NoValue => false,
    }
}

/// Whether a value fits a place of a type: an integer of its kind and in its range; null, dead, or a view of a known block
/// with such elements; null, or a function of the type whose address may be passed. Nothing fits other types.
#[tactic(auto, unfolding(mdr_split::specs::Fits::fits))]
pub fn fits(places: Places, ty: &Ty, value: Wire) -> bool
    requires { IsSound places.program.now }
    ensures { result ≡ fits (places_of places.entry) ty.now value }
{
    match ty {
        Ty::Int(kind) => fits_integer(places, ty, *kind, value),
        Ty::Ptr(element) => fits_pointer(places, element.get(), value),
        Ty::VoidPtr => fits_void_pointer(places, value),
        Ty::Fun(_) => fits_function(places, ty, value),
        Ty::Lock | Ty::Struct(_) | Ty::Void => false,
    }
}

/// Whether a value fits a result of a type. No value fits each.
#[tactic(auto, unfolding(mdr_split::specs::Fits::fits_result))]
pub fn fits_result(places: Places, ty: &Ty, value: Wire) -> bool
    requires { IsSound places.program.now }
    ensures { result ≡ fits_result (places_of places.entry) ty.now value }
{
    match value {
        Wire::NoValue => true,
        Wire::Int(_, _) | Wire::Null | Wire::Ptr(_) | Wire::Dead | Wire::Fn(_) | Wire::Lock(_) =>
            fits(places, ty, value),
    }
}

fn is_handler_of(places: Places, func: u32) -> bool
    ensures { result ≡ has_type (places_of places.entry) handler_type (slice_get places.entry.program.now.funcs func) }
{
    match places.program.funcs.as_slice().get(func as usize) {
        Some(own) => is_handler(own),
        None => false,
    }
}

fn is_null_or_handler(places: Places, value: Wire) -> bool
    ensures { result ≡ fits_function (places_of places.entry) handler_type value }
{
    match value {
        Wire::Null => true,
        Wire::Fn(func) => is_handler_of(places, func) && may_pass(places.passes, func),
        Wire::Int(_, _) | Wire::Ptr(_) | Wire::Dead | Wire::Lock(_) | Wire::NoValue => false,
    }
}

/// Whether a value fits a pointer to a function that takes and gives nothing, as an interrupt's handler is.
pub(crate) fn fits_handler(places: Places, value: Wire) -> bool
    ensures { result ≡ fits (places_of places.entry) handler_type value }
{
    is_null_or_handler(places, value)
}
