// Which types' values become values of which others (C99 6.5.16.1, 6.3).

ghost use Rattle.std.specs.Prelude.{◌≡◌};
ghost use Rattle.mdr_core.specs.Types.{is_object_pointer};
ghost use Rattle.mdr_typing.specs.Becoming.{is_integer, is_opaque, are_integers, are_pointers, becomes};

use mdr_core::Ty;
use mdr_faults::is_alike;

fn is_integer(ty: &Ty) -> bool
    ensures { result ≡ is_integer ty.now }
{
    match ty {
        Ty::Int(_) => true,
        Ty::Lock | Ty::Struct(_) | Ty::Ptr(_) | Ty::VoidPtr | Ty::Fun(_) | Ty::Void => false,
    }
}

fn is_opaque(ty: &Ty) -> bool
    ensures { result ≡ is_opaque ty.now }
{
    match ty {
        Ty::VoidPtr => true,
        Ty::Int(_) | Ty::Lock | Ty::Struct(_) | Ty::Ptr(_) | Ty::Fun(_) | Ty::Void => false,
    }
}

fn is_object_pointer(ty: &Ty) -> bool
    ensures { result ≡ is_object_pointer ty.now }
{
    match ty {
        Ty::Ptr(_) | Ty::VoidPtr => true,
        Ty::Int(_) | Ty::Lock | Ty::Struct(_) | Ty::Fun(_) | Ty::Void => false,
    }
}

fn are_integers(t: &Ty, u: &Ty) -> bool
    ensures { result ≡ are_integers t.now u.now }
{
    is_integer(t) && is_integer(u)
}

fn are_pointers(t: &Ty, u: &Ty) -> bool
    ensures { result ≡ are_pointers t.now u.now }
{
    is_opaque(t) && is_object_pointer(u)
}

/// Whether a value of the one type may be given to an object of the other, which is a scalar.
#[tactic(auto, unfolding(crate::specs::Becoming::becomes))]
pub fn becomes(from: &Ty, to: &Ty) -> bool
    ensures { result ≡ becomes from.now to.now }
{
    are_integers(from, to) || are_pointers(from, to) || are_pointers(to, from) || is_alike(from, to)
}
