// Whether a type table has the types of a text.

ghost use Rattle.std.specs.Prelude.{◌≡◌, ◌≤◌};
ghost use Rattle.std.specs.List.{list_all};
ghost use Rattle.mdr_core.specs.declared.types.Ty.{out-Ty};
ghost use Rattle.mdr_check_half.specs.Suiting.{one_by, structs_in, has_type};

use mdr_core::Ty;
use mdr_faults::is_alike;

/// One for a struct, none for any other type.
fn one(ty: &Ty) -> usize
    ensures is { result ≡ one_by (out-Ty ty.now) }
    ensures small { result ≤ 1 }
{
    match ty {
        Ty::Struct(_) => 1,
        Ty::Int(_) | Ty::Lock | Ty::Ptr(_) | Ty::VoidPtr | Ty::Fun(_) | Ty::Void => 0,
    }
}

/// How many structs a type table has.
#[tactic(auto, unfolding(crate::specs::Suiting::structs_in))]
pub fn structs_in(types: &[Ty]) -> usize
    ensures { result ≡ structs_in types.now }
{
    let mut count = 0usize;
    for ty in types {
        count += one(ty);
    }
    count
}

fn has_type(types: &[Ty], ty: &Ty) -> bool
    ensures { result ≡ has_type types.now ty.now }
{
    types.iter().any(|u| is_alike(u, ty))
}

/// Whether a type table has each of some types.
pub fn has_types(types: &[Ty], all: &[Ty]) -> bool
    ensures { result ≡ list_all (λ t. has_type types.now t) all.now }
{
    all.iter().all(|ty| has_type(types, ty))
}
