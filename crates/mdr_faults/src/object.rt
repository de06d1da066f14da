// Objects: how many elements a declarator has, and how many cells (C99 6.7.5.2).

ghost use Rattle.std.specs.Prelude.{◌≡◌, ℕ, IfOk, is_some, slice_get};
ghost use Rattle.mdr_core.specs.declared.types.Ty.{Ty};
ghost use Rattle.mdr_syntax.specs.declared.tree.Decl.{out-Decl};
ghost use Rattle.mdr_faults.specs.Faults.{Checked, told, both};
ghost use Rattle.mdr_faults.specs.Declarations.{element_count, count_of, struct_cells, cells_of, sized, object_of, object_declared};

use crate::constants::constant;
use crate::declarator::declarator_type;
use crate::fault::{Fault, FaultKind};
use crate::joining::{both, mismatch};
use crate::scope::{Object, Scope};
use mdr_core::{Place, Ty};
use mdr_syntax::{Const, Decl};
use std::alloc::{AllocError, Global};

fn element_count(place: Place, number: i128) -> Result<u128, Fault>
    ensures { result ≡ told (element_count place number) }
{
    if number > 0 {
        Ok(number as u128)
    } else {
        mismatch(place)
    }
}

/// How many elements a declarator has.
fn count_of(scope: &Scope, place: Place, size: &Option<Const>) -> Result<u128, Fault>
    ensures { result ≡ told (count_of scope.now place size.now) }
{
    match size {
        None => Ok(1),
        Some(c) => match constant(scope, place, c) {
            Ok(c) => element_count(place, c.number),
            Err(fault) => Err(fault),
        },
    }
}

fn struct_cells(scope: &Scope, place: Place, s: u32) -> Result<u32, Fault>
    ensures { result ≡ told (struct_cells place (slice_get scope.now.structs s)) }
{
    match scope.structs.as_slice().get(s as usize) {
        None => mismatch(place),
        Some(entry) => match &entry.cells {
            Ok(cells) => Ok(*cells),
            Err(fault) => Err(*fault),
        },
    }
}

/// How many cells an object of a type has.
pub fn cells_of(scope: &Scope, place: Place, ty: &Ty) -> Result<u32, Fault>
    ensures { result ≡ told (cells_of scope.now place ty.now) }
{
    match ty {
        Ty::Int(_) | Ty::Lock | Ty::Ptr(_) | Ty::VoidPtr | Ty::Fun(_) => Ok(1),
        Ty::Struct(s) => struct_cells(scope, place, *s),
        Ty::Void => mismatch(place),
    }
}

/// An object of at most 65,536 cells.
fn sized(limit: Place, ty: Ty, is_array: bool, count: u128, cells: u32) -> Result<Object, Fault>
    ensures { result ≡ told (sized limit ty is_array count cells) }
{
    if count > 65536 || count * cells as u128 > 65536 {
        return Err(Fault {
            place: limit,
            kind: FaultKind::Limit,
        });
    }
    Ok(Object {
        ty,
        count: count as u32,
        array: is_array,
    })
}

fn object_of(
    scope: &Scope,
    place: Place,
    limit: Place,
    ty: Ty,
    is_array: bool,
    count: u128,
) -> Result<Object, Fault>
    ensures { result ≡ told (object_of scope.now place limit ty is_array count) }
{
    match cells_of(scope, place, &ty) {
        Ok(cells) => sized(limit, ty, is_array, count, cells),
        Err(fault) => Err(fault),
    }
}

fn counted(
    scope: &Scope,
    limit: Place,
    d: &Decl,
    ty: Result<Ty, Fault>,
    count: Result<u128, Fault>,
) -> Result<Object, Fault>
    ensures { (t : Checked Ty) (n : Checked ℕ) → ty ≡ told t → count ≡ told n → result ≡ told (both t n (λ t n. object_of scope.now (out-Decl d.now).place limit t (is_some (out-Decl d.now).size) n)) }
{
    match both(ty, count) {
        Ok((ty, count)) => object_of(scope, d.place, limit, ty, d.size.is_some(), count),
        Err(fault) => Err(fault),
    }
}

/// The object that a field, a global or a local declares (C99 6.7). What is too large is told at `limit`.
#[tactic(auto, unfolding(crate::specs::Declarations::object_declared))]
pub fn object_declared(
    alloc: Global,
    scope: &Scope,
    limit: Place,
    d: &Decl,
) -> Result<Result<Object, Fault>, AllocError>
    ensures { IfOk result (λ r. r ≡ told (object_declared scope.now limit d.now)) }
{
    let ty = declarator_type(alloc, scope, d)?;
    let count = count_of(scope, d.place, &d.size);
    Ok(counted(scope, limit, d, ty, count))
}
