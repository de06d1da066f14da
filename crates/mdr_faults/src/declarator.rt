// The types of declarators (C99 6.7.5).

ghost use Rattle.std.specs.Prelude.{◌≡◌, [], ◌∷◌, IfOk, List, map};
ghost use Rattle.std.specs.List.{list_any};
ghost use Rattle.std.specs.Option.{option_copied, option_map};
ghost use Rattle.mdr_core.specs.declared.types.Ty.{Ty};
ghost use Rattle.mdr_syntax.specs.declared.tree.Decl.{out-Decl};
ghost use Rattle.mdr_faults.specs.declared.scope.Scope.{Scope};
ghost use Rattle.mdr_faults.specs.Faults.{Checked, told, after};
ghost use Rattle.mdr_faults.specs.Declarations.{struct_named, base_type, type_named, declarator_by, result_type, parameter_type};
ghost use Rattle.mdr_faults.specs.Declarations.{function_type, declarator, is_same_name, parameter_among, parameter_list};

use crate::fault::{Fault, FaultKind};
use crate::joining::{both, demanded, extended};
use crate::scope::{Scope, Tag, tag_named};
use crate::types::{is_scalar, is_void, starred};
use mdr_core::{Items, Name, Place, Ty};
use mdr_syntax::{Base, Decl};
use std::alloc::{AllocError, Global};

fn struct_named(place: Place, tag: Option<&Tag>) -> Result<Ty, Fault>
    ensures { result ≡ told (struct_named place (option_copied tag.entry)) }
{
    match tag {
        None => Err(Fault {
            place,
            kind: FaultKind::Incomplete,
        }),
        Some(tag) => Ok(Ty::Struct(tag.number)),
    }
}

fn base_type(scope: &Scope, base: &Base) -> Result<Ty, Fault>
    ensures { result ≡ told (base_type scope.now base.now) }
{
    match base {
        Base::Int(kind) => Ok(Ty::Int(*kind)),
        Base::Struct(place, name) => struct_named(*place, tag_named(scope, name.as_slice())),
        Base::Void => Ok(Ty::Void),
        Base::Lock => Ok(Ty::Lock),
    }
}

/// A base with so many stars (C99 6.7.5.1). `void` and a lock may come out alone.
pub fn type_named(
    alloc: Global,
    scope: &Scope,
    base: &Base,
    stars: u32,
) -> Result<Result<Ty, Fault>, AllocError>
    ensures { IfOk result (λ r. r ≡ told (type_named scope.now base.now stars)) }
{
    match base_type(scope, base) {
        Ok(ty) => Ok(Ok(starred(alloc, ty, stars)?)),
        Err(fault) => Ok(Err(fault)),
    }
}

/// What a function gives.
pub fn result_type(place: Place, ty: Ty) -> Result<Ty, Fault>
    ensures { result ≡ told (result_type place ty) }
{
    if is_scalar(&ty) || is_void(&ty) {
        Ok(ty)
    } else {
        Err(Fault {
            place,
            kind: FaultKind::Mismatch,
        })
    }
}

fn parameter_type(place: Place, is_array: bool, ty: Ty) -> Result<Ty, Fault>
    ensures { result ≡ told (parameter_type place is_array ty) }
{
    if is_scalar(&ty) && !is_array {
        Ok(ty)
    } else {
        Err(Fault {
            place,
            kind: FaultKind::Mismatch,
        })
    }
}

fn is_same_name(a: &Option<Name>, b: &Option<Name>) -> bool
    ensures { result ≡ is_same_name a.now b.now }
{
    match a {
        None => false,
        Some(x) => match b {
            None => false,
            Some(y) => x.as_slice() == y.as_slice(),
        },
    }
}

/// Whether one of these declares this name, too.
pub fn is_declared(before: &[Decl], name: &Option<Name>) -> bool
    ensures { result ≡ list_any (λ b. is_same_name (out-Decl b).name name.now) before.now }
{
    before.iter().any(|b| is_same_name(&b.name, name))
}

/// The types of a function's result and parameters as one list.
fn with_first(first: Ty, rest: Items<Ty>) -> Result<Items<Ty>, AllocError>
    ensures { IfOk result (λ ts. ts ≡ first ∷ rest) }
{
    let mut types = rest.into_vec();
    types.insert(0, first)?;
    Ok(Items::from_vec(types))
}

/// A pointer to a function.
pub fn function_type(
    result_type: Result<Ty, Fault>,
    params: Result<Items<Ty>, Fault>,
) -> Result<Result<Ty, Fault>, AllocError>
    ensures { (c : Checked Ty) (d : Checked (List Ty)) → result_type ≡ told c → params ≡ told d → IfOk result (λ r. r ≡ told (function_type c d)) }
{
    match both(result_type, params) {
        Ok((first, rest)) => Ok(Ok(Ty::Fun(with_first(first, rest)?))),
        Err(fault) => Ok(Err(fault)),
    }
}

/// What a function gives, where its type is right.
fn checked_result(place: Place, ty: Result<Ty, Fault>) -> Result<Ty, Fault>
    ensures { (c : Checked Ty) → ty ≡ told c → result ≡ told (after c (result_type place)) }
{
    match ty {
        Ok(ty) => result_type(place, ty),
        Err(fault) => Err(fault),
    }
}

/// A parameter among those before it in its list.
pub fn parameter_among(before: &[Decl], d: &Decl, ty: Result<Ty, Fault>) -> Result<Ty, Fault>
    ensures { (scope : Scope) → ty ≡ told (declarator scope d.now).parameter → result ≡ told (parameter_among (map (declarator scope) before.now) (declarator scope d.now)) }
{
    demanded(d.place, FaultKind::Limit, before.len() != 8, ty)
}

/// The type of a declarator, its brackets aside (C99 6.7.5).
#[cycle(declarator)]
pub fn declarator_type(
    alloc: Global,
    scope: &Scope,
    d: &Decl,
) -> Result<Result<Ty, Fault>, AllocError>
    ensures { IfOk result (λ r. r ≡ told (declarator scope.now d.now).whole) }
{
    let ty = type_named(alloc, scope, &d.base, d.stars)?;
    perhaps_function(alloc, scope, d, ty)
}

/// A declarator's base type with its stars, or the function pointer of which it is the result.
#[cycle(declarator)]
fn perhaps_function(
    alloc: Global,
    scope: &Scope,
    d: &Decl,
    ty: Result<Ty, Fault>,
) -> Result<Result<Ty, Fault>, AllocError>
    ensures { (c : Checked Ty) → ty ≡ told c → IfOk result (λ r. r ≡ told (declarator_by c (out-Decl d.now).place (option_map (map (declarator scope.now)) (out-Decl d.now).fun))) }
{
    match &d.fun {
        None => Ok(ty),
        Some(params) => {
            let types = parameter_list(alloc, scope, params.as_slice())?;
            function_type(checked_result(d.place, ty), types)
        }
    }
}

/// A parameter's type.
#[cycle(declarator)]
pub fn parameter(alloc: Global, scope: &Scope, d: &Decl) -> Result<Result<Ty, Fault>, AllocError>
    ensures { IfOk result (λ r. r ≡ told (declarator scope.now d.now).parameter) }
{
    match declarator_type(alloc, scope, d)? {
        Ok(ty) => Ok(parameter_type(d.place, d.size.is_some(), ty)),
        Err(fault) => Ok(Err(fault)),
    }
}

/// The types of a list of parameters.
#[cycle(declarator)]
#[tactic(auto, using(crate::proofs::Gathered::followed_none), unfolding(crate::specs::Declarations::parameter_list))]
pub fn parameter_list(
    alloc: Global,
    scope: &Scope,
    params: &[Decl],
) -> Result<Result<Items<Ty>, Fault>, AllocError>
    ensures { IfOk result (λ r. r ≡ told (parameter_list [] (map (declarator scope.now) params.now))) }
{
    let mut all = Ok(Items::new(alloc));
    for i in 0..params.len() {
        let d = &params[i];
        let ty = parameter(alloc, scope, d)?;
        let among = parameter_among(&params[..i], d, ty);
        all = extended(all, among)?;
    }
    Ok(all)
}
