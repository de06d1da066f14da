// Annotations within declarators: those of function pointers' parameters (C99 6.7.5.3).

ghost use Rattle.std.specs.Prelude.{◌≡◌, ◌++◌, [], IfOk, List, map};
ghost use Rattle.std.specs.Option.{option_map};
ghost use Rattle.mdr_core.specs.declared.types.Ann.{Ann};
ghost use Rattle.mdr_syntax.specs.declared.tree.Decl.{out-Decl};
ghost use Rattle.mdr_faults.specs.Declarations.{declarator, parameter_among};
ghost use Rattle.mdr_faults.specs.Faults.{Checked, told};
ghost use Rattle.mdr_headings.specs.Annotations.{bare, candidate};
ghost use Rattle.mdr_headings.specs.Within.{beside, names_around, own_annotation, inner_among, inner_list, inner_siblings, inner_by, inner, within};

use crate::annotation::{annotated, candidate, copied_name};
use mdr_core::{Ann, Items, Name, OutOfMemory, Ty};
use mdr_faults::{Candidate, Fault, Scope, both, extended, parameter, parameter_among};
use mdr_syntax::Decl;
use std::alloc::{AllocError, Global};

/// What is kept, where what stands beside it is right, too.
pub fn beside<A: Drop, B: Drop>(
    dropped: Result<A, Fault>,
    kept: Result<B, Fault>,
) -> Result<B, Fault>
    ensures { (c : Checked A) (d : Checked B) → dropped ≡ told c → kept ≡ told d → result ≡ told (beside c d) }
{
    match both(dropped, kept) {
        Ok((_, kept)) => Ok(kept),
        Err(fault) => Err(fault),
    }
}

// ---- which names are declared around

/// A name that is declared, but is no length.
pub fn bare(name: Option<Name>) -> Candidate
    ensures { result ≡ bare name }
{
    Candidate {
        name,
        is_integer: false,
        is_scalar: false,
    }
}

fn copied_candidate(alloc: Global, c: &Candidate) -> Result<Candidate, AllocError>
    ensures { IfOk result (λ d. d ≡ c.now) }
{
    Ok(Candidate {
        name: copied_name(alloc, &c.name)?,
        is_integer: c.is_integer,
        is_scalar: c.is_scalar,
    })
}

fn with_copies(
    alloc: Global,
    first: Items<Candidate>,
    cs: &[Candidate],
) -> Result<Items<Candidate>, AllocError>
    ensures { IfOk result (λ all. all ≡ first ++ cs.now) }
{
    let mut all = first;
    for c in cs {
        all.push(copied_candidate(alloc, c)?)?;
    }
    Ok(all)
}

fn with_names(
    alloc: Global,
    first: Items<Candidate>,
    ds: &[Decl],
) -> Result<Items<Candidate>, AllocError>
    ensures { IfOk result (λ all. all ≡ first ++ map (λ d. bare (out-Decl d).name) ds.now) }
{
    let mut all = first;
    for d in ds {
        all.push(bare(copied_name(alloc, &d.name)?))?;
    }
    Ok(all)
}

/// The names around a parameter's own list.
pub fn names_around(
    alloc: Global,
    around: &[Candidate],
    before: &[Decl],
) -> Result<Items<Candidate>, AllocError>
    ensures { IfOk result (λ cs. cs ≡ names_around around.now before.now) }
{
    let first = with_copies(alloc, Items::new(alloc), around)?;
    with_names(alloc, first, before)
}

/// The parameters of one list as annotations see them, and the names around it.
fn siblings_among(
    alloc: Global,
    scope: &Scope,
    around: &[Candidate],
    ds: &[Decl],
) -> Result<Items<Candidate>, AllocError>
    ensures { IfOk result (λ cs. cs ≡ map (candidate scope.now) ds.now ++ around.now) }
{
    let first = candidates(alloc, scope, ds)?;
    with_copies(alloc, first, around)
}

/// Fields or parameters as annotations see them.
pub fn candidates(alloc: Global, scope: &Scope, ds: &[Decl]) -> Result<Items<Candidate>, AllocError>
    ensures { IfOk result (λ cs. cs ≡ map (candidate scope.now) ds.now) }
{
    let mut all = Items::new(alloc);
    for d in ds {
        all.push(candidate(alloc, scope, d)?)?;
    }
    Ok(all)
}

// ---- what is judged

/// A parameter's type among those before it.
pub fn type_among(
    alloc: Global,
    scope: &Scope,
    before: &[Decl],
    d: &Decl,
) -> Result<Result<Ty, Fault>, AllocError>
    ensures { IfOk result (λ r. r ≡ told (parameter_among (map (declarator scope.now) before.now) (declarator scope.now d.now))) }
{
    let ty = parameter(alloc, scope, d)?;
    Ok(parameter_among(before, d, ty))
}

/// The annotation of a parameter among those before it.
#[tactic(auto, unfolding(crate::specs::Within::own_annotation))]
fn own_annotation(
    alloc: Global,
    scope: &Scope,
    siblings: &[Candidate],
    before: &[Decl],
    d: &Decl,
) -> Result<Result<Ann, Fault>, OutOfMemory>
    ensures { IfOk result (λ r. r ≡ told (own_annotation scope.now siblings.now before.now d.now)) }
{
    match type_among(alloc, scope, before, d)? {
        Ok(ty) => annotated(scope, siblings, d.place, &ty, &d.ann),
        Err(fault) => Ok(Err(fault)),
    }
}

/// The annotations within a declarator, where these names are declared around it.
#[cycle(within)]
pub fn within(
    alloc: Global,
    scope: &Scope,
    around: &[Candidate],
    d: &Decl,
) -> Result<Result<Items<Ann>, Fault>, OutOfMemory>
    ensures { IfOk result (λ r. r ≡ told (within scope.now around.now d.now)) }
{
    inner_by(alloc, scope, around, d)
}

#[cycle(within)]
fn inner_by(
    alloc: Global,
    scope: &Scope,
    around: &[Candidate],
    d: &Decl,
) -> Result<Result<Items<Ann>, Fault>, OutOfMemory>
    ensures { IfOk result (λ r. r ≡ told (inner_by scope.now (option_map (map (inner scope.now)) (out-Decl d.now).fun) around.now)) }
{
    match &d.fun {
        None => Ok(Ok(Items::new(alloc))),
        Some(params) => inner_list(alloc, scope, around, params.as_slice()),
    }
}

#[cycle(within)]
fn inner_list(
    alloc: Global,
    scope: &Scope,
    around: &[Candidate],
    ds: &[Decl],
) -> Result<Result<Items<Ann>, Fault>, OutOfMemory>
    ensures { IfOk result (λ r. r ≡ told (inner_list scope.now around.now (inner_siblings scope.now around.now (map (inner scope.now) ds.now)) [] (map (inner scope.now) ds.now))) }
{
    let siblings = siblings_among(alloc, scope, around, ds)?;
    inner_annotations(alloc, scope, around, siblings.as_slice(), ds)
}

/// The annotations of a list's parameters, and those within their declarators.
#[cycle(within)]
#[tactic(auto, using(mdr_faults::proofs::Gathered::followed_none), unfolding(crate::specs::Within::inner_list))]
fn inner_annotations(
    alloc: Global,
    scope: &Scope,
    around: &[Candidate],
    siblings: &[Candidate],
    ds: &[Decl],
) -> Result<Result<Items<Ann>, Fault>, OutOfMemory>
    ensures { IfOk result (λ r. r ≡ told (inner_list scope.now around.now siblings.now [] (map (inner scope.now) ds.now))) }
{
    let mut all = Ok(Items::new(alloc));
    for i in 0..ds.len() {
        let one = inner_among(alloc, scope, around, siblings, &ds[i], &ds[..i])?;
        all = extended(all, one)?;
    }
    Ok(all)
}

#[cycle(within)]
fn inner_among(
    alloc: Global,
    scope: &Scope,
    around: &[Candidate],
    siblings: &[Candidate],
    d: &Decl,
    before: &[Decl],
) -> Result<Result<Ann, Fault>, OutOfMemory>
    ensures { IfOk result (λ r. r ≡ told (inner_among scope.now around.now siblings.now before.now (inner scope.now d.now))) }
{
    let names = names_around(alloc, around, before)?;
    let dropped = within(alloc, scope, names.as_slice(), d)?;
    let kept = own_annotation(alloc, scope, siblings, before, d)?;
    Ok(beside(dropped, kept))
}
