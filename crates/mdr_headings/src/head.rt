// What stands before a function's body (C99 6.7.5.3, 6.9.1).

ghost use Rattle.std.specs.Prelude.{◌≡◌, ◌++◌, ◌∷◌, [], IfOk, List, Some, map};
ghost use Rattle.mdr_core.specs.declared.program.Param.{Param};
ghost use Rattle.mdr_core.specs.declared.types.Ty.{Ty};
ghost use Rattle.mdr_syntax.specs.declared.tree.Decl.{out-Decl};
ghost use Rattle.mdr_headings.specs.declared.head.Given.{Given};
ghost use Rattle.mdr_faults.specs.Faults.{Checked, told, after, both};
ghost use Rattle.mdr_faults.specs.Declarations.{declarator, parameter_among};
ghost use Rattle.mdr_headings.specs.Annotations.{bare};
ghost use Rattle.mdr_headings.specs.Within.{beside, names_around, within};
ghost use Rattle.mdr_headings.specs.Heads.{annotated_param, param_among, params_behind, annotated_result, head_result, result_where, typed_result, given, heading_of, heading};

use crate::annotation::annotated;
use crate::inner::{bare, beside, candidates, names_around, type_among, within};
use crate::structs::declared_name;
use mdr_core::{Ann, Items, OutOfMemory, Param, Place, Ty};
use mdr_faults::{
    Candidate, Fault, Scope, both, copied, extended, parameter_list, result_type, type_named,
};
use mdr_syntax::{AnnText, Decl, Head};
use std::alloc::{AllocError, Global};

/// What a function gives.
#[derive(Drop)]
pub struct Given {
    pub ty: Ty,
    pub ann: Ann,
}

/// What a function takes and gives. Which parameters are objects isn't known yet.
#[derive(Drop)]
pub struct Heading {
    pub result: Ty,
    pub ann: Ann,
    pub params: Items<Param>,
}

/// A parameter with its annotation.
#[tactic(auto, unfolding(crate::specs::Heads::annotated_param))]
fn annotated_param(
    alloc: Global,
    scope: &Scope,
    siblings: &[Candidate],
    d: &Decl,
    ty: Ty,
) -> Result<Result<Param, Fault>, OutOfMemory>
    ensures { IfOk result (λ r. r ≡ told (annotated_param scope.now siblings.now d.now ty)) }
{
    match annotated(scope, siblings, d.place, &ty, &d.ann)? {
        Ok(ann) => Ok(Ok(Param {
            name: declared_name(alloc, &d.name)?,
            ty,
            ann,
            object: false,
        })),
        Err(fault) => Ok(Err(fault)),
    }
}

/// A parameter by itself.
fn lone_param(
    alloc: Global,
    scope: &Scope,
    siblings: &[Candidate],
    before: &[Decl],
    d: &Decl,
) -> Result<Result<Param, Fault>, OutOfMemory>
    ensures { IfOk result (λ r. r ≡ told (after (parameter_among (map (declarator scope.now) before.now) (declarator scope.now d.now)) (annotated_param scope.now siblings.now d.now))) }
{
    match type_among(alloc, scope, before, d)? {
        Ok(ty) => annotated_param(alloc, scope, siblings, d, ty),
        Err(fault) => Ok(Err(fault)),
    }
}

/// A parameter among those before it.
#[tactic(auto, unfolding(crate::specs::Heads::param_among))]
fn param_among(
    alloc: Global,
    scope: &Scope,
    siblings: &[Candidate],
    before: &[Decl],
    d: &Decl,
) -> Result<Result<Param, Fault>, OutOfMemory>
    ensures { IfOk result (λ r. r ≡ told (param_among scope.now siblings.now before.now d.now)) }
{
    let names = names_around(alloc, &[], before)?;
    let dropped = within(alloc, scope, names.as_slice(), d)?;
    let kept = lone_param(alloc, scope, siblings, before, d)?;
    Ok(beside(dropped, kept))
}

/// The parameters of a function, each among those before it.
#[tactic(auto, using(mdr_faults::proofs::Gathered::followed_none), unfolding(crate::specs::Heads::params_behind))]
fn params(
    alloc: Global,
    scope: &Scope,
    siblings: &[Candidate],
    ds: &[Decl],
) -> Result<Result<Items<Param>, Fault>, OutOfMemory>
    ensures { IfOk result (λ r. r ≡ told (params_behind scope.now siblings.now [] ds.now)) }
{
    let mut all = Ok(Items::new(alloc));
    for i in 0..ds.len() {
        let d = &ds[i];
        let param = param_among(alloc, scope, siblings, &ds[..i], d)?;
        all = extended(all, param)?;
    }
    Ok(all)
}

fn annotated_result(
    scope: &Scope,
    siblings: &[Candidate],
    place: Place,
    ann: &Option<AnnText>,
    ty: Ty,
) -> Result<Result<Given, Fault>, OutOfMemory>
    ensures { IfOk result (λ r. r ≡ told (annotated_result scope.now siblings.now place ann.now ty)) }
{
    match annotated(scope, siblings, place, &ty, ann)? {
        Ok(ann) => Ok(Ok(Given { ty, ann })),
        Err(fault) => Ok(Err(fault)),
    }
}

/// The type of what a function gives.
#[tactic(auto, unfolding(crate::specs::Heads::head_result))]
pub fn head_result(alloc: Global, scope: &Scope, h: &Head) -> Result<Result<Ty, Fault>, AllocError>
    ensures { IfOk result (λ r. r ≡ told (head_result scope.now h.now)) }
{
    match type_named(alloc, scope, &h.base, h.stars)? {
        Ok(ty) => Ok(result_type(h.place, ty)),
        Err(fault) => Ok(Err(fault)),
    }
}

fn result_where(
    result_type: Result<Ty, Fault>,
    params: Result<Items<Ty>, Fault>,
) -> Result<Ty, Fault>
    ensures { (c : Checked Ty) (d : Checked (List Ty)) → result_type ≡ told c → params ≡ told d → result ≡ told (both c d result_where) }
{
    match both(result_type, params) {
        Ok((ty, _)) => Ok(ty),
        Err(fault) => Err(fault),
    }
}

/// The type of what a function gives, where the types of its parameters are right, too.
#[tactic(auto, unfolding(crate::specs::Heads::typed_result))]
fn typed_result(alloc: Global, scope: &Scope, h: &Head) -> Result<Result<Ty, Fault>, AllocError>
    ensures { IfOk result (λ r. r ≡ told (typed_result scope.now h.now)) }
{
    let result_type = head_result(alloc, scope, h)?;
    let params = parameter_list(alloc, scope, h.params.as_slice())?;
    Ok(result_where(result_type, params))
}

#[tactic(auto, unfolding(crate::specs::Heads::given))]
fn result_given(
    alloc: Global,
    scope: &Scope,
    siblings: &[Candidate],
    h: &Head,
) -> Result<Result<Given, Fault>, OutOfMemory>
    ensures { IfOk result (λ r. r ≡ told (given scope.now siblings.now h.now)) }
{
    match typed_result(alloc, scope, h)? {
        Ok(ty) => annotated_result(scope, siblings, h.place, &h.ann, ty),
        Err(fault) => Ok(Err(fault)),
    }
}

fn heading_of(
    given: Result<Given, Fault>,
    params: Result<Items<Param>, Fault>,
) -> Result<Heading, Fault>
    ensures { (c : Checked Given) (d : Checked (List Param)) → given ≡ told c → params ≡ told d → result ≡ told (both c d heading_of) }
{
    match both(given, params) {
        Ok((given, params)) => Ok(Heading {
            result: given.ty,
            ann: given.ann,
            params,
        }),
        Err(fault) => Err(fault),
    }
}

/// Adds a function's own name to what stands beside its result's annotation.
fn with_own_name(
    alloc: Global,
    params: Items<Candidate>,
    h: &Head,
) -> Result<Items<Candidate>, AllocError>
    ensures { IfOk result (λ cs. cs ≡ params ++ bare (Some h.now.name) ∷ []) }
{
    let mut all = params;
    all.push(bare(Some(copied(alloc, h.name.as_slice())?)))?;
    Ok(all)
}

/// What a function takes and gives, in the scope in front of it.
#[tactic(auto, unfolding(crate::specs::Heads::heading))]
pub fn checked_heading(
    alloc: Global,
    scope: &Scope,
    h: &Head,
) -> Result<Result<Heading, Fault>, OutOfMemory>
    ensures { IfOk result (λ r. r ≡ told (heading scope.now h.now)) }
{
    let siblings = candidates(alloc, scope, h.params.as_slice())?;
    let params = params(alloc, scope, siblings.as_slice(), h.params.as_slice())?;
    let all = with_own_name(alloc, siblings, h)?;
    let result = result_given(alloc, scope, all.as_slice(), h)?;
    Ok(heading_of(result, params))
}
