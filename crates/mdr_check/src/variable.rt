// Globals (C99 6.7, 6.9.2).

ghost use Rattle.std.specs.Prelude.{◌≡◌, ◌==◌, ◌∷◌, [], not, IfOk, OnOk, List};
ghost use Rattle.mdr_core.specs.declared.types.Ann.{Ann};
ghost use Rattle.mdr_syntax.specs.declared.tree.Decl.{out-Decl};
ghost use Rattle.mdr_faults.specs.declared.fault.FaultKind.TheVariants.{Limit};
ghost use Rattle.mdr_check.specs.declared.initialiser.First.{First};
ghost use Rattle.mdr_faults.specs.declared.scope.Object.{Object};
ghost use Rattle.mdr_headings.specs.Annotations.{annotated};
ghost use Rattle.mdr_faults.specs.Faults.{Checked, told, after, both, demand};
ghost use Rattle.mdr_faults.specs.Enums.{new_name};
ghost use Rattle.mdr_check.specs.Globals.{global_object, global_means, behind_global, first_value, variable_of, variable, global};
ghost use Rattle.mdr_headings.specs.Structs.{name_or_none};
ghost use Rattle.mdr_headings.specs.Within.{beside, within};

use crate::initialiser::{First, copied_object, initial};
use mdr_core::{Ann, Items, Name, OutOfMemory, Place};
use mdr_faults::{
    Entity, Fault, FaultKind, Object, Scope, both, declare, demanded, is_declared_name, new_name,
    object_declared,
};
use mdr_headings::{annotated, beside, declared_name, within};
use mdr_syntax::{Decl, Init};
use std::alloc::{AllocError, Global};

/// A global, before the numbers of types are known.
#[derive(Drop)]
pub struct Variable {
    pub name: Name,
    pub object: Object,
    pub ann: Ann,
    pub first: Items<First>,
}

fn global_object(
    alloc: Global,
    scope: &Scope,
    d: &Decl,
) -> Result<Result<Object, Fault>, AllocError>
    ensures { IfOk result (λ r. r ≡ told (global_object scope.now d.now)) }
{
    object_declared(alloc, scope, d.place, d)
}

fn global_means(own: u32, object: Result<Object, Fault>) -> Result<Entity, Fault>
    ensures { result ≡ global_means own object }
{
    match object {
        Ok(object) => Ok(Entity::Global(own, object)),
        Err(fault) => Err(fault),
    }
}

/// Declares a global's name.
#[tactic(auto, unfolding(crate::specs::Globals::behind_global))]
fn behind_global(alloc: Global, scope: &mut Scope, own: u32, d: &Decl) -> Result<(), AllocError>
    ensures { OnOk result (scope.new ≡ behind_global scope.old own d.now) }
{
    let name = declared_name(alloc, &d.name)?;
    let object = global_object(alloc, scope, d)?;
    declare(alloc, scope, &name, global_means(own, object))
}

fn zero_value(alloc: Global, o: &Object) -> Result<Items<First>, AllocError>
    ensures { IfOk result (λ xs. xs ≡ First.Zeros o.now ∷ []) }
{
    let mut all = Items::new(alloc);
    all.push(First::Zeros(copied_object(alloc, o)?))?;
    Ok(all)
}

#[tactic(auto, unfolding(crate::specs::Globals::first_value))]
fn first_value(
    alloc: Global,
    scope: &Scope,
    own: u32,
    place: Place,
    init: &Option<Init>,
    o: &Object,
) -> Result<Result<Items<First>, Fault>, AllocError>
    ensures { IfOk result (λ r. r ≡ told (first_value scope.now own place init.now o.now)) }
{
    match init {
        None => Ok(Ok(zero_value(alloc, o)?)),
        Some(init) => initial(alloc, scope, own, place, init, o),
    }
}

fn variable_of(
    name: Name,
    object: Object,
    ann: Result<Ann, Fault>,
    first: Result<Items<First>, Fault>,
) -> Result<Variable, Fault>
    ensures { (c : Checked Ann) (d : Checked (List First)) → ann ≡ told c → first ≡ told d → result ≡ told (both c d (variable_of name object)) }
{
    match both(ann, first) {
        Ok((ann, first)) => Ok(Variable {
            name,
            object,
            ann,
            first,
        }),
        Err(fault) => Err(fault),
    }
}

/// A global of this object.
#[tactic(auto, unfolding(crate::specs::Globals::variable))]
fn annotated_variable(
    alloc: Global,
    scope: &Scope,
    own: u32,
    d: &Decl,
    init: &Option<Init>,
    object: Object,
) -> Result<Result<Variable, Fault>, OutOfMemory>
    ensures { IfOk result (λ r. r ≡ told (variable scope.now own d.now init.now object)) }
{
    let ann = annotated(scope, &[], d.place, &object.ty, &d.ann)?;
    let first = first_value(alloc, scope, own, d.place, init, &object)?;
    let name = declared_name(alloc, &d.name)?;
    Ok(variable_of(name, object, ann, first))
}

fn variable_told(
    alloc: Global,
    scope: &Scope,
    own: u32,
    d: &Decl,
    init: &Option<Init>,
    object: Result<Object, Fault>,
) -> Result<Result<Variable, Fault>, OutOfMemory>
    ensures { (c : Checked Object) → object ≡ told c → IfOk result (λ r. r ≡ told (after c (variable scope.now own d.now init.now))) }
{
    match object {
        Ok(object) => annotated_variable(alloc, scope, own, d, init, object),
        Err(fault) => Ok(Err(fault)),
    }
}

/// A global among the names before it, and the scope behind it.
#[tactic(auto, unfolding(crate::specs::Globals::global))]
pub fn checked_global(
    alloc: Global,
    scope: &mut Scope,
    own: u32,
    d: &Decl,
    init: &Option<Init>,
) -> Result<Result<Variable, Fault>, OutOfMemory>
    ensures told { IfOk result (λ r. r ≡ told (global scope.old own d.now init.now)) }
    ensures grown { OnOk result (scope.new ≡ behind_global scope.old own d.now) }
{
    let name = declared_name(alloc, &d.name)?;
    let is_new = !is_declared_name(scope, name.as_slice());
    let dropped = within(alloc, scope, &[], d)?;
    let object = global_object(alloc, scope, d)?;
    behind_global(alloc, scope, own, d)?;
    let variable = variable_told(alloc, scope, own, d, init, object)?;
    let whole = beside(dropped, variable);
    let few = demanded(d.place, FaultKind::Limit, own != 1024, whole);
    Ok(demanded(d.place, FaultKind::Redefined, is_new, few))
}
