// Enumeration constants (C99 6.7.2.2), and how a scope grows.

ghost use Rattle.std.specs.Prelude.{◌≡◌, ◌+ℤ◌, pos, IfOk, OnOk};
ghost use Rattle.mdr_faults.specs.declared.scope.Constant.{Constant};
ghost use Rattle.mdr_faults.specs.Faults.{Checked, told, again, after};
ghost use Rattle.mdr_faults.specs.Declarations.{enumerated};
ghost use Rattle.mdr_faults.specs.Enums.{with_name, new_name, constant_means, value_behind, behind_enumerator, enumerators, behind_enumerators};

use crate::constants::{constant, enumerated};
use crate::fault::{Fault, FaultKind};
use crate::joining::{demanded, extended, mismatch};
use crate::scope::{Constant, Entity, Named, Scope, is_declared_name};
use crate::types::copied;
use mdr_core::{Items, Name, Place};
use mdr_syntax::Enumerator;
use std::alloc::{AllocError, Global};

/// Declares a name. Where memory is wanting, the scope is as before.
pub fn declare(
    alloc: Global,
    scope: &mut Scope,
    name: &Name,
    means: Result<Entity, Fault>,
) -> Result<(), AllocError>
    ensures { OnOk result (scope.new ≡ with_name scope.old name.now means) }
{
    let named = Named {
        name: copied(alloc, name.as_slice())?,
        means,
    };
    scope.names.push(alloc, named)?;
    Ok(())
}

/// A declaration of a name that the file may have already.
pub fn new_name<A: Drop>(
    scope: &Scope,
    place: Place,
    name: &Name,
    form: Result<A, Fault>,
) -> Result<A, Fault>
    ensures { (c : Checked A) → form ≡ told c → result ≡ told (new_name scope.now place name.now c) }
{
    demanded(
        place,
        FaultKind::Redefined,
        !is_declared_name(scope, name.as_slice()),
        form,
    )
}

fn constant_means(value: Result<Constant, Fault>) -> Result<Entity, Fault>
    ensures { result ≡ constant_means value }
{
    match value {
        Ok(c) => Ok(Entity::Constant(c)),
        Err(fault) => Err(fault),
    }
}

#[tactic(auto, unfolding(mdr_core::specs::Kinds::is_in_range))]
fn next_value(place: Place, before: Result<Constant, Fault>) -> Result<Constant, Fault>
    ensures { result ≡ told (after (again before) (λ c. enumerated place (c.number +ℤ pos 1))) }
{
    match before {
        Ok(c) => {
            if c.number > 4294967296 {
                return mismatch(place);
            }
            enumerated(place, c.number + 1)
        }
        Err(fault) => Err(fault),
    }
}

fn own_value(place: Place, value: Result<Constant, Fault>) -> Result<Constant, Fault>
    ensures { (c : Checked Constant) → value ≡ told c → result ≡ told (after c (λ c. enumerated place c.number)) }
{
    match value {
        Ok(c) => enumerated(place, c.number),
        Err(fault) => Err(fault),
    }
}

/// The value of an enumerator.
fn value_behind(
    scope: &Scope,
    before: Result<Constant, Fault>,
    e: &Enumerator,
) -> Result<Constant, Fault>
    ensures { result ≡ told (value_behind scope.now before e.now) }
{
    match &e.value {
        Some(c) => own_value(e.place, constant(scope, e.place, c)),
        None => next_value(e.place, before),
    }
}

/// The constants of an enumeration. Each is declared behind its value, whatever is wrong with it.
#[tactic(auto, using(crate::proofs::Gathered::followed_none), unfolding(crate::specs::Enums::enumerators))]
pub fn enumerators(
    alloc: Global,
    scope: &mut Scope,
    first: Result<Constant, Fault>,
    es: &[Enumerator],
) -> Result<Result<Items<Constant>, Fault>, AllocError>
    ensures told { IfOk result (λ r. r ≡ told (enumerators scope.old first es.now)) }
    ensures grown { OnOk result (scope.new ≡ behind_enumerators scope.old first es.now) }
{
    let mut all = Ok(Items::new(alloc));
    let mut before = first;
    for e in es {
        let value = value_behind(scope, before, e);
        let one = new_name(scope, e.place, &e.name, value);
        all = extended(all, one)?;
        declare(alloc, scope, &e.name, constant_means(value))?;
        before = value;
    }
    Ok(all)
}
