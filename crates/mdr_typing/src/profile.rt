// The rules of the profile for what stands in statements (C99 6.5, 6.7.8, 6.8.3, 6.8.6.4).

ghost use Rattle.std.specs.Prelude.{◌≡◌, IfOk};
ghost use Rattle.mdr_faults.specs.Faults.{Checked, told, after};
ghost use Rattle.mdr_operand.specs.Written.{written_of};
ghost use Rattle.mdr_typing.specs.declared.source.Source.{Source};
ghost use Rattle.mdr_typing.specs.Sources.{source_stored, source_returned};
ghost use Rattle.mdr_typing.specs.Profile.{stored, returned};

use crate::assigning::{assigned, called};
use crate::source::{Source, right_side, source_returned, source_stored};
use mdr_assign::told_instead;
use mdr_body::{Assignment, Known, Placed, Typing};
use mdr_core::{OutOfMemory, Place, Ty};
use mdr_express::{expression, left_over};
use mdr_faults::Fault;
use mdr_operand::Operand;
use mdr_rich::{Lval, Step};
use mdr_syntax::Form;
use std::alloc::{AllocError, Global};

// ---- given to an object

fn stored_after(
    alloc: Global,
    place: Place,
    object: Lval,
    ty: &Ty,
    source: Result<Source, Fault>,
) -> Result<Result<Step, Fault>, AllocError>
    ensures { (c : Checked Source) → source ≡ told c → IfOk result (λ r. r ≡ told (after c (source_stored place object ty.now))) }
{
    match source {
        Ok(source) => source_stored(alloc, place, object, ty, source),
        Err(fault) => Ok(told_instead(fault, object)),
    }
}

fn stored_where(
    alloc: Global,
    place: Place,
    object: Lval,
    ty: &Ty,
    source: Result<Result<Source, Fault>, OutOfMemory>,
) -> Result<Result<Step, Fault>, OutOfMemory>
    ensures { (c : Checked Source) → IfOk source (λ s. s ≡ told c) → IfOk result (λ r. r ≡ told (after c (source_stored place object ty.now))) }
{
    match source {
        Ok(source) => Ok(stored_after(alloc, place, object, ty, source)?),
        Err(error) => left_over(error, object),
    }
}

#[tactic(auto, unfolding(crate::specs::Profile::stored))]
fn stored(
    alloc: Global,
    known: Known,
    object: Lval,
    ty: &Ty,
    value: Placed,
) -> Result<Result<Step, Fault>, OutOfMemory>
    ensures { IfOk result (λ r. r ≡ told (stored known.entry.scope.now known.entry.locals.now value.entry.place object ty.now (written_of value.entry.form.now))) }
{
    let found = right_side(alloc, known.scope, known.locals, value.form);
    stored_where(alloc, value.place, object, ty, found)
}

// ---- given to the caller

fn returned_after(
    alloc: Global,
    place: Place,
    ty: &Ty,
    source: Result<Source, Fault>,
) -> Result<Result<Step, Fault>, AllocError>
    ensures { (c : Checked Source) → source ≡ told c → IfOk result (λ r. r ≡ told (after c (source_returned place ty.now))) }
{
    match source {
        Ok(source) => source_returned(alloc, place, ty, source),
        Err(fault) => Ok(Err(fault)),
    }
}

#[tactic(auto, unfolding(crate::specs::Profile::returned))]
fn returned(
    alloc: Global,
    known: Known,
    ty: &Ty,
    value: Placed,
) -> Result<Result<Step, Fault>, OutOfMemory>
    ensures { IfOk result (λ r. r ≡ told (returned known.entry.scope.now known.entry.locals.now value.entry.place ty.now (written_of value.entry.form.now))) }
{
    let found = right_side(alloc, known.scope, known.locals, value.form)?;
    Ok(returned_after(alloc, value.place, ty, found)?)
}

// ---- the rules

/// The rules of the C that drivers are written in. It holds nothing.
#[derive(Clone, Copy)]
pub struct ProfileRules;

impl Typing for ProfileRules {
    ghost use Rattle.mdr_typing.specs.Profile.{profile_rules};

    ghost rules = { λ s. profile_rules };

    fn typed(
        &self,
        alloc: Global,
        known: Known,
        form: &Form,
    ) -> Result<Result<Operand, Fault>, OutOfMemory> {
        expression(alloc, known.scope, known.locals, form)
    }

    fn assigned(
        &self,
        alloc: Global,
        known: Known,
        assignment: Assignment,
    ) -> Result<Result<Step, Fault>, OutOfMemory> {
        assigned(alloc, known, assignment)
    }

    fn called(
        &self,
        alloc: Global,
        known: Known,
        form: &Form,
    ) -> Result<Result<Step, Fault>, OutOfMemory> {
        called(alloc, known.scope, known.locals, form)
    }

    fn stored(
        &self,
        alloc: Global,
        known: Known,
        object: Lval,
        ty: &Ty,
        value: Placed,
    ) -> Result<Result<Step, Fault>, OutOfMemory> {
        stored(alloc, known, object, ty, value)
    }

    fn returned(
        &self,
        alloc: Global,
        known: Known,
        ty: &Ty,
        value: Placed,
    ) -> Result<Result<Step, Fault>, OutOfMemory> {
        returned(alloc, known, ty, value)
    }
}
