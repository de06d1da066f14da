// The rules of what stands in statements: expressions, assignments and calls (C99 6.5).

use crate::here::{Assignment, Known, Placed};
use mdr_core::{OutOfMemory, Ty};
use mdr_faults::Fault;
use mdr_operand::Operand;
use mdr_rich::{Lval, Step};
use mdr_syntax::Form;
use std::alloc::Global;

/// The rules of expressions, assignments and calls.
pub trait Typing {
    ghost use Rattle.std.specs.Prelude.{◌≡◌, IfOk};
    ghost use Rattle.mdr_faults.specs.Faults.{told};
    ghost use Rattle.mdr_operand.specs.Written.{written_of};
    ghost use Rattle.mdr_body.specs.Statements.{Rules};
    ghost use Rattle.mdr_body.specs.Pieces.{assigned_by};

    ghost rules: { Self → Rules };

    /// What an expression comes to.
    fn typed(
        &self,
        alloc: Global,
        known: Known,
        form: &Form,
    ) -> Result<Result<Operand, Fault>, OutOfMemory>
        ensures { IfOk result (λ r. r ≡ told ((rules self.now).typed known.entry.scope.now known.entry.locals.now (written_of form.now))) };

    /// An assignment.
    fn assigned(
        &self,
        alloc: Global,
        known: Known,
        assignment: Assignment,
    ) -> Result<Result<Step, Fault>, OutOfMemory>
        ensures { IfOk result (λ r. r ≡ told (assigned_by (rules self.now) known.entry.scope.now known.entry.locals.now assignment.entry)) };

    /// A statement that is a call.
    fn called(
        &self,
        alloc: Global,
        known: Known,
        form: &Form,
    ) -> Result<Result<Step, Fault>, OutOfMemory>
        ensures { IfOk result (λ r. r ≡ told ((rules self.now).called known.entry.scope.now known.entry.locals.now (written_of form.now))) };

    /// A value or a call's result, given to an object of this type as if by assignment.
    fn stored(
        &self,
        alloc: Global,
        known: Known,
        object: Lval,
        ty: &Ty,
        value: Placed,
    ) -> Result<Result<Step, Fault>, OutOfMemory>
        ensures { IfOk result (λ r. r ≡ told ((rules self.now).stored known.entry.scope.now known.entry.locals.now value.entry.place object ty.now (written_of value.entry.form.now))) };

    /// The same, given to the caller of a function that gives this type.
    fn returned(
        &self,
        alloc: Global,
        known: Known,
        ty: &Ty,
        value: Placed,
    ) -> Result<Result<Step, Fault>, OutOfMemory>
        ensures { IfOk result (λ r. r ≡ told ((rules self.now).returned known.entry.scope.now known.entry.locals.now value.entry.place ty.now (written_of value.entry.form.now))) };
}
