// Calls that are whole statements, lowered.

ghost use Rattle.std.specs.Prelude.{◌≡◌, map, IfOk, OnOk};
ghost use Rattle.mdr_rich.specs.Code.{term_list};
ghost use Rattle.mdr_rich.specs.Folds.{term_of, called_of};
ghost use Rattle.mdr_lower.specs.Apart.{parts_lowered};
ghost use Rattle.mdr_lower.specs.Lowering.{low_callee, call_lowered};

use crate::expressions::{low_args, low_part};
use crate::forms::{copied_format, copied_shape};
use crate::parts::are_active;
use crate::release::left_over;
use crate::work::Work;
use mdr_core as plain;
use mdr_core::Items;
use mdr_rich::{CallForm, Callee};
use std::alloc::{AllocError, Global};

fn low_callee(
    alloc: Global,
    number: u32,
    later: bool,
    callee: &Callee,
    work: &mut Work,
) -> Result<plain::Callee, AllocError>
    ensures told { IfOk result (λ c. c ≡ (low_callee number later (called_of callee.now) work.old).1) }
    ensures grown { OnOk result (work.new ≡ (low_callee number later (called_of callee.now) work.old).0) }
{
    match callee {
        Callee::Direct(f) => Ok(plain::Callee::Direct(*f)),
        Callee::Through(e) => {
            Ok(plain::Callee::Through(low_part(alloc, number, e, later, work)?))
        }
        Callee::Service(service) => Ok(plain::Callee::Service(*service)),
    }
}

fn low_parts(
    alloc: Global,
    number: u32,
    form: &CallForm,
    work: &mut Work,
) -> Result<(plain::Callee, Items<plain::Expr>), AllocError>
    ensures told { IfOk result (λ p. p ≡ (parts_lowered number (called_of form.now.callee) (term_list (map term_of form.now.args)) work.old).1) }
    ensures grown { OnOk result (work.new ≡ (parts_lowered number (called_of form.now.callee) (term_list (map term_of form.now.args)) work.old).0) }
{
    let later = are_active(form.args.as_slice());
    let callee = low_callee(alloc, number, later, &form.callee, work)?;
    match low_args(alloc, number, form.args.as_slice(), work) {
        Ok(args) => Ok((callee, args)),
        Err(error) => left_over(error, callee),
    }
}

/// A call.
pub fn lowered_call(
    alloc: Global,
    number: u32,
    form: &CallForm,
    work: &mut Work,
) -> Result<plain::CallForm, AllocError>
    ensures told { IfOk result (λ c. c ≡ (call_lowered number form.now work.old).1) }
    ensures grown { OnOk result (work.new ≡ (call_lowered number form.now work.old).0) }
{
    let shape = copied_shape(alloc, &form.shape)?;
    let format = copied_format(alloc, &form.format)?;
    let (callee, args) = low_parts(alloc, number, form, work)?;
    Ok(plain::CallForm {
        callee,
        args,
        shape,
        format,
    })
}
