// The functions that `request_irq` is given.

ghost use Rattle.std.specs.Prelude.{◌≡◌, ◌==◌, ◌++◌, [], map, IfOk, OnOk};
ghost use Rattle.mdr_core.specs.Layout.{chosen};
ghost use Rattle.mdr_core.specs.declared.code.CallForm.{CallForm as AnyCall};
ghost use Rattle.mdr_core.specs.Folds.{call_of, term_of};
ghost use Rattle.mdr_slice.specs.Calls.{literal_names, handler_names, handlers_by, call_handlers, func_handlers, handlers_of, all_calls, body_code};

use crate::calls::calls_of;
use crate::names::add_value;
use mdr_core::{CallForm, Callee, Expr, Func, Program};
use std::alloc::{AllocError, Global};

/// The service that makes a function the handler of interrupts.
const REQUEST_IRQ: u32 = 7;

fn add_literal(e: &Expr, out: &mut Vec<u32>) -> Result<(), AllocError>
    ensures { OnOk result (out.new.items ≡ out.old.items ++ literal_names (term_of e.now)) }
{
    match e {
        Expr::Lit(value) => add_value(*value, out),
        Expr::Load(_)
        | Expr::Addr(_)
        | Expr::Decay(_)
        | Expr::Neg(_, _)
        | Expr::Flip(_, _)
        | Expr::Not(_)
        | Expr::Bin(_, _, _, _)
        | Expr::Rel(_, _, _)
        | Expr::And(_, _)
        | Expr::Or(_, _)
        | Expr::Conv(_, _)
        | Expr::ToVoid(_)
        | Expr::FromVoid(_, _)
        | Expr::Move(_, _, _)
        | Expr::Diff(_, _) => Ok(()),
    }
}

fn add_argument(args: &[Expr], out: &mut Vec<u32>) -> Result<(), AllocError>
    ensures { OnOk result (out.new.items ≡ out.old.items ++ handler_names (map term_of args.now)) }
{
    match args {
        [] => Ok(()),
        [e] => add_literal(e, out),
        [_, _, ..] => Ok(()),
    }
}

fn add_service(service: u32, args: &[Expr], out: &mut Vec<u32>) -> Result<(), AllocError>
    ensures { OnOk result (out.new.items ≡ out.old.items ++ chosen (service == 7) (handler_names (map term_of args.now)) []) }
{
    if service == REQUEST_IRQ {
        return add_argument(args, out);
    }
    Ok(())
}

fn add_handler(call: &CallForm, out: &mut Vec<u32>) -> Result<(), AllocError>
    ensures { OnOk result (out.new.items ≡ out.old.items ++ handlers_by (call_of call.now).callee (call_of call.now).args) }
{
    match &call.callee {
        Callee::Direct(_) => Ok(()),
        Callee::Through(_) => Ok(()),
        Callee::Service(service) => add_service(*service, call.args.as_slice(), out),
    }
}

fn add_handlers(calls: &[&CallForm], out: &mut Vec<u32>) -> Result<(), AllocError>
    ensures { OnOk result (out.new.items ≡ out.old.items ++ call_handlers (map (λ r. call_of r.now) calls.now)) }
{
    for call in calls {
        add_handler(call, out)?;
    }
    Ok(())
}

fn add_body_handlers(alloc: Global, func: &Func, out: &mut Vec<u32>) -> Result<(), AllocError>
    ensures { OnOk result (out.new.items ≡ out.old.items ++ call_handlers (all_calls (body_code func.now.body))) }
{
    let calls = calls_of(alloc, func)?;
    add_handlers(calls.as_slice(), out)?;
    Ok(())
}

/// The functions that are given to `request_irq`, each as often as it is.
#[tactic(auto, unfolding(crate::specs::Calls::func_handlers))]
pub(crate) fn handlers_of(alloc: Global, program: &Program) -> Result<Vec<u32>, AllocError>
    ensures { IfOk result (λ names. names.items ≡ handlers_of program.now) }
{
    let mut names = Vec::new(alloc);
    for func in program.funcs.as_slice() {
        add_body_handlers(alloc, func, &mut names)?;
    }
    Ok(names)
}
