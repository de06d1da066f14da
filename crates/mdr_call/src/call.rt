// Calls (C99 6.5.2.2).

ghost use Rattle.std.specs.Prelude.{◌≡◌, IfOk, List};
ghost use Rattle.mdr_faults.specs.Faults.{Checked, told};
ghost use Rattle.mdr_call.specs.declared.parts.Argument.{Argument};
ghost use Rattle.mdr_call.specs.declared.parts.Target.{Target};
ghost use Rattle.mdr_call.specs.Services.{service_call};
ghost use Rattle.mdr_call.specs.Calls.{call_by, call_rule};

use crate::allocation::{kcalloc, kzalloc};
use crate::back::kcall;
use crate::function::function_call;
use crate::interrupt::request_irq;
use crate::parts::{Argument, Target, TypedCall};
use crate::plain::plain_service;
use crate::printing::printk;
use crate::service::Service;
use mdr_core::{Items, Place};
use mdr_faults::{Fault, Scope, both};
use std::alloc::{AllocError, Global};

#[tactic(auto, unfolding(crate::specs::Services::service_call))]
fn service_call(
    alloc: Global,
    scope: &Scope,
    place: Place,
    arguments: Items<Argument>,
    service: Service,
) -> Result<Result<TypedCall, Fault>, AllocError>
    ensures { IfOk result (λ r. r ≡ told (service_call scope.now place arguments service)) }
{
    match service {
        Service::Kzalloc => kzalloc(alloc, scope, place, arguments),
        Service::Kcalloc => kcalloc(alloc, scope, place, arguments),
        Service::Printk => printk(alloc, place, arguments),
        Service::RequestIrq => request_irq(alloc, place, arguments),
        Service::Kcall => kcall(alloc, place, arguments),
        Service::Plain(service) => plain_service(alloc, place, arguments, service),
    }
}

fn call_by(
    alloc: Global,
    scope: &Scope,
    place: Place,
    arguments: Items<Argument>,
    target: Target,
) -> Result<Result<TypedCall, Fault>, AllocError>
    ensures { IfOk result (λ r. r ≡ told (call_by scope.now place arguments target)) }
{
    match target {
        Target::Service(service) => service_call(alloc, scope, place, arguments, service),
        Target::Callee(x) => function_call(alloc, place, arguments, x),
    }
}

/// A call at this place, of what was found and with these arguments (C99 6.5.2.2).
#[tactic(auto, unfolding(crate::specs::Calls::call_rule))]
pub fn call_rule(
    alloc: Global,
    scope: &Scope,
    place: Place,
    target: Result<Target, Fault>,
    arguments: Result<Items<Argument>, Fault>,
) -> Result<Result<TypedCall, Fault>, AllocError>
    ensures { IfOk result (λ r. (t : Checked Target) (args : Checked (List Argument)) → target ≡ told t → arguments ≡ told args → r ≡ told (call_rule scope.now place t args)) }
{
    match both(target, arguments) {
        Ok((target, arguments)) => call_by(alloc, scope, place, arguments, target),
        Err(fault) => Ok(Err(fault)),
    }
}
