// Where a reply may come from, and which functions are of which half.

ghost use Rattle.std.specs.Prelude.{◌≡◌, is_some, option_copied, slice_get};
ghost use Rattle.mdr_meaning.specs.Bodies.{body_of};
ghost use Rattle.mdr_split.specs.Legal.{has_down_stub, has_statement, is_ask_place, is_kernel_half, is_object_service, is_user_place};
ghost use Rattle.mdr_watched.specs.Driver.{is_user};
ghost use Rattle.mdr_legal.specs.Waiting.{driver_at};

use crate::standing::Standing;
use crate::statements::stands;
use mdr_core::{At, Func, Half, Plan, Program};

pub(crate) fn func_at<'a>(program: &'a Program, func: u32) -> Option<&'a Func>
    ensures { option_copied result ≡ slice_get program.now.funcs func }
{
    program.funcs.as_slice().get(func as usize)
}

fn is_user(plan: &Plan, func: u32) -> bool
    ensures { result ≡ is_user plan.now func }
{
    match plan.halves.as_slice().get(func as usize) {
        Some(Half::User) => true,
        Some(Half::Kernel) => false,
        None => false,
    }
}

#[tactic(auto, unfolding(mdr_meaning::specs::Bodies::body_of))]
fn has_statement(program: &Program, at: At) -> bool
    ensures { result ≡ has_statement (body_of program.now at.func) at.stmt }
{
    match func_at(program, at.func) {
        Some(own) => match &own.body {
            Some(body) => stands(body.as_slice(), at.stmt),
            None => false,
        },
        None => false,
    }
}

#[tactic(auto, unfolding(mdr_meaning::specs::Bodies::body_of))]
fn has_body(program: &Program, func: u32) -> bool
    ensures { result ≡ is_some (body_of program.now func) }
{
    match func_at(program, func) {
        Some(own) => match &own.body {
            Some(_) => true,
            None => false,
        },
        None => false,
    }
}

/// Whether a place is a statement of a function of the user half.
pub(crate) fn is_user_place(standing: Standing, at: At) -> bool
    ensures { result ≡ is_user_place (driver_at standing.entry) at }
{
    is_user(standing.plan, at.func) && has_statement(standing.program, at)
}

/// Whether a function of the user half has a body.
fn is_user_half(standing: Standing, func: u32) -> bool
    ensures { result ≡ is_some ((driver_at standing.entry).user.own func) }
{
    is_user(standing.plan, func) && has_body(standing.program, func)
}

/// Whether a function of the kernel half has a body.
pub(crate) fn is_kernel_half(standing: Standing, func: u32) -> bool
    ensures { result ≡ is_kernel_half (driver_at standing.entry) func }
{
    !is_user(standing.plan, func) && has_body(standing.program, func)
}

fn is_object_service(service: u32) -> bool
    ensures { result ≡ is_object_service service }
{
    service == 13 || service == 14
}

/// Whether a service may be asked for from a place. Objects of locals are born and die at statement 0 of their function too.
#[tactic(auto, unfolding(mdr_split::specs::Legal::is_ask_place))]
pub(crate) fn is_ask_place(standing: Standing, service: u32, at: At) -> bool
    ensures { result ≡ is_ask_place (driver_at standing.entry) service at }
{
    is_user_place(standing, at)
        || (is_object_service(service) && (at.stmt == 0 && is_user_half(standing, at.func)))
}

/// Whether user code may call a function.
pub(crate) fn has_down_stub(standing: Standing, func: u32) -> bool
    ensures { result ≡ has_down_stub (driver_at standing.entry) func }
{
    match standing.plan.down.as_slice().get(func as usize) {
        Some(has) => *has && is_kernel_half(standing, func),
        None => false,
    }
}
