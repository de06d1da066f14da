// The calls of a body.

ghost use Rattle.std.specs.Prelude.{◌≡◌, ◌++◌, map, OnOk, IfOk};
ghost use Rattle.mdr_core.specs.declared.code.CallForm.{CallForm as AnyCall};
ghost use Rattle.mdr_core.specs.Folds.{call_of, code_of, codes_of};
ghost use Rattle.mdr_slice.specs.Calls.{calls, all_calls, body_code};

use mdr_core::{CallForm, Func, Step, Stmt};
use std::alloc::{AllocError, Global};

/// Adds the calls of a statement, and of those in it.
#[cycle(calls)]
fn add_calls<'a>(statement: &'a Stmt, out: &mut Vec<&'a CallForm>) -> Result<(), AllocError>
    ensures { OnOk result (map (λ r. call_of r.now) out.new.items ≡ map (λ r. call_of r.now) out.old.items ++ calls (code_of statement.now)) }
{
    match &statement.step {
        Step::Call(_, form) => out.push(form)?,
        Step::ReturnCall(form) => out.push(form)?,
        Step::If(_, one, other) => {
            add_all_calls(one.as_slice(), out)?;
            add_all_calls(other.as_slice(), out)?;
        }
        Step::While(_, body) => add_all_calls(body.as_slice(), out)?,
        Step::Block(body) => add_all_calls(body.as_slice(), out)?,
        Step::For(init, _, step, body) => {
            add_all_calls(init.as_slice(), out)?;
            add_all_calls(step.as_slice(), out)?;
            add_all_calls(body.as_slice(), out)?;
        }
        Step::Declare(_)
        | Step::Text(_, _)
        | Step::Assign(_, _)
        | Step::Return(_)
        | Step::Break
        | Step::Continue
        | Step::Empty => {}
    }
    Ok(())
}

/// Adds the calls of statements.
#[cycle(calls)]
fn add_all_calls<'a>(body: &'a [Stmt], out: &mut Vec<&'a CallForm>) -> Result<(), AllocError>
    ensures { OnOk result (map (λ r. call_of r.now) out.new.items ≡ map (λ r. call_of r.now) out.old.items ++ all_calls (codes_of body.now)) }
{
    for statement in body {
        add_calls(statement, out)?;
    }
    Ok(())
}

/// The calls of a function's body.
pub fn calls_of(alloc: Global, func: &Func) -> Result<Vec<&CallForm>, AllocError>
    ensures { IfOk result (λ calls. map (λ r. call_of r.now) calls.items ≡ all_calls (body_code func.now.body)) }
{
    let mut calls = Vec::new(alloc);
    if let Some(body) = &func.body {
        add_all_calls(body.as_slice(), &mut calls)?;
    }
    Ok(calls)
}
