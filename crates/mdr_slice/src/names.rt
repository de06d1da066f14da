// The functions whose names stand for their addresses.

ghost use Rattle.std.specs.Prelude.{◌≡◌, ◌++◌, OnOk};
ghost use Rattle.std.specs.Prelude.{IfOk, map};
ghost use Rattle.mdr_core.specs.Folds.{lvalue_of, term_of, called_of, call_of, goal_of, code_of, codes_of};
ghost use Rattle.mdr_slice.specs.Calls.{value_names, term_names, lvalue_names, all_term_names, called_names, call_names, goal_names, option_names};
ghost use Rattle.mdr_slice.specs.Calls.{code_names, all_code_names, body_code, body_names, values_names, global_names, names_of};
ghost use Rattle.std.specs.Option.{option_map};

use mdr_core::{CallForm, Callee, Expr, Func, GlobalDef, Lval, Program, Step, Stmt, Value};
use std::alloc::{AllocError, Global};

pub(crate) fn add_value(value: Value, out: &mut Vec<u32>) -> Result<(), AllocError>
    ensures { OnOk result (out.new.items ≡ out.old.items ++ value_names value) }
{
    match value {
        Value::Fn(func) => out.push(func)?,
        Value::Int(_, _)
        | Value::Null
        | Value::Ptr(_)
        | Value::Dead
        | Value::Lock(_)
        | Value::NoValue => {}
    }
    Ok(())
}

/// Adds the functions that an expression names.
#[cycle(terms)]
fn add_term(e: &Expr, out: &mut Vec<u32>) -> Result<(), AllocError>
    ensures { OnOk result (out.new.items ≡ out.old.items ++ term_names (term_of e.now)) }
{
    match e {
        Expr::Lit(value) => add_value(*value, out),
        Expr::Load(p) => add_lvalue(p, out),
        Expr::Addr(p) => add_lvalue(p, out),
        Expr::Decay(p) => add_lvalue(p, out),
        Expr::Neg(_, e) => add_term(e.get(), out),
        Expr::Flip(_, e) => add_term(e.get(), out),
        Expr::Not(e) => add_term(e.get(), out),
        Expr::Bin(_, _, a, b) => {
            add_term(a.get(), out)?;
            add_term(b.get(), out)
        }
        Expr::Rel(_, a, b) => {
            add_term(a.get(), out)?;
            add_term(b.get(), out)
        }
        Expr::And(a, b) => {
            add_term(a.get(), out)?;
            add_term(b.get(), out)
        }
        Expr::Or(a, b) => {
            add_term(a.get(), out)?;
            add_term(b.get(), out)
        }
        Expr::Conv(_, e) => add_term(e.get(), out),
        Expr::ToVoid(e) => add_term(e.get(), out),
        Expr::FromVoid(_, e) => add_term(e.get(), out),
        Expr::Move(_, p, i) => {
            add_term(p.get(), out)?;
            add_term(i.get(), out)
        }
        Expr::Diff(p, q) => {
            add_term(p.get(), out)?;
            add_term(q.get(), out)
        }
    }
}

/// Adds the functions that an lvalue names.
#[cycle(terms)]
fn add_lvalue(p: &Lval, out: &mut Vec<u32>) -> Result<(), AllocError>
    ensures { OnOk result (out.new.items ≡ out.old.items ++ lvalue_names (lvalue_of p.now)) }
{
    match p {
        Lval::Slot(_) => Ok(()),
        Lval::Object(_) => Ok(()),
        Lval::Global(_) => Ok(()),
        Lval::Deref(e) => add_term(e.get(), out),
        Lval::Member(p, _) => add_lvalue(p.get(), out),
        Lval::Index(p, e) => {
            add_lvalue(p.get(), out)?;
            add_term(e.get(), out)
        }
    }
}

/// Adds those that the expressions name.
fn add_terms(es: &[Expr], out: &mut Vec<u32>) -> Result<(), AllocError>
    ensures { OnOk result (out.new.items ≡ out.old.items ++ all_term_names (map term_of es.now)) }
{
    for e in es {
        add_term(e, out)?;
    }
    Ok(())
}

fn add_callee(callee: &Callee, out: &mut Vec<u32>) -> Result<(), AllocError>
    ensures { OnOk result (out.new.items ≡ out.old.items ++ called_names (called_of callee.now)) }
{
    match callee {
        Callee::Direct(_) => Ok(()),
        Callee::Through(e) => add_term(e, out),
        Callee::Service(_) => Ok(()),
    }
}

/// Adds those that a call names, but for the one that it calls by name.
fn add_call(form: &CallForm, out: &mut Vec<u32>) -> Result<(), AllocError>
    ensures { OnOk result (out.new.items ≡ out.old.items ++ call_names (call_of form.now)) }
{
    add_callee(&form.callee, out)?;
    add_terms(form.args.as_slice(), out)
}

fn add_goal(target: &Option<Lval>, out: &mut Vec<u32>) -> Result<(), AllocError>
    ensures { OnOk result (out.new.items ≡ out.old.items ++ goal_names (goal_of target.now)) }
{
    match target {
        None => Ok(()),
        Some(p) => add_lvalue(p, out),
    }
}

fn add_option(e: &Option<Expr>, out: &mut Vec<u32>) -> Result<(), AllocError>
    ensures { OnOk result (out.new.items ≡ out.old.items ++ option_names (option_map term_of e.now)) }
{
    match e {
        None => Ok(()),
        Some(e) => add_term(e, out),
    }
}

/// Adds those that a statement names, and the statements in it.
#[cycle(codes)]
fn add_code(statement: &Stmt, out: &mut Vec<u32>) -> Result<(), AllocError>
    ensures { OnOk result (out.new.items ≡ out.old.items ++ code_names (code_of statement.now)) }
{
    match &statement.step {
        Step::Assign(p, e) => {
            add_lvalue(p, out)?;
            add_term(e, out)?;
        }
        Step::Call(target, form) => {
            add_goal(target, out)?;
            add_call(form, out)?;
        }
        Step::If(e, one, other) => {
            add_term(e, out)?;
            add_codes(one.as_slice(), out)?;
            add_codes(other.as_slice(), out)?;
        }
        Step::While(e, body) => {
            add_term(e, out)?;
            add_codes(body.as_slice(), out)?;
        }
        Step::For(init, test, step, body) => {
            add_codes(init.as_slice(), out)?;
            add_option(test, out)?;
            add_codes(step.as_slice(), out)?;
            add_codes(body.as_slice(), out)?;
        }
        Step::Return(e) => add_option(e, out)?,
        Step::ReturnCall(form) => add_call(form, out)?,
        Step::Block(body) => add_codes(body.as_slice(), out)?,
        Step::Declare(_) | Step::Text(_, _) | Step::Break | Step::Continue | Step::Empty => {}
    }
    Ok(())
}

/// Adds those that statements name.
#[cycle(codes)]
fn add_codes(body: &[Stmt], out: &mut Vec<u32>) -> Result<(), AllocError>
    ensures { OnOk result (out.new.items ≡ out.old.items ++ all_code_names (codes_of body.now)) }
{
    for statement in body {
        add_code(statement, out)?;
    }
    Ok(())
}

fn add_body(func: &Func, out: &mut Vec<u32>) -> Result<(), AllocError>
    ensures { OnOk result (out.new.items ≡ out.old.items ++ all_code_names (body_code func.now.body)) }
{
    match &func.body {
        None => Ok(()),
        Some(body) => add_codes(body.as_slice(), out),
    }
}

#[tactic(auto, unfolding(crate::specs::Calls::body_names))]
fn add_bodies(funcs: &[Func], out: &mut Vec<u32>) -> Result<(), AllocError>
    ensures { OnOk result (out.new.items ≡ out.old.items ++ body_names funcs.now) }
{
    for func in funcs {
        add_body(func, out)?;
    }
    Ok(())
}

fn add_values(values: &[Value], out: &mut Vec<u32>) -> Result<(), AllocError>
    ensures { OnOk result (out.new.items ≡ out.old.items ++ values_names values.now) }
{
    for value in values {
        add_value(*value, out)?;
    }
    Ok(())
}

#[tactic(auto, unfolding(crate::specs::Calls::global_names))]
fn add_globals(defs: &[GlobalDef], out: &mut Vec<u32>) -> Result<(), AllocError>
    ensures { OnOk result (out.new.items ≡ out.old.items ++ global_names defs.now) }
{
    for def in defs {
        add_values(def.init.as_slice(), out)?;
    }
    Ok(())
}

/// The functions whose addresses are taken somewhere in a program, each as often as it is named.
pub fn names_of(alloc: Global, program: &Program) -> Result<Vec<u32>, AllocError>
    ensures { IfOk result (λ names. names.items ≡ names_of program.now) }
{
    let mut names = Vec::new(alloc);
    add_bodies(program.funcs.as_slice(), &mut names)?;
    add_globals(program.globals.as_slice(), &mut names)?;
    Ok(names)
}
