// The fields whose addresses are taken.

ghost use Rattle.std.specs.Prelude.{◌≡◌, ◌++◌, map, IfOk, OnOk};
ghost use Rattle.std.specs.Option.{option_copied, option_map};
ghost use Rattle.mdr_core.specs.Folds.{call_of, called_of, code_of, codes_of, goal_of, lvalue_of, term_of};
ghost use Rattle.mdr_core.specs.Typing.{slots_of};
ghost use Rattle.mdr_slice.specs.Calls.{body_code};
ghost use Rattle.mdr_access.specs.Exposed.{field_key, named_field, term_fields, lvalue_fields, all_term_fields, called_fields, call_fields};
ghost use Rattle.mdr_access.specs.Exposed.{goal_fields, option_fields, code_fields, all_code_fields, funcs_fields, exposed_fields};

use mdr_core::{CallForm, Callee, Expr, Func, Key, Lval, Program, Step, Stmt, Ty};
use mdr_slice::named_type;
use std::alloc::{AllocError, Global};

/// Adds a field of what has this type.
fn add_field(whole: Option<&Ty>, field: u32, out: &mut Vec<Key>) -> Result<(), AllocError>
    ensures { OnOk result (out.new.items ≡ out.old.items ++ field_key (option_copied whole.entry) field) }
{
    match whole {
        Some(Ty::Struct(s)) => out.push(Key::Field(*s, field))?,
        _ => {}
    }
    Ok(())
}

/// Adds the field that an lvalue names, itself or an element of it.
fn add_named(program: &Program, own: &Func, p: &Lval, out: &mut Vec<Key>) -> Result<(), AllocError>
    ensures { OnOk result (out.new.items ≡ out.old.items ++ named_field program.now (slots_of own.now) (lvalue_of p.now)) }
{
    match p {
        Lval::Slot(_) => Ok(()),
        Lval::Object(_) => Ok(()),
        Lval::Global(_) => Ok(()),
        Lval::Deref(_) => Ok(()),
        Lval::Member(p, field) => {
            let whole = named_type(program, own, p.get());
            add_field(whole, *field, out)
        }
        Lval::Index(p, _) => add_named(program, own, p.get(), out),
    }
}

/// Adds the fields that an expression exposes.
#[cycle(terms)]
fn add_term(program: &Program, own: &Func, e: &Expr, out: &mut Vec<Key>) -> Result<(), AllocError>
    ensures { OnOk result (out.new.items ≡ out.old.items ++ term_fields program.now (slots_of own.now) (term_of e.now)) }
{
    match e {
        Expr::Lit(_) => Ok(()),
        Expr::Load(p) => add_lvalue(program, own, p, out),
        Expr::Addr(p) => {
            add_named(program, own, p, out)?;
            add_lvalue(program, own, p, out)
        }
        Expr::Decay(p) => {
            add_named(program, own, p, out)?;
            add_lvalue(program, own, p, out)
        }
        Expr::Neg(_, e) => add_term(program, own, e.get(), out),
        Expr::Flip(_, e) => add_term(program, own, e.get(), out),
        Expr::Not(e) => add_term(program, own, e.get(), out),
        Expr::Bin(_, _, a, b) => {
            add_term(program, own, a.get(), out)?;
            add_term(program, own, b.get(), out)
        }
        Expr::Rel(_, a, b) => {
            add_term(program, own, a.get(), out)?;
            add_term(program, own, b.get(), out)
        }
        Expr::And(a, b) => {
            add_term(program, own, a.get(), out)?;
            add_term(program, own, b.get(), out)
        }
        Expr::Or(a, b) => {
            add_term(program, own, a.get(), out)?;
            add_term(program, own, b.get(), out)
        }
        Expr::Conv(_, e) => add_term(program, own, e.get(), out),
        Expr::ToVoid(e) => add_term(program, own, e.get(), out),
        Expr::FromVoid(_, e) => add_term(program, own, e.get(), out),
        Expr::Move(_, p, i) => {
            add_term(program, own, p.get(), out)?;
            add_term(program, own, i.get(), out)
        }
        Expr::Diff(p, q) => {
            add_term(program, own, p.get(), out)?;
            add_term(program, own, q.get(), out)
        }
    }
}

/// Adds the fields that finding an lvalue's place exposes.
#[cycle(terms)]
fn add_lvalue(program: &Program, own: &Func, p: &Lval, out: &mut Vec<Key>) -> Result<(), AllocError>
    ensures { OnOk result (out.new.items ≡ out.old.items ++ lvalue_fields program.now (slots_of own.now) (lvalue_of p.now)) }
{
    match p {
        Lval::Slot(_) => Ok(()),
        Lval::Object(_) => Ok(()),
        Lval::Global(_) => Ok(()),
        Lval::Deref(e) => add_term(program, own, e.get(), out),
        Lval::Member(p, _) => add_lvalue(program, own, p.get(), out),
        Lval::Index(p, e) => {
            add_lvalue(program, own, p.get(), out)?;
            add_term(program, own, e.get(), out)
        }
    }
}

/// Adds those that the expressions name.
fn add_terms(
    program: &Program,
    own: &Func,
    es: &[Expr],
    out: &mut Vec<Key>,
) -> Result<(), AllocError>
    ensures { OnOk result (out.new.items ≡ out.old.items ++ all_term_fields program.now (slots_of own.now) (map term_of es.now)) }
{
    for e in es {
        add_term(program, own, e, out)?;
    }
    Ok(())
}

fn add_callee(
    program: &Program,
    own: &Func,
    callee: &Callee,
    out: &mut Vec<Key>,
) -> Result<(), AllocError>
    ensures { OnOk result (out.new.items ≡ out.old.items ++ called_fields program.now (slots_of own.now) (called_of callee.now)) }
{
    match callee {
        Callee::Direct(_) => Ok(()),
        Callee::Through(e) => add_term(program, own, e, out),
        Callee::Service(_) => Ok(()),
    }
}

/// Adds those that a call names, but for the one that it calls by name.
fn add_call(
    program: &Program,
    own: &Func,
    form: &CallForm,
    out: &mut Vec<Key>,
) -> Result<(), AllocError>
    ensures { OnOk result (out.new.items ≡ out.old.items ++ call_fields program.now (slots_of own.now) (call_of form.now)) }
{
    add_callee(program, own, &form.callee, out)?;
    add_terms(program, own, form.args.as_slice(), out)
}

fn add_goal(
    program: &Program,
    own: &Func,
    target: &Option<Lval>,
    out: &mut Vec<Key>,
) -> Result<(), AllocError>
    ensures { OnOk result (out.new.items ≡ out.old.items ++ goal_fields program.now (slots_of own.now) (goal_of target.now)) }
{
    match target {
        None => Ok(()),
        Some(p) => add_lvalue(program, own, p, out),
    }
}

fn add_option(
    program: &Program,
    own: &Func,
    e: &Option<Expr>,
    out: &mut Vec<Key>,
) -> Result<(), AllocError>
    ensures { OnOk result (out.new.items ≡ out.old.items ++ option_fields program.now (slots_of own.now) (option_map term_of e.now)) }
{
    match e {
        None => Ok(()),
        Some(e) => add_term(program, own, e, out),
    }
}

/// Adds those that a statement names, and the statements in it.
#[cycle(codes)]
fn add_code(
    program: &Program,
    own: &Func,
    statement: &Stmt,
    out: &mut Vec<Key>,
) -> Result<(), AllocError>
    ensures { OnOk result (out.new.items ≡ out.old.items ++ code_fields program.now (slots_of own.now) (code_of statement.now)) }
{
    match &statement.step {
        Step::Assign(p, e) => {
            add_lvalue(program, own, p, out)?;
            add_term(program, own, e, out)?;
        }
        Step::Call(target, form) => {
            add_goal(program, own, target, out)?;
            add_call(program, own, form, out)?;
        }
        Step::If(e, one, other) => {
            add_term(program, own, e, out)?;
            add_codes(program, own, one.as_slice(), out)?;
            add_codes(program, own, other.as_slice(), out)?;
        }
        Step::While(e, body) => {
            add_term(program, own, e, out)?;
            add_codes(program, own, body.as_slice(), out)?;
        }
        Step::For(init, test, step, body) => {
            add_codes(program, own, init.as_slice(), out)?;
            add_option(program, own, test, out)?;
            add_codes(program, own, step.as_slice(), out)?;
            add_codes(program, own, body.as_slice(), out)?;
        }
        Step::Return(e) => add_option(program, own, e, out)?,
        Step::ReturnCall(form) => add_call(program, own, form, out)?,
        Step::Block(body) => add_codes(program, own, body.as_slice(), out)?,
        Step::Declare(_) | Step::Text(_, _) | Step::Break | Step::Continue | Step::Empty => {}
    }
    Ok(())
}

/// Adds those that statements name.
#[cycle(codes)]
fn add_codes(
    program: &Program,
    own: &Func,
    body: &[Stmt],
    out: &mut Vec<Key>,
) -> Result<(), AllocError>
    ensures { OnOk result (out.new.items ≡ out.old.items ++ all_code_fields program.now (slots_of own.now) (codes_of body.now)) }
{
    for statement in body {
        add_code(program, own, statement, out)?;
    }
    Ok(())
}

fn add_body(program: &Program, own: &Func, out: &mut Vec<Key>) -> Result<(), AllocError>
    ensures { OnOk result (out.new.items ≡ out.old.items ++ all_code_fields program.now (slots_of own.now) (body_code own.now.body)) }
{
    match &own.body {
        None => Ok(()),
        Some(body) => add_codes(program, own, body.as_slice(), out),
    }
}

#[tactic(auto, unfolding(crate::specs::Exposed::funcs_fields))]
fn add_bodies(program: &Program, funcs: &[Func], out: &mut Vec<Key>) -> Result<(), AllocError>
    ensures { OnOk result (out.new.items ≡ out.old.items ++ funcs_fields program.now funcs.now) }
{
    for func in funcs {
        add_body(program, func, out)?;
    }
    Ok(())
}

/// The exposed fields of a program, each as often as it is.
pub(crate) fn exposed_fields(alloc: Global, program: &Program) -> Result<Vec<Key>, AllocError>
    ensures { IfOk result (λ fields. fields.items ≡ exposed_fields program.now) }
{
    let mut fields = Vec::new(alloc);
    add_bodies(program, program.funcs.as_slice(), &mut fields)?;
    Ok(fields)
}
