// The access forms of code.

ghost use Rattle.std.specs.Prelude.{◌≡◌, ◌==◌, ◌++◌, ◌∷◌, [], map, IfOk, OnOk, slice_get};
ghost use Rattle.std.specs.Option.{option_copied, option_map};
ghost use Rattle.mdr_core.specs.Folds.{called_of, call_of, code_of, codes_of, goal_of, lvalue_of, term_of};
ghost use Rattle.mdr_core.specs.Layout.{chosen};
ghost use Rattle.mdr_core.specs.Types.{is_scalar};
ghost use Rattle.mdr_core.specs.declared.kind.Kind.TheVariants.{U8};
ghost use Rattle.mdr_core.specs.declared.types.Ty.TheVariants.{Int};
ghost use Rattle.mdr_core.specs.Typing.{slots_of};
ghost use Rattle.mdr_slice.specs.Calls.{body_code};
ghost use Rattle.mdr_slice.specs.Pointed.{slot_type};
ghost use Rattle.mdr_access.specs.Exposed.{field_key};
ghost use Rattle.mdr_access.specs.Forms.{Follow, Whole, touches, wholes, follows, named_cells, term_forms, place_forms, all_term_forms, stored_forms};
ghost use Rattle.mdr_access.specs.Forms.{called_forms, call_forms, goal_forms, option_forms, is_object, declared_forms, code_forms, all_code_forms, param_forms, func_forms};
ghost use Rattle.mdr_access.specs.Told.{form_of};

use mdr_core::{CallForm, Callee, Expr, Func, Key, Lval, Param, Program, Step, Stmt, Ty};
use mdr_slice::{named_type, pointed_type, slot_type};
use std::alloc::{AllocError, Global};

/// The service that reads bytes through a pointer.
const DELIVER: u32 = 9;

/// An access form: cells with a key, what a pointer to scalars of a type may point to, the same of bytes, and all cells of an
/// object of a type.
#[derive(Clone, Copy)]
pub(crate) enum Form<'a> {
    Touch(Key),
    Follow(&'a Ty),
    Bytes,
    Whole(&'a Ty),
}

fn is_scalar(ty: &Ty) -> bool
    ensures { result ≡ is_scalar ty.now }
{
    match ty {
        Ty::Int(_) | Ty::Ptr(_) | Ty::VoidPtr | Ty::Fun(_) => true,
        Ty::Lock | Ty::Struct(_) | Ty::Void => false,
    }
}

fn add_scalar<'a>(ty: &'a Ty, out: &mut Vec<Form<'a>>) -> Result<(), AllocError>
    ensures { OnOk result (map form_of out.new.items ≡ map form_of out.old.items ++ chosen (is_scalar ty.now) (Follow ty.now ∷ []) []) }
{
    if is_scalar(ty) {
        out.push(Form::Follow(ty))?;
    }
    Ok(())
}

/// What a pointer to this type may point to.
fn add_target<'a>(ty: Option<&'a Ty>, out: &mut Vec<Form<'a>>) -> Result<(), AllocError>
    ensures { OnOk result (map form_of out.new.items ≡ map form_of out.old.items ++ follows (option_copied ty.entry)) }
{
    match ty {
        Some(ty) => add_scalar(ty, out),
        None => Ok(()),
    }
}

/// All cells of an object of this type.
fn add_whole<'a>(ty: Option<&'a Ty>, out: &mut Vec<Form<'a>>) -> Result<(), AllocError>
    ensures { OnOk result (map form_of out.new.items ≡ map form_of out.old.items ++ wholes (option_copied ty.entry)) }
{
    match ty {
        Some(ty) => out.push(Form::Whole(ty))?,
        None => {}
    }
    Ok(())
}

/// A field of what has this type.
fn add_field<'a>(
    whole: Option<&'a Ty>,
    field: u32,
    out: &mut Vec<Form<'a>>,
) -> Result<(), AllocError>
    ensures { OnOk result (map form_of out.new.items ≡ map form_of out.old.items ++ touches (field_key (option_copied whole.entry) field)) }
{
    match whole {
        Some(Ty::Struct(s)) => out.push(Form::Touch(Key::Field(*s, field)))?,
        _ => {}
    }
    Ok(())
}

/// The cells that an lvalue names.
fn add_named<'a>(
    program: &'a Program,
    own: &'a Func,
    p: &'a Lval,
    out: &mut Vec<Form<'a>>,
) -> Result<(), AllocError>
    ensures { OnOk result (map form_of out.new.items ≡ map form_of out.old.items ++ named_cells program.now (slots_of own.now) (lvalue_of p.now)) }
{
    match p {
        Lval::Slot(_) => Ok(()),
        Lval::Object(slot) => {
            let ty = slot_type(own, *slot);
            add_whole(ty, out)
        }
        Lval::Global(global) => {
            out.push(Form::Touch(Key::Global(*global)))?;
            Ok(())
        }
        Lval::Deref(e) => {
            let ty = pointed_type(program, own, e.get());
            add_target(ty, out)
        }
        Lval::Member(p, field) => {
            let whole = named_type(program, own, p.get());
            add_field(whole, *field, out)
        }
        Lval::Index(p, _) => add_named(program, own, p.get(), out),
    }
}

/// What an expression reads.
#[cycle(reads)]
fn add_term<'a>(
    program: &'a Program,
    own: &'a Func,
    e: &'a Expr,
    out: &mut Vec<Form<'a>>,
) -> Result<(), AllocError>
    ensures { OnOk result (map form_of out.new.items ≡ map form_of out.old.items ++ term_forms program.now (slots_of own.now) (term_of e.now)) }
{
    match e {
        Expr::Lit(_) => Ok(()),
        Expr::Load(p) => {
            add_place(program, own, p, out)?;
            add_named(program, own, p, out)
        }
        Expr::Addr(p) => add_place(program, own, p, out),
        Expr::Decay(p) => add_place(program, own, p, out),
        Expr::Neg(_, e) => add_term(program, own, e.get(), out),
        Expr::Flip(_, e) => add_term(program, own, e.get(), out),
        Expr::Not(e) => add_term(program, own, e.get(), out),
        Expr::Bin(_, _, a, b) => {
            add_term(program, own, a.get(), out)?;
            add_term(program, own, b.get(), out)
        }
        Expr::Rel(_, a, b) => {
            add_term(program, own, a.get(), out)?;
            add_term(program, own, b.get(), out)
        }
        Expr::And(a, b) => {
            add_term(program, own, a.get(), out)?;
            add_term(program, own, b.get(), out)
        }
        Expr::Or(a, b) => {
            add_term(program, own, a.get(), out)?;
            add_term(program, own, b.get(), out)
        }
        Expr::Conv(_, e) => add_term(program, own, e.get(), out),
        Expr::ToVoid(e) => add_term(program, own, e.get(), out),
        Expr::FromVoid(_, e) => add_term(program, own, e.get(), out),
        Expr::Move(_, p, i) => {
            add_term(program, own, p.get(), out)?;
            add_term(program, own, i.get(), out)
        }
        Expr::Diff(p, q) => {
            add_term(program, own, p.get(), out)?;
            add_term(program, own, q.get(), out)
        }
    }
}

/// What is read to find the place that an lvalue names.
#[cycle(reads)]
fn add_place<'a>(
    program: &'a Program,
    own: &'a Func,
    p: &'a Lval,
    out: &mut Vec<Form<'a>>,
) -> Result<(), AllocError>
    ensures { OnOk result (map form_of out.new.items ≡ map form_of out.old.items ++ place_forms program.now (slots_of own.now) (lvalue_of p.now)) }
{
    match p {
        Lval::Slot(_) => Ok(()),
        Lval::Object(_) => Ok(()),
        Lval::Global(_) => Ok(()),
        Lval::Deref(e) => add_term(program, own, e.get(), out),
        Lval::Member(p, _) => add_place(program, own, p.get(), out),
        Lval::Index(p, e) => {
            add_place(program, own, p.get(), out)?;
            add_term(program, own, e.get(), out)
        }
    }
}

fn add_terms<'a>(
    program: &'a Program,
    own: &'a Func,
    es: &'a [Expr],
    out: &mut Vec<Form<'a>>,
) -> Result<(), AllocError>
    ensures { OnOk result (map form_of out.new.items ≡ map form_of out.old.items ++ all_term_forms program.now (slots_of own.now) (map term_of es.now)) }
{
    for e in es {
        add_term(program, own, e, out)?;
    }
    Ok(())
}

/// A write to what an lvalue names.
fn add_stored<'a>(
    program: &'a Program,
    own: &'a Func,
    p: &'a Lval,
    out: &mut Vec<Form<'a>>,
) -> Result<(), AllocError>
    ensures { OnOk result (map form_of out.new.items ≡ map form_of out.old.items ++ stored_forms program.now (slots_of own.now) (lvalue_of p.now)) }
{
    add_place(program, own, p, out)?;
    add_named(program, own, p, out)
}

fn add_service<'a>(service: u32, out: &mut Vec<Form<'a>>) -> Result<(), AllocError>
    ensures { OnOk result (map form_of out.new.items ≡ map form_of out.old.items ++ chosen (service == 9) (Follow (Int U8) ∷ []) []) }
{
    if service == DELIVER {
        out.push(Form::Bytes)?;
    }
    Ok(())
}

fn add_callee<'a>(
    program: &'a Program,
    own: &'a Func,
    callee: &'a Callee,
    out: &mut Vec<Form<'a>>,
) -> Result<(), AllocError>
    ensures { OnOk result (map form_of out.new.items ≡ map form_of out.old.items ++ called_forms program.now (slots_of own.now) (called_of callee.now)) }
{
    match callee {
        Callee::Direct(_) => Ok(()),
        Callee::Through(e) => add_term(program, own, e, out),
        Callee::Service(service) => add_service(*service, out),
    }
}

fn add_call<'a>(
    program: &'a Program,
    own: &'a Func,
    form: &'a CallForm,
    out: &mut Vec<Form<'a>>,
) -> Result<(), AllocError>
    ensures { OnOk result (map form_of out.new.items ≡ map form_of out.old.items ++ call_forms program.now (slots_of own.now) (call_of form.now)) }
{
    add_callee(program, own, &form.callee, out)?;
    add_terms(program, own, form.args.as_slice(), out)
}

fn add_goal<'a>(
    program: &'a Program,
    own: &'a Func,
    target: &'a Option<Lval>,
    out: &mut Vec<Form<'a>>,
) -> Result<(), AllocError>
    ensures { OnOk result (map form_of out.new.items ≡ map form_of out.old.items ++ goal_forms program.now (slots_of own.now) (goal_of target.now)) }
{
    match target {
        None => Ok(()),
        Some(p) => add_stored(program, own, p, out),
    }
}

fn add_option<'a>(
    program: &'a Program,
    own: &'a Func,
    e: &'a Option<Expr>,
    out: &mut Vec<Form<'a>>,
) -> Result<(), AllocError>
    ensures { OnOk result (map form_of out.new.items ≡ map form_of out.old.items ++ option_forms program.now (slots_of own.now) (option_map term_of e.now)) }
{
    match e {
        None => Ok(()),
        Some(e) => add_term(program, own, e, out),
    }
}

/// The birth of a local, where it is an object.
fn add_declared<'a>(own: &'a Func, slot: u32, out: &mut Vec<Form<'a>>) -> Result<(), AllocError>
    ensures { OnOk result (map form_of out.new.items ≡ map form_of out.old.items ++ declared_forms (slots_of own.now) slot) }
{
    if is_object(own, slot) {
        let ty = slot_type(own, slot);
        return add_whole(ty, out);
    }
    Ok(())
}

fn is_object(own: &Func, slot: u32) -> bool
    ensures { result ≡ is_object (slice_get (slots_of own.now) slot) }
{
    let params = own.params.as_slice();
    let at = slot as usize;
    if at < params.len() {
        return params[at].object;
    }
    match own.locals.as_slice().get(at - params.len()) {
        Some(local) => local.object,
        None => false,
    }
}

fn add_text<'a>(own: &'a Func, slot: u32, out: &mut Vec<Form<'a>>) -> Result<(), AllocError>
    ensures { OnOk result (map form_of out.new.items ≡ map form_of out.old.items ++ wholes (option_map slot_type (slice_get (slots_of own.now) slot))) }
{
    let ty = slot_type(own, slot);
    add_whole(ty, out)
}

/// What a statement reads and writes, and the statements in it.
#[cycle(codes)]
fn add_code<'a>(
    program: &'a Program,
    own: &'a Func,
    statement: &'a Stmt,
    out: &mut Vec<Form<'a>>,
) -> Result<(), AllocError>
    ensures { OnOk result (map form_of out.new.items ≡ map form_of out.old.items ++ code_forms program.now (slots_of own.now) (code_of statement.now)) }
{
    match &statement.step {
        Step::Declare(slot) => add_declared(own, *slot, out)?,
        Step::Text(slot, _) => add_text(own, *slot, out)?,
        Step::Assign(p, e) => {
            add_stored(program, own, p, out)?;
            add_term(program, own, e, out)?;
        }
        Step::Call(target, form) => {
            add_goal(program, own, target, out)?;
            add_call(program, own, form, out)?;
        }
        Step::If(e, one, other) => {
            add_term(program, own, e, out)?;
            add_codes(program, own, one.as_slice(), out)?;
            add_codes(program, own, other.as_slice(), out)?;
        }
        Step::While(e, body) => {
            add_term(program, own, e, out)?;
            add_codes(program, own, body.as_slice(), out)?;
        }
        Step::For(init, test, step, body) => {
            add_codes(program, own, init.as_slice(), out)?;
            add_option(program, own, test, out)?;
            add_codes(program, own, step.as_slice(), out)?;
            add_codes(program, own, body.as_slice(), out)?;
        }
        Step::Return(e) => add_option(program, own, e, out)?,
        Step::ReturnCall(form) => add_call(program, own, form, out)?,
        Step::Block(body) => add_codes(program, own, body.as_slice(), out)?,
        Step::Break | Step::Continue | Step::Empty => {}
    }
    Ok(())
}

/// What statements read and write.
#[cycle(codes)]
fn add_codes<'a>(
    program: &'a Program,
    own: &'a Func,
    body: &'a [Stmt],
    out: &mut Vec<Form<'a>>,
) -> Result<(), AllocError>
    ensures { OnOk result (map form_of out.new.items ≡ map form_of out.old.items ++ all_code_forms program.now (slots_of own.now) (codes_of body.now)) }
{
    for statement in body {
        add_code(program, own, statement, out)?;
    }
    Ok(())
}

fn add_body<'a>(
    program: &'a Program,
    own: &'a Func,
    out: &mut Vec<Form<'a>>,
) -> Result<(), AllocError>
    ensures { OnOk result (map form_of out.new.items ≡ map form_of out.old.items ++ all_code_forms program.now (slots_of own.now) (body_code own.now.body)) }
{
    match &own.body {
        None => Ok(()),
        Some(body) => add_codes(program, own, body.as_slice(), out),
    }
}

fn add_param<'a>(param: &'a Param, out: &mut Vec<Form<'a>>) -> Result<(), AllocError>
    ensures { OnOk result (map form_of out.new.items ≡ map form_of out.old.items ++ chosen param.now.object (Whole param.now.ty ∷ []) []) }
{
    if param.object {
        out.push(Form::Whole(&param.ty))?;
    }
    Ok(())
}

/// The births of parameters that are objects.
fn add_params<'a>(params: &'a [Param], out: &mut Vec<Form<'a>>) -> Result<(), AllocError>
    ensures { OnOk result (map form_of out.new.items ≡ map form_of out.old.items ++ param_forms params.now) }
{
    for param in params {
        add_param(param, out)?;
    }
    Ok(())
}

/// The access forms of a function.
pub(crate) fn forms_of<'a>(
    alloc: Global,
    program: &'a Program,
    own: &'a Func,
) -> Result<Vec<Form<'a>>, AllocError>
    ensures { IfOk result (λ forms. map form_of forms.items ≡ func_forms program.now own.now) }
{
    let mut forms = Vec::new(alloc);
    add_params(own.params.as_slice(), &mut forms)?;
    add_body(program, own, &mut forms)?;
    Ok(forms)
}
