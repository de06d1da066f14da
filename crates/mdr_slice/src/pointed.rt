// The types of what lvalues name and of what pointers point to.

ghost use Rattle.std.specs.Prelude.{◌≡◌, ◌↔◌, ◌∷◌, IsTrue, Some, slice_get, map};
ghost use Rattle.std.specs.Option.{option_copied, option_map};
ghost use Rattle.mdr_core.specs.Folds.{lvalue_of, term_of};
ghost use Rattle.mdr_core.specs.declared.program.Param.{Param as AnyParam};
ghost use Rattle.mdr_core.specs.Layout.{fields_of};
ghost use Rattle.mdr_core.specs.Suited.{global_type, field_type};
ghost use Rattle.mdr_core.specs.Typing.{slots_of, function_type};
ghost use Rattle.mdr_slice.specs.Pointed.{slot_type, target_of, member_type, named_type, pointed_type, value_type, called_type};

use mdr_core::{Expr, Func, Lval, Param, Program, Ty, Value, same_type};

/// The type of a parameter or local, by its slot.
pub fn slot_type(own: &Func, slot: u32) -> Option<&Ty>
    ensures { option_copied result ≡ option_map slot_type (slice_get (slots_of own.now) slot) }
{
    let params = own.params.as_slice();
    let at = slot as usize;
    if at < params.len() {
        return Some(&params[at].ty);
    }
    match own.locals.as_slice().get(at - params.len()) {
        Some(local) => Some(&local.ty),
        None => None,
    }
}

/// The type of a global.
fn global_type(program: &Program, global: u32) -> Option<&Ty>
    ensures { option_copied result ≡ option_map global_type (slice_get program.now.globals global) }
{
    match program.globals.as_slice().get(global as usize) {
        Some(def) => Some(&def.ty),
        None => None,
    }
}

/// What a pointer of a type points to.
fn target(ty: Option<&Ty>) -> Option<&Ty>
    ensures { option_copied result ≡ target_of (option_copied ty.entry) }
{
    match ty {
        Some(Ty::Ptr(target)) => Some(target.get()),
        _ => None,
    }
}

/// The type of a struct's field.
fn field_type(program: &Program, s: u32, field: u32) -> Option<&Ty>
    ensures { option_copied result ≡ option_map field_type (slice_get (fields_of program.now.structs s) field) }
{
    match program.structs.as_slice().get(s as usize) {
        Some(def) => match def.fields.as_slice().get(field as usize) {
            Some(field) => Some(&field.ty),
            None => None,
        },
        None => None,
    }
}

/// The type of a member of what has a type.
fn member_type<'a>(program: &'a Program, whole: Option<&'a Ty>, field: u32) -> Option<&'a Ty>
    ensures { option_copied result ≡ member_type program.now (option_copied whole.entry) field }
{
    match whole {
        Some(Ty::Struct(s)) => field_type(program, *s, field),
        _ => None,
    }
}

/// The type of what an lvalue names, of each element where it is an array.
#[cycle(pointed)]
pub fn named_type<'a>(program: &'a Program, own: &'a Func, p: &'a Lval) -> Option<&'a Ty>
    ensures { option_copied result ≡ named_type program.now (slots_of own.now) (lvalue_of p.now) }
{
    match p {
        Lval::Slot(slot) => slot_type(own, *slot),
        Lval::Object(slot) => slot_type(own, *slot),
        Lval::Global(global) => global_type(program, *global),
        Lval::Deref(e) => pointed_type(program, own, e.get()),
        Lval::Member(p, field) => {
            let whole = named_type(program, own, p.get());
            member_type(program, whole, *field)
        }
        Lval::Index(p, _) => named_type(program, own, p.get()),
    }
}

/// The type of what a pointer to an object points to. A null constant has none of its own.
#[cycle(pointed)]
pub fn pointed_type<'a>(program: &'a Program, own: &'a Func, e: &'a Expr) -> Option<&'a Ty>
    ensures { option_copied result ≡ pointed_type program.now (slots_of own.now) (term_of e.now) }
{
    match e {
        Expr::Load(p) => {
            let held = named_type(program, own, p);
            target(held)
        }
        Expr::Addr(p) => named_type(program, own, p),
        Expr::Decay(p) => named_type(program, own, p),
        Expr::FromVoid(ty, _) => Some(ty),
        Expr::Move(_, p, _) => pointed_type(program, own, p.get()),
        Expr::Lit(_)
        | Expr::Neg(_, _)
        | Expr::Flip(_, _)
        | Expr::Not(_)
        | Expr::Bin(_, _, _, _)
        | Expr::Rel(_, _, _)
        | Expr::And(_, _)
        | Expr::Or(_, _)
        | Expr::Conv(_, _)
        | Expr::ToVoid(_)
        | Expr::Diff(_, _) => None,
    }
}

/// Whether a parameter has the type.
fn is_param(param: &Param, ty: &Ty) -> bool
    ensures { IsTrue result ↔ (ty.now ≡ param.now.ty) }
{
    same_type(ty, &param.ty)
}

/// Whether parameters have these types.
fn are_params(params: &[Param], types: &[Ty]) -> bool
    ensures { IsTrue result ↔ (types.now ≡ map (λ (p : AnyParam). p.ty) params.now) }
{
    if types.len() != params.len() {
        return false;
    }
    for i in 0..types.len() {
        if !is_param(&params[i], &types[i]) {
            return false;
        }
    }
    true
}

/// Whether a function has this result and these parameters.
fn has_signature(func: &Func, types: &[Ty]) -> bool
    ensures { IsTrue result ↔ (types.now ≡ func.now.result ∷ map (λ (p : AnyParam). p.ty) func.now.params) }
{
    match types {
        [first, params @ ..] => {
            same_type(first, &func.result) && are_params(func.params.as_slice(), params)
        }
        _ => false,
    }
}

/// Whether a function's address has the type.
pub fn has_function_type(func: &Func, ty: &Ty) -> bool
    ensures { IsTrue result ↔ (ty.now ≡ function_type func.now) }
{
    match ty {
        Ty::Fun(types) => has_signature(func, types.as_slice()),
        Ty::Int(_) | Ty::Lock | Ty::Struct(_) | Ty::Ptr(_) | Ty::VoidPtr | Ty::Void => false,
    }
}

fn same_param(a: &Param, b: &Param) -> bool
    ensures { IsTrue result ↔ (a.now.ty ≡ b.now.ty) }
{
    same_type(&a.ty, &b.ty)
}

/// Whether two lists of parameters have the same types.
fn same_params(params: &[Param], others: &[Param]) -> bool
    ensures { IsTrue result ↔ (map (λ (p : AnyParam). p.ty) params.now ≡ map (λ (p : AnyParam). p.ty) others.now) }
{
    if params.len() != others.len() {
        return false;
    }
    for i in 0..params.len() {
        if !same_param(&params[i], &others[i]) {
            return false;
        }
    }
    true
}

/// Whether two functions' addresses have one type.
fn same_function_type(a: &Func, b: &Func) -> bool
    ensures { IsTrue result ↔ (function_type a.now ≡ function_type b.now) }
{
    same_type(&a.result, &b.result) && same_params(a.params.as_slice(), b.params.as_slice())
}

/// Whether a value is the address of a function of a function's type.
fn is_value_type(program: &Program, value: Value, func: &Func) -> bool
    ensures { IsTrue result ↔ (value_type program.now value ≡ Some (function_type func.now)) }
{
    match value {
        Value::Fn(named) => match program.funcs.as_slice().get(named as usize) {
            Some(named) => same_function_type(named, func),
            None => false,
        },
        Value::Int(_, _)
        | Value::Null
        | Value::Ptr(_)
        | Value::Dead
        | Value::Lock(_)
        | Value::NoValue => false,
    }
}

/// Whether what an lvalue names holds pointers to functions of a function's type.
fn holds_type(program: &Program, own: &Func, p: &Lval, func: &Func) -> bool
    ensures { IsTrue result ↔ (named_type program.now (slots_of own.now) (lvalue_of p.now) ≡ Some (function_type func.now)) }
{
    match named_type(program, own, p) {
        Some(ty) => has_function_type(func, ty),
        None => false,
    }
}

/// Whether an expression is a pointer to functions of a function's type.
pub(crate) fn is_called_type(program: &Program, own: &Func, e: &Expr, func: &Func) -> bool
    ensures { IsTrue result ↔ (called_type program.now (slots_of own.now) (term_of e.now) ≡ Some (function_type func.now)) }
{
    match e {
        Expr::Lit(value) => is_value_type(program, *value, func),
        Expr::Load(p) => holds_type(program, own, p, func),
        Expr::Addr(_)
        | Expr::Decay(_)
        | Expr::Neg(_, _)
        | Expr::Flip(_, _)
        | Expr::Not(_)
        | Expr::Bin(_, _, _, _)
        | Expr::Rel(_, _, _)
        | Expr::And(_, _)
        | Expr::Or(_, _)
        | Expr::Conv(_, _)
        | Expr::ToVoid(_)
        | Expr::FromVoid(_, _)
        | Expr::Move(_, _, _)
        | Expr::Diff(_, _) => false,
    }
}
