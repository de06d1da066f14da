// The type of what an lvalue names, and of what a pointer points to.

ghost use Rattle.std.specs.Prelude.{◌≡◌, option_copied, slice_get};
ghost use Rattle.std.specs.Option.{option_map};
ghost use Rattle.mdr_core.specs.Folds.{lvalue_of, term_of};
ghost use Rattle.mdr_core.specs.Layout.{fields_of};
ghost use Rattle.mdr_meaning.specs.Bodies.{without_funcs};
ghost use Rattle.mdr_meaning.specs.Named.{field_type, global_type, member_type, named_type, pointed_type, slot_type, target_of};
ghost use Rattle.mdr_exec.specs.Holding.{slots_by};

use crate::layout::{fields, struct_named};
use crate::slots::slot_in;
use mdr_core::{Expr, Lval, Program, Ty};

/// The type of a slot.
fn slot_type<'a>(program: &'a Program, func: u32, i: u32) -> Option<&'a Ty>
    ensures { option_copied result ≡ option_map slot_type (slice_get (slots_by (slice_get program.now.funcs func)) i) }
{
    match slot_in(program, func, i) {
        Some(declared) => Some(declared.ty),
        None => None,
    }
}

/// The type of a global.
fn global_type<'a>(program: &'a Program, g: u32) -> Option<&'a Ty>
    ensures { option_copied result ≡ option_map global_type (slice_get program.now.globals g) }
{
    match program.globals.as_slice().get(g as usize) {
        Some(def) => Some(&def.ty),
        None => None,
    }
}

/// What a pointer of a type points to.
fn target_of<'a>(ty: Option<&'a Ty>) -> Option<&'a Ty>
    ensures { option_copied result ≡ target_of (option_copied ty.entry) }
{
    match ty {
        Some(Ty::Ptr(target)) => Some(target.get()),
        Some(Ty::Int(_) | Ty::Lock | Ty::Struct(_) | Ty::VoidPtr | Ty::Fun(_) | Ty::Void) => None,
        None => None,
    }
}

/// The type of a field of a struct.
fn field_type<'a>(program: &'a Program, s: u32, f: u32) -> Option<&'a Ty>
    ensures { option_copied result ≡ option_map field_type (slice_get (fields_of program.now.structs s) f) }
{
    match fields(program.structs.as_slice(), s).get(f as usize) {
        Some(field) => Some(&field.ty),
        None => None,
    }
}

/// The type of a field of a type's struct.
fn member_type<'a>(program: &'a Program, ty: Option<&'a Ty>, f: u32) -> Option<&'a Ty>
    ensures { option_copied result ≡ member_type (without_funcs program.now) (option_copied ty.entry) f }
{
    match ty {
        Some(ty) => match struct_named(ty) {
            Some(s) => field_type(program, s, f),
            None => None,
        },
        None => None,
    }
}

/// The type of what an lvalue names, of each element where it is an array.
#[cycle(named)]
pub(crate) fn named_type<'a>(program: &'a Program, func: u32, p: &'a Lval) -> Option<&'a Ty>
    ensures { option_copied result ≡ named_type (without_funcs program.now) (slots_by (slice_get program.now.funcs func)) (lvalue_of p.now) }
{
    match p {
        Lval::Slot(i) => slot_type(program, func, *i),
        Lval::Object(i) => slot_type(program, func, *i),
        Lval::Global(g) => global_type(program, *g),
        Lval::Deref(e) => pointed_type(program, func, e.get()),
        Lval::Member(p, f) => member_type(program, named_type(program, func, p.get()), *f),
        Lval::Index(p, _) => named_type(program, func, p.get()),
    }
}

/// The type of what a pointer points to.
#[cycle(named)]
fn pointed_type<'a>(program: &'a Program, func: u32, e: &'a Expr) -> Option<&'a Ty>
    ensures { option_copied result ≡ pointed_type (without_funcs program.now) (slots_by (slice_get program.now.funcs func)) (term_of e.now) }
{
    match e {
        Expr::Load(p) => target_of(named_type(program, func, p)),
        Expr::Addr(p) => named_type(program, func, p),
        Expr::Decay(p) => named_type(program, func, p),
        Expr::FromVoid(ty, _) => Some(ty),
        Expr::Move(_, p, _) => pointed_type(program, func, p.get()),
        Expr::Lit(_) => None,
        Expr::Neg(_, _) => None,
        Expr::Flip(_, _) => None,
        Expr::Not(_) => None,
        Expr::Bin(_, _, _, _) => None,
        Expr::Rel(_, _, _) => None,
        Expr::And(_, _) => None,
        Expr::Or(_, _) => None,
        Expr::Conv(_, _) => None,
        Expr::ToVoid(_) => None,
        Expr::Diff(_, _) => None,
    }
}
