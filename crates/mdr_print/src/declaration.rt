// Declarations.

ghost use Rattle.std.specs.Prelude.{◌≡◌, OnOk, map, codes};
ghost use Rattle.mdr_syntax.specs.declared.tree.Decl.{out-Decl};
ghost use Rattle.mdr_print.specs.Marks.{Appends, spell, word, sign, blank, comma_list, in_parentheses, ◌▸◌};
ghost use Rattle.mdr_print.specs.Types.{stars};
ghost use Rattle.mdr_print.specs.Declarations.{minus, constant, annotation, annotated, named, sized, parameters, shown_decl, whole_of, core_of};
ghost use Rattle.mdr_print.specs.Declarations.{parameter_list, declaration, declarator, head, is_bare, sized_name, const_if, is_lone_void, is_void_base};

use crate::put::{put_blank, put_blank_unless, put_comma_unless, put_number, put_sign, put_word};
use crate::types::{put_base, put_stars};
use mdr_core::Name;
use mdr_syntax::{AnnText, Base, Const, Decl, Head};
use std::alloc::{AllocError, Global};

fn put_minus(out: &mut Vec<u8>, is_negative: bool) -> Result<(), AllocError>
    ensures { OnOk result (Appends out.old.items out.new.items (minus is_negative)) }
{
    if is_negative {
        put_sign(out, b"-")
    } else {
        Ok(())
    }
}

/// A constant.
pub fn put_constant(alloc: Global, out: &mut Vec<u8>, c: &Const) -> Result<(), AllocError>
    ensures { OnOk result (Appends out.old.items out.new.items (constant c.now)) }
{
    match c {
        Const::Number(_, is_negative, n, kind) => {
            put_minus(out, *is_negative)?;
            put_number(alloc, out, *n, *kind)
        }
        Const::Name(_, name) => put_word(out, name.as_slice()),
    }
}

fn put_constant_in_parentheses(
    alloc: Global,
    out: &mut Vec<u8>,
    c: &Const,
) -> Result<(), AllocError>
    ensures { OnOk result (Appends out.old.items out.new.items (in_parentheses (constant c.now))) }
{
    put_sign(out, b"(")?;
    put_constant(alloc, out, c)?;
    put_sign(out, b")")
}

fn put_word_in_parentheses(out: &mut Vec<u8>, text: &[u8]) -> Result<(), AllocError>
    ensures { OnOk result (Appends out.old.items out.new.items (in_parentheses (word text.now))) }
{
    put_sign(out, b"(")?;
    put_word(out, text)?;
    put_sign(out, b")")
}

fn put_annotation(alloc: Global, out: &mut Vec<u8>, ann: &AnnText) -> Result<(), AllocError>
    ensures { OnOk result (Appends out.old.items out.new.items (annotation ann.now)) }
{
    match ann {
        AnnText::Array(c) => {
            put_word(out, b"__array")?;
            put_constant_in_parentheses(alloc, out, c)
        }
        AnnText::Sentinel(_, name) => {
            put_word(out, b"__sentinel")?;
            put_word_in_parentheses(out, name.as_slice())
        }
        AnnText::NullTerm => put_word(out, b"__nullterm"),
        AnnText::Opaque => put_word(out, b"__opaque"),
    }
}

/// An annotation behind a blank, where there is one.
fn put_annotated(alloc: Global, out: &mut Vec<u8>, ann: &Option<AnnText>) -> Result<(), AllocError>
    ensures { OnOk result (Appends out.old.items out.new.items (annotated ann.now)) }
{
    match ann {
        None => Ok(()),
        Some(a) => {
            put_blank(out)?;
            put_annotation(alloc, out, a)
        }
    }
}

fn put_named(out: &mut Vec<u8>, name: &Option<Name>) -> Result<(), AllocError>
    ensures { OnOk result (Appends out.old.items out.new.items (named name.now)) }
{
    match name {
        None => Ok(()),
        Some(name) => put_word(out, name.as_slice()),
    }
}

/// A size in brackets, where there is one.
fn put_sized(alloc: Global, out: &mut Vec<u8>, size: &Option<Const>) -> Result<(), AllocError>
    ensures { OnOk result (Appends out.old.items out.new.items (sized size.now)) }
{
    match size {
        None => Ok(()),
        Some(c) => {
            put_sign(out, b"[")?;
            put_constant(alloc, out, c)?;
            put_sign(out, b"]")
        }
    }
}

/// A name with its size.
fn put_sized_name(
    alloc: Global,
    out: &mut Vec<u8>,
    name: &Option<Name>,
    size: &Option<Const>,
) -> Result<(), AllocError>
    ensures { OnOk result (Appends out.old.items out.new.items (sized_name name.now size.now)) }
{
    put_named(out, name)?;
    put_sized(alloc, out, size)
}

/// The middle of a function pointer's declarator.
fn put_pointer_name(
    alloc: Global,
    out: &mut Vec<u8>,
    name: &Option<Name>,
    size: &Option<Const>,
) -> Result<(), AllocError>
    ensures { OnOk result (Appends out.old.items out.new.items (in_parentheses (sign (codes "*") ▸ sized_name name.now size.now))) }
{
    put_sign(out, b"(")?;
    put_pointed_name(alloc, out, name, size)?;
    put_sign(out, b")")
}

fn put_pointed_name(
    alloc: Global,
    out: &mut Vec<u8>,
    name: &Option<Name>,
    size: &Option<Const>,
) -> Result<(), AllocError>
    ensures { OnOk result (Appends out.old.items out.new.items (sign (codes "*") ▸ sized_name name.now size.now)) }
{
    put_sign(out, b"*")?;
    put_sized_name(alloc, out, name, size)
}

/// Whether nothing but its base type stands there.
fn is_bare(d: &Decl) -> bool
    ensures { result ≡ is_bare (out-Decl d.now).stars (out-Decl d.now).name (out-Decl d.now).fun }
{
    d.stars == 0 && d.name.is_none() && d.fun.is_none()
}

fn is_void_base(base: &Base) -> bool
    ensures { result ≡ is_void_base base.now }
{
    match base {
        Base::Void => true,
        Base::Int(_) | Base::Struct(_, _) | Base::Lock => false,
    }
}

/// Whether it is written as `void`.
fn is_void(d: &Decl) -> bool
    ensures { result ≡ (shown_decl d.now).is_void }
{
    is_void_base(&d.base) && is_bare(d) && d.size.is_none() && d.ann.is_none()
}

fn is_lone_void(params: &[Decl]) -> bool
    ensures { result ≡ is_lone_void (map shown_decl params.now) }
{
    match params {
        [d] => is_void(d),
        _ => false,
    }
}

fn put_const_if(out: &mut Vec<u8>, is_const: bool) -> Result<(), AllocError>
    ensures { OnOk result (Appends out.old.items out.new.items (const_if is_const)) }
{
    if !is_const {
        return Ok(());
    }
    put_word(out, b"const")?;
    put_blank(out)
}

/// A declaration as a whole, without what ends it.
#[cycle(declare)]
pub fn put_declaration(alloc: Global, out: &mut Vec<u8>, d: &Decl) -> Result<(), AllocError>
    ensures { OnOk result (Appends out.old.items out.new.items (declaration d.now)) }
{
    put_base(out, &d.base)?;
    put_blank_unless(out, is_bare(d))?;
    put_declarator(alloc, out, d)
}

/// A declaration without its base type.
#[cycle(declare)]
pub fn put_declarator(alloc: Global, out: &mut Vec<u8>, d: &Decl) -> Result<(), AllocError>
    ensures { OnOk result (Appends out.old.items out.new.items (declarator d.now)) }
{
    put_stars(out, d.stars)?;
    put_core(alloc, out, d)?;
    put_annotated(alloc, out, &d.ann)
}

#[cycle(declare)]
fn put_core(alloc: Global, out: &mut Vec<u8>, d: &Decl) -> Result<(), AllocError>
    ensures { OnOk result (Appends out.old.items out.new.items (core_of d.now)) }
{
    match &d.fun {
        None => put_sized_name(alloc, out, &d.name, &d.size),
        Some(params) => {
            put_pointer_name(alloc, out, &d.name, &d.size)?;
            put_parameters(alloc, out, params.as_slice())
        }
    }
}

#[cycle(declare)]
fn put_parameters(alloc: Global, out: &mut Vec<u8>, params: &[Decl]) -> Result<(), AllocError>
    ensures { OnOk result (Appends out.old.items out.new.items (parameters (map shown_decl params.now))) }
{
    put_sign(out, b"(")?;
    put_parameter_list(alloc, out, params)?;
    put_sign(out, b")")
}

#[cycle(declare)]
fn put_parameter_list(alloc: Global, out: &mut Vec<u8>, params: &[Decl]) -> Result<(), AllocError>
    ensures { OnOk result (Appends out.old.items out.new.items (parameter_list (map shown_decl params.now))) }
{
    if params.is_empty() {
        return put_word(out, b"void");
    }
    put_const_if(out, is_lone_void(params))?;
    put_declarations(alloc, out, params)
}

#[cycle(declare)]
fn put_declarations(alloc: Global, out: &mut Vec<u8>, decls: &[Decl]) -> Result<(), AllocError>
    ensures { OnOk result (Appends out.old.items out.new.items (comma_list (map whole_of (map shown_decl decls.now)))) }
{
    let mut is_first = true;
    for d in decls {
        put_comma_unless(out, is_first)?;
        put_declaration(alloc, out, d)?;
        is_first = false;
    }
    Ok(())
}

fn put_head_name(out: &mut Vec<u8>, h: &Head) -> Result<(), AllocError>
    ensures { OnOk result (Appends out.old.items out.new.items (blank ▸ stars h.now.stars ▸ word h.now.name)) }
{
    put_blank(out)?;
    put_stars(out, h.stars)?;
    put_word(out, h.name.as_slice())
}

fn put_head_rest(alloc: Global, out: &mut Vec<u8>, h: &Head) -> Result<(), AllocError>
    ensures { OnOk result (Appends out.old.items out.new.items (parameters (map shown_decl h.now.params) ▸ annotated h.now.ann)) }
{
    put_parameters(alloc, out, h.params.as_slice())?;
    put_annotated(alloc, out, &h.ann)
}

/// What stands before a function's body.
pub fn put_head(alloc: Global, out: &mut Vec<u8>, h: &Head) -> Result<(), AllocError>
    ensures { OnOk result (Appends out.old.items out.new.items (head h.now)) }
{
    put_base(out, &h.base)?;
    put_head_name(out, h)?;
    put_head_rest(alloc, out, h)
}
