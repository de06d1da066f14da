// Expressions.

ghost use Rattle.std.specs.Prelude.{◌≡◌, ◌||◌, OnOk, map};
ghost use Rattle.mdr_print.specs.Marks.{Appends, spell, comma_list, in_parentheses, in_brackets, spaced, ◌▸◌};
ghost use Rattle.mdr_print.specs.Types.{type_name};
ghost use Rattle.mdr_print.specs.Forms.{shown_what, shown_form, marks_of, operand, arguments, owner, is_apart, member_sign, form, left_side};

use crate::put::{put_comma_unless, put_number, put_quoted, put_sign, put_spaced, put_word};
use crate::types::put_type;
use mdr_syntax::{Base, Form, FormWhat};
use std::alloc::{AllocError, Global};

/// Whether it is no name, literal or postfix form.
fn is_operator(what: &FormWhat) -> bool
    ensures { result ≡ (shown_what what.now).is_operator }
{
    match what {
        FormWhat::Prefix(_, _)
        | FormWhat::Cast(_, _, _)
        | FormWhat::Binary(_, _, _)
        | FormWhat::Choice(_, _, _) => true,
        FormWhat::Number(_, _)
        | FormWhat::Null
        | FormWhat::Name(_)
        | FormWhat::Post(_, _)
        | FormWhat::Subscript(_, _)
        | FormWhat::Member(_, _, _, _)
        | FormWhat::Call(_, _)
        | FormWhat::Text(_)
        | FormWhat::Base(_, _) => false,
    }
}

fn is_number(what: &FormWhat) -> bool
    ensures { result ≡ (shown_what what.now).is_number }
{
    match what {
        FormWhat::Number(_, _) => true,
        FormWhat::Prefix(_, _)
        | FormWhat::Cast(_, _, _)
        | FormWhat::Binary(_, _, _)
        | FormWhat::Choice(_, _, _)
        | FormWhat::Null
        | FormWhat::Name(_)
        | FormWhat::Post(_, _)
        | FormWhat::Subscript(_, _)
        | FormWhat::Member(_, _, _, _)
        | FormWhat::Call(_, _)
        | FormWhat::Text(_)
        | FormWhat::Base(_, _) => false,
    }
}

/// Whether it may stand on the left of an assignment without parentheses.
fn is_unary(what: &FormWhat) -> bool
    ensures { result ≡ (shown_what what.now).is_unary }
{
    match what {
        FormWhat::Cast(_, _, _) | FormWhat::Binary(_, _, _) | FormWhat::Choice(_, _, _) => false,
        FormWhat::Number(_, _)
        | FormWhat::Null
        | FormWhat::Name(_)
        | FormWhat::Prefix(_, _)
        | FormWhat::Post(_, _)
        | FormWhat::Subscript(_, _)
        | FormWhat::Member(_, _, _, _)
        | FormWhat::Call(_, _)
        | FormWhat::Text(_)
        | FormWhat::Base(_, _) => true,
    }
}

/// Whether it is in parentheses in front of `->`, or of `.`.
fn is_apart(is_arrow: bool, f: &Form) -> bool
    ensures { result ≡ is_apart is_arrow (shown_form f.now) }
{
    if is_arrow {
        is_operator(&f.what)
    } else {
        is_operator(&f.what) || is_number(&f.what)
    }
}

fn put_member_sign(out: &mut Vec<u8>, is_arrow: bool) -> Result<(), AllocError>
    ensures { OnOk result (Appends out.old.items out.new.items (member_sign is_arrow)) }
{
    if is_arrow {
        put_sign(out, b"->")
    } else {
        put_sign(out, b".")
    }
}

fn put_type_in_parentheses(out: &mut Vec<u8>, base: &Base, stars: u32) -> Result<(), AllocError>
    ensures { OnOk result (Appends out.old.items out.new.items (in_parentheses (type_name base.now stars))) }
{
    put_sign(out, b"(")?;
    put_type(out, base, stars)?;
    put_sign(out, b")")
}

/// An expression.
#[cycle(form)]
pub fn put_form(alloc: Global, out: &mut Vec<u8>, f: &Form) -> Result<(), AllocError>
    ensures { OnOk result (Appends out.old.items out.new.items (form f.now)) }
{
    put_what(alloc, out, &f.what)
}

/// An expression between parentheses.
#[cycle(form)]
pub fn put_in_parentheses(alloc: Global, out: &mut Vec<u8>, f: &Form) -> Result<(), AllocError>
    ensures { OnOk result (Appends out.old.items out.new.items (in_parentheses (form f.now))) }
{
    put_sign(out, b"(")?;
    put_form(alloc, out, f)?;
    put_sign(out, b")")
}

#[cycle(form)]
fn put_operand(alloc: Global, out: &mut Vec<u8>, f: &Form) -> Result<(), AllocError>
    ensures { OnOk result (Appends out.old.items out.new.items (operand (shown_form f.now))) }
{
    if is_operator(&f.what) {
        put_in_parentheses(alloc, out, f)
    } else {
        put_form(alloc, out, f)
    }
}

/// What a member belongs to.
#[cycle(form)]
fn put_owner(alloc: Global, out: &mut Vec<u8>, is_arrow: bool, f: &Form) -> Result<(), AllocError>
    ensures { OnOk result (Appends out.old.items out.new.items (owner is_arrow (shown_form f.now))) }
{
    if is_apart(is_arrow, f) {
        put_in_parentheses(alloc, out, f)
    } else {
        put_form(alloc, out, f)
    }
}

/// An operator and the operand behind it.
#[cycle(form)]
fn put_behind(alloc: Global, out: &mut Vec<u8>, operator: &[u8], f: &Form) -> Result<(), AllocError>
    ensures { OnOk result (Appends out.old.items out.new.items (spaced operator.now ▸ operand (shown_form f.now))) }
{
    put_spaced(out, operator)?;
    put_operand(alloc, out, f)
}

#[cycle(form)]
fn put_index(alloc: Global, out: &mut Vec<u8>, f: &Form) -> Result<(), AllocError>
    ensures { OnOk result (Appends out.old.items out.new.items (in_brackets (form f.now))) }
{
    put_sign(out, b"[")?;
    put_form(alloc, out, f)?;
    put_sign(out, b"]")
}

#[cycle(form)]
fn put_arguments(alloc: Global, out: &mut Vec<u8>, args: &[Form]) -> Result<(), AllocError>
    ensures { OnOk result (Appends out.old.items out.new.items (arguments (map shown_form args.now))) }
{
    put_sign(out, b"(")?;
    put_forms(alloc, out, args)?;
    put_sign(out, b")")
}

#[cycle(form)]
fn put_forms(alloc: Global, out: &mut Vec<u8>, forms: &[Form]) -> Result<(), AllocError>
    ensures { OnOk result (Appends out.old.items out.new.items (comma_list (map marks_of (map shown_form forms.now)))) }
{
    let mut is_first = true;
    for f in forms {
        put_comma_unless(out, is_first)?;
        put_form(alloc, out, f)?;
        is_first = false;
    }
    Ok(())
}

#[cycle(form)]
fn put_what(alloc: Global, out: &mut Vec<u8>, what: &FormWhat) -> Result<(), AllocError>
    ensures { OnOk result (Appends out.old.items out.new.items (marks_of (shown_what what.now))) }
{
    match what {
        FormWhat::Number(n, kind) => put_number(alloc, out, *n, *kind),
        FormWhat::Null => put_word(out, b"NULL"),
        FormWhat::Name(name) => put_word(out, name.as_slice()),
        FormWhat::Prefix(operator, a) => {
            put_sign(out, operator.as_slice())?;
            put_operand(alloc, out, a.get())
        }
        FormWhat::Post(operator, a) => {
            put_operand(alloc, out, a.get())?;
            put_sign(out, operator.as_slice())
        }
        FormWhat::Cast(base, stars, a) => {
            put_type_in_parentheses(out, base, *stars)?;
            put_operand(alloc, out, a.get())
        }
        FormWhat::Binary(operator, a, b) => {
            put_operand(alloc, out, a.get())?;
            put_behind(alloc, out, operator.as_slice(), b.get())
        }
        FormWhat::Choice(test, a, b) => {
            put_operand(alloc, out, test.get())?;
            put_behind(alloc, out, b"?", a.get())?;
            put_behind(alloc, out, b":", b.get())
        }
        FormWhat::Subscript(a, i) => {
            put_operand(alloc, out, a.get())?;
            put_index(alloc, out, i.get())
        }
        FormWhat::Member(a, is_arrow, _, name) => {
            put_owner(alloc, out, *is_arrow, a.get())?;
            put_member_sign(out, *is_arrow)?;
            put_word(out, name.as_slice())
        }
        FormWhat::Call(callee, args) => {
            put_operand(alloc, out, callee.get())?;
            put_arguments(alloc, out, args.as_slice())
        }
        FormWhat::Text(bytes) => put_quoted(out, bytes.as_slice()),
        FormWhat::Base(base, stars) => put_type(out, base, *stars),
    }
}

/// The left side of an assignment.
pub fn put_left_side(alloc: Global, out: &mut Vec<u8>, f: &Form) -> Result<(), AllocError>
    ensures { OnOk result (Appends out.old.items out.new.items (left_side f.now)) }
{
    if is_unary(&f.what) {
        put_form(alloc, out, f)
    } else {
        put_in_parentheses(alloc, out, f)
    }
}
