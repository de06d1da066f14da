// Initialisers and enumeration constants.

ghost use Rattle.std.specs.Prelude.{OnOk, map};
ghost use Rattle.mdr_print.specs.Marks.{Appends, spell, comma_list, in_braces};
ghost use Rattle.mdr_print.specs.Declarations.{equals, designator, init, elem, initialised, valued, enumerator};

use crate::declaration::put_constant;
use crate::put::{put_comma_unless, put_quoted, put_sign, put_spaced, put_word};
use mdr_syntax::{Const, Elem, Enumerator, FieldName, Init};
use std::alloc::{AllocError, Global};

/// `=` between its blanks.
pub fn put_equals(out: &mut Vec<u8>) -> Result<(), AllocError>
    ensures { OnOk result (Appends out.old.items out.new.items equals) }
{
    put_spaced(out, b"=")
}

/// The field that an element is for, where one is named.
fn put_designator(out: &mut Vec<u8>, field: &Option<FieldName>) -> Result<(), AllocError>
    ensures { OnOk result (Appends out.old.items out.new.items (designator field.now)) }
{
    match field {
        None => Ok(()),
        Some(f) => {
            put_sign(out, b".")?;
            put_word(out, f.name.as_slice())?;
            put_equals(out)
        }
    }
}

#[cycle(init)]
fn put_init(alloc: Global, out: &mut Vec<u8>, i: &Init) -> Result<(), AllocError>
    ensures { OnOk result (Appends out.old.items out.new.items (init i.now)) }
{
    match i {
        Init::Const(c) => put_constant(alloc, out, c),
        Init::Null(_) => put_word(out, b"NULL"),
        Init::Address(_, name) => {
            put_sign(out, b"&")?;
            put_word(out, name.as_slice())
        }
        Init::Text(_, bytes) => put_quoted(out, bytes.as_slice()),
        Init::List(_, elems) => put_braced_elems(alloc, out, elems.as_slice()),
    }
}

#[cycle(init)]
fn put_braced_elems(alloc: Global, out: &mut Vec<u8>, elems: &[Elem]) -> Result<(), AllocError>
    ensures { OnOk result (Appends out.old.items out.new.items (in_braces (comma_list (map elem elems.now)))) }
{
    put_sign(out, b"{")?;
    put_elems(alloc, out, elems)?;
    put_sign(out, b"}")
}

#[cycle(init)]
fn put_elem(alloc: Global, out: &mut Vec<u8>, e: &Elem) -> Result<(), AllocError>
    ensures { OnOk result (Appends out.old.items out.new.items (elem e.now)) }
{
    put_designator(out, &e.field)?;
    put_init(alloc, out, &e.init)
}

#[cycle(init)]
fn put_elems(alloc: Global, out: &mut Vec<u8>, elems: &[Elem]) -> Result<(), AllocError>
    ensures { OnOk result (Appends out.old.items out.new.items (comma_list (map elem elems.now))) }
{
    let mut is_first = true;
    for e in elems {
        put_comma_unless(out, is_first)?;
        put_elem(alloc, out, e)?;
        is_first = false;
    }
    Ok(())
}

/// `=` and an initialiser, where there is one.
pub fn put_initialised(
    alloc: Global,
    out: &mut Vec<u8>,
    value: &Option<Init>,
) -> Result<(), AllocError>
    ensures { OnOk result (Appends out.old.items out.new.items (initialised value.now)) }
{
    match value {
        None => Ok(()),
        Some(i) => {
            put_equals(out)?;
            put_init(alloc, out, i)
        }
    }
}

fn put_valued(alloc: Global, out: &mut Vec<u8>, value: &Option<Const>) -> Result<(), AllocError>
    ensures { OnOk result (Appends out.old.items out.new.items (valued value.now)) }
{
    match value {
        None => Ok(()),
        Some(c) => {
            put_equals(out)?;
            put_constant(alloc, out, c)
        }
    }
}

fn put_enumerator(alloc: Global, out: &mut Vec<u8>, e: &Enumerator) -> Result<(), AllocError>
    ensures { OnOk result (Appends out.old.items out.new.items (enumerator e.now)) }
{
    put_word(out, e.name.as_slice())?;
    put_valued(alloc, out, &e.value)
}

fn put_enumerators(
    alloc: Global,
    out: &mut Vec<u8>,
    enumerators: &[Enumerator],
) -> Result<(), AllocError>
    ensures { OnOk result (Appends out.old.items out.new.items (comma_list (map enumerator enumerators.now))) }
{
    let mut is_first = true;
    for e in enumerators {
        put_comma_unless(out, is_first)?;
        put_enumerator(alloc, out, e)?;
        is_first = false;
    }
    Ok(())
}

/// Enumeration constants in braces.
pub fn put_braced_enumerators(
    alloc: Global,
    out: &mut Vec<u8>,
    enumerators: &[Enumerator],
) -> Result<(), AllocError>
    ensures { OnOk result (Appends out.old.items out.new.items (in_braces (comma_list (map enumerator enumerators.now)))) }
{
    put_sign(out, b"{")?;
    put_enumerators(alloc, out, enumerators)?;
    put_sign(out, b"}")
}
