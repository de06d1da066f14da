// The keys that a function has access forms for itself.

ghost use Rattle.std.specs.Prelude.{◌≡◌, ◌↔◌, ◌<◌, ◌≤◌, IsTrue, IfOk, Some, length, map, slice_get};
ghost use Rattle.mdr_core.specs.Sound.{IsSound};
ghost use Rattle.mdr_core.specs.Suited.{key_type};
ghost use Rattle.mdr_core.specs.declared.kind.Kind.TheVariants.{U8};
ghost use Rattle.mdr_core.specs.declared.types.Ty.TheVariants.{Int};
ghost use Rattle.mdr_paths.specs.Marking.{AreNodes, Tells};
ghost use Rattle.mdr_access.specs.Exposed.{IsExposed, IsOneOf, exposed_fields};
ghost use Rattle.mdr_access.specs.Forms.{FormHas, IsCellKey, func_forms};
ghost use Rattle.mdr_access.specs.Owned.{HasCell, HasOne, Owns};
ghost use Rattle.mdr_access.specs.Told.{form_of};

use crate::forms::{Form, forms_of};
use crate::keys::{is_listed, key_type};
use mdr_core::{Func, Key, Kind, Program, Ty, cells_of, key_of, same_type, type_number};
use mdr_paths::marked_nodes;
use std::alloc::{AllocError, Global};

/// Whether two keys are one.
fn is_same(a: Key, b: Key) -> bool
    ensures { IsTrue result ↔ (a ≡ b) }
{
    a == b
}

/// Whether a key is exposed.
fn is_exposed(program: &Program, exposed: &[Key], key: Key) -> bool
    requires { exposed.now ≡ exposed_fields program.now }
    ensures { IsTrue result ↔ IsExposed program.now key }
{
    match key {
        Key::Field(_, _) => is_listed(exposed, key),
        Key::Global(_) => true,
        Key::Elem(_) => true,
    }
}

/// Whether the cells of a key have the type.
fn has_type(program: &Program, key: Key, ty: &Ty) -> bool
    ensures { IsTrue result ↔ (key_type program.now key ≡ Some ty.now) }
{
    match key_type(program, key) {
        Some(held) => same_type(held, ty),
        None => false,
    }
}

/// Whether a pointer to scalars of a type may point to cells of a key.
fn is_followed(program: &Program, exposed: &[Key], ty: &Ty, key: Key) -> bool
    requires { exposed.now ≡ exposed_fields program.now }
    ensures { IsTrue result ↔ (IsExposed program.now key × (key_type program.now key ≡ Some ty.now)) }
{
    is_exposed(program, exposed, key) && has_type(program, key, ty)
}

/// The same of a pointer to bytes.
fn is_byte(program: &Program, exposed: &[Key], key: Key) -> bool
    requires { exposed.now ≡ exposed_fields program.now }
    ensures { IsTrue result ↔ (IsExposed program.now key × (key_type program.now key ≡ Some (Int U8))) }
{
    is_followed(program, exposed, &Ty::Int(Kind::U8), key)
}

/// Whether a cell of an element of the type of this number has the key.
fn has_cell(program: &Program, number: u32, key: Key) -> bool
    requires inside { number < length program.now.types }
    requires sound { IsSound program.now }
    ensures { IsTrue result ↔ HasCell program.now number key }
{
    for cell in 0..cells_of(program, number) {
        if is_same(key_of(program, None, number, cell), key) {
            return true;
        }
    }
    false
}

/// Whether a cell of an object of the type has the key.
fn is_cell_key(program: &Program, ty: &Ty, key: Key) -> bool
    requires sound { IsSound program.now }
    requires few { length program.now.types ≤ 4294967296 }
    ensures { IsTrue result ↔ IsCellKey program.now ty.now key }
{
    match type_number(program, ty) {
        Some(number) => has_cell(program, number, key),
        None => false,
    }
}

/// Whether an access form has the key.
fn form_has(program: &Program, exposed: &[Key], form: Form<'_>, key: Key) -> bool
    requires sound { IsSound program.now }
    requires few { length program.now.types ≤ 4294967296 }
    requires fields { exposed.now ≡ exposed_fields program.now }
    ensures { IsTrue result ↔ FormHas program.now (form_of form.entry) key }
{
    match form {
        Form::Touch(touched) => is_same(key, touched),
        Form::Follow(ty) => is_followed(program, exposed, ty, key),
        Form::Bytes => is_byte(program, exposed, key),
        Form::Whole(ty) => is_cell_key(program, ty, key),
    }
}

/// Whether one of the forms has the key.
fn has_one(program: &Program, exposed: &[Key], forms: &[Form<'_>], key: Key) -> bool
    requires sound { IsSound program.now }
    requires few { length program.now.types ≤ 4294967296 }
    requires fields { exposed.now ≡ exposed_fields program.now }
    ensures { IsTrue result ↔ HasOne program.now (map form_of forms.now) key }
{
    for form in forms {
        if form_has(program, exposed, *form, key) {
            return true;
        }
    }
    false
}

/// The key at an index.
fn listed(keys: &[Key], at: usize) -> Key
    requires { at < length keys.now }
    ensures { slice_get keys.now at ≡ Some result }
{
    keys[at]
}

/// Marks those of the keys that the forms have.
fn form_marks(
    alloc: Global,
    program: &Program,
    exposed: &[Key],
    keys: &[Key],
    forms: &[Form<'_>],
) -> Result<Vec<bool>, AllocError>
    requires sound { IsSound program.now }
    requires few { length program.now.types ≤ 4294967296 }
    requires fields { exposed.now ≡ exposed_fields program.now }
    ensures { IfOk result (λ marks. Tells (length keys.now) (Owns program.now (map form_of forms.now) keys.now) marks.items) }
{
    let mut marks = vec![in alloc; false; keys.len()]?;
    for at in 0..keys.len() {
        let key = listed(keys, at);
        marks[at] = has_one(program, exposed, forms, key);
    }
    Ok(marks)
}

/// The indices of those of the keys that a function has access forms for.
pub(crate) fn owned(
    alloc: Global,
    program: &Program,
    exposed: &[Key],
    keys: &[Key],
    own: &Func,
) -> Result<Vec<u32>, AllocError>
    requires sound { IsSound program.now }
    requires few { length program.now.types ≤ 4294967296 }
    requires fields { exposed.now ≡ exposed_fields program.now }
    requires all { length keys.now ≤ 4294967296 }
    ensures { IfOk result (λ nodes. AreNodes (length keys.now) (Owns program.now (func_forms program.now own.now) keys.now) nodes.items) }
{
    let forms = forms_of(alloc, program, own)?;
    let marks = form_marks(alloc, program, exposed, keys, forms.as_slice())?;
    let nodes = marked_nodes(alloc, marks.as_slice())?;
    Ok(nodes)
}
