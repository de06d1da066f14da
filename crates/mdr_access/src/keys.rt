// The keys of a program.

ghost use Rattle.std.specs.Prelude.{◌≡◌, ◌≤◌, ◌++◌, IfOk, OnOk, length};
ghost use Rattle.std.specs.List.{list_any};
ghost use Rattle.std.specs.Option.{option_copied};
ghost use Rattle.mdr_core.specs.Layout.{fields_of};
ghost use Rattle.mdr_core.specs.Sound.{IsSound};
ghost use Rattle.mdr_core.specs.Suited.{is_key, is_lock, key_type};
ghost use Rattle.mdr_access.specs.KeyOrder.{same_key};
ghost use Rattle.mdr_access.specs.AllKeys.{kept, global_keys, field_keys, struct_keys, element_keys, all_keys};

use mdr_core::{Field, Key, Program, Ty};
use std::alloc::{AllocError, Global};

fn is_lock(ty: &Ty) -> bool
    ensures { result ≡ is_lock ty.now }
{
    match ty {
        Ty::Lock => true,
        Ty::Int(_) | Ty::Struct(_) | Ty::Ptr(_) | Ty::VoidPtr | Ty::Fun(_) | Ty::Void => false,
    }
}

/// The fields of a struct.
fn fields(program: &Program, s: u32) -> &[Field]
    ensures { result.now ≡ fields_of program.now.structs s }
{
    match program.structs.as_slice().get(s as usize) {
        Some(def) => def.fields.as_slice(),
        None => &[],
    }
}

/// The type of what a key names, of each element where it is an array.
pub(crate) fn key_type(program: &Program, key: Key) -> Option<&Ty>
    ensures { option_copied result ≡ key_type program.now key }
{
    match key {
        Key::Global(global) => match program.globals.as_slice().get(global as usize) {
            Some(def) => Some(&def.ty),
            None => None,
        },
        Key::Field(s, field) => match fields(program, s).get(field as usize) {
            Some(field) => Some(&field.ty),
            None => None,
        },
        Key::Elem(ty) => program.types.as_slice().get(ty as usize),
    }
}

/// Whether a key names something of the program that is no lock.
#[tactic(auto, unfolding(mdr_core::specs::Suited::is_key))]
fn is_key(program: &Program, key: Key) -> bool
    ensures { result ≡ is_key program.now key }
{
    match key_type(program, key) {
        Some(ty) => !is_lock(ty),
        None => false,
    }
}

/// Adds a key that names no lock.
fn add_key(program: &Program, key: Key, out: &mut Vec<Key>) -> Result<(), AllocError>
    ensures { OnOk result (out.new.items ≡ out.old.items ++ kept program.now key) }
{
    if is_key(program, key) {
        out.push(key)?;
    }
    Ok(())
}

/// Whether a list has a key.
pub(crate) fn is_listed(keys: &[Key], key: Key) -> bool
    ensures { result ≡ list_any (same_key key) keys.now }
{
    for k in keys {
        if same_key(key, *k) {
            return true;
        }
    }
    false
}

/// Whether two keys are one.
pub(crate) fn same_key(a: Key, b: Key) -> bool
    ensures { result ≡ same_key a b }
{
    match (a, b) {
        (Key::Global(g), Key::Global(h)) => g == h,
        (Key::Field(s, f), Key::Field(t, h)) => s == t && f == h,
        (Key::Elem(t), Key::Elem(u)) => t == u,
        _ => false,
    }
}

/// Adds the keys of the globals.
#[tactic(auto, unfolding(crate::specs::AllKeys::global_keys))]
fn add_globals(program: &Program, out: &mut Vec<Key>) -> Result<(), AllocError>
    requires { length program.now.globals ≤ 4294967296 }
    ensures { OnOk result (out.new.items ≡ out.old.items ++ global_keys program.now 0 program.now.globals) }
{
    for (g, _def) in program.globals.as_slice().iter().enumerate() {
        add_key(program, Key::Global(g as u32), out)?;
    }
    Ok(())
}

/// Adds the keys of a struct's fields.
#[tactic(auto, unfolding(crate::specs::AllKeys::field_keys))]
fn add_fields(
    program: &Program,
    s: u32,
    fields: &[Field],
    out: &mut Vec<Key>,
) -> Result<(), AllocError>
    requires { length fields.now ≤ 4294967296 }
    ensures { OnOk result (out.new.items ≡ out.old.items ++ field_keys program.now s 0 fields.now) }
{
    for (f, _field) in fields.iter().enumerate() {
        add_key(program, Key::Field(s, f as u32), out)?;
    }
    Ok(())
}

/// Adds the keys of the elements of types.
#[tactic(auto, unfolding(crate::specs::AllKeys::element_keys))]
fn add_elements(program: &Program, out: &mut Vec<Key>) -> Result<(), AllocError>
    requires { length program.now.types ≤ 4294967296 }
    ensures { OnOk result (out.new.items ≡ out.old.items ++ element_keys program.now 0 program.now.types) }
{
    for (t, _ty) in program.types.as_slice().iter().enumerate() {
        add_key(program, Key::Elem(t as u32), out)?;
    }
    Ok(())
}

/// Adds the keys of the structs' fields.
#[tactic(auto, unfolding(crate::specs::AllKeys::struct_keys))]
fn add_structs(program: &Program, out: &mut Vec<Key>) -> Result<(), AllocError>
    requires { IsSound program.now }
    ensures { OnOk result (out.new.items ≡ out.old.items ++ struct_keys program.now 0 program.now.structs) }
{
    let structs = program.structs.as_slice();
    for (s, def) in structs.iter().enumerate() {
        add_fields(program, s as u32, def.fields.as_slice(), out)?;
    }
    Ok(())
}

/// The keys of a program that name no lock, in their order.
pub(crate) fn all_keys(alloc: Global, program: &Program) -> Result<Vec<Key>, AllocError>
    requires { IsSound program.now }
    ensures { IfOk result (λ keys. keys.items ≡ all_keys program.now) }
{
    let mut keys = Vec::new(alloc);
    add_globals(program, &mut keys)?;
    add_structs(program, &mut keys)?;
    add_elements(program, &mut keys)?;
    Ok(keys)
}
