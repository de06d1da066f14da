// Whether the keys of a plan name something.

ghost use Rattle.std.specs.Prelude.{◌≡◌, is_some};
ghost use Rattle.std.specs.List.{list_all};
ghost use Rattle.std.specs.Option.{option_copied};
ghost use Rattle.mdr_core.specs.Layout.{fields_of};
ghost use Rattle.mdr_core.specs.Suited.{is_lock};
ghost use Rattle.mdr_check_half.specs.Suiting.{named_type, names_something, is_free, names_no_lock, each_key};

use mdr_core::{Field, Items, Key, StructDef, Ty};
use mdr_program::Parts;

/// The fields of a struct.
fn fields(structs: &[StructDef], s: u32) -> &[Field]
    ensures { result.now ≡ fields_of structs.now s }
{
    match structs.get(s as usize) {
        Some(def) => def.fields.as_slice(),
        None => &[],
    }
}

/// The type of what a key names.
fn named_type<'a>(types: &'a [Ty], parts: &'a Parts, key: Key) -> Option<&'a Ty>
    ensures { option_copied result ≡ named_type types.now parts.now key }
{
    match key {
        Key::Global(g) => match parts.variables.as_slice().get(g as usize) {
            Some(v) => Some(&v.object.ty),
            None => None,
        },
        Key::Field(s, f) => match fields(parts.structs.as_slice(), s).get(f as usize) {
            Some(x) => Some(&x.ty),
            None => None,
        },
        Key::Elem(t) => types.get(t as usize),
    }
}

fn names_something(types: &[Ty], parts: &Parts, key: Key) -> bool
    ensures { result ≡ names_something types.now parts.now key }
{
    named_type(types, parts, key).is_some()
}

fn is_lock(ty: &Ty) -> bool
    ensures { result ≡ is_lock ty.now }
{
    match ty {
        Ty::Lock => true,
        Ty::Int(_) | Ty::Struct(_) | Ty::Ptr(_) | Ty::VoidPtr | Ty::Fun(_) | Ty::Void => false,
    }
}

fn names_no_lock(types: &[Ty], parts: &Parts, key: Key) -> bool
    ensures { result ≡ names_no_lock types.now parts.now key }
{
    match named_type(types, parts, key) {
        Some(ty) => !is_lock(ty),
        None => true,
    }
}

fn name_something(types: &[Ty], parts: &Parts, keys: &[Key]) -> bool
    ensures { result ≡ list_all (λ k. names_something types.now parts.now k) keys.now }
{
    keys.iter().all(|key| names_something(types, parts, *key))
}

fn name_no_lock(types: &[Ty], parts: &Parts, keys: &[Key]) -> bool
    ensures { result ≡ list_all (λ k. names_no_lock types.now parts.now k) keys.now }
{
    keys.iter().all(|key| names_no_lock(types, parts, *key))
}

/// Whether each key of these lists names a global, a field or a type.
pub fn all_name_something(types: &[Ty], parts: &Parts, lists: &[Items<Key>]) -> bool
    ensures { result ≡ each_key (λ k. names_something types.now parts.now k) lists.now }
{
    lists
        .iter()
        .all(|keys| name_something(types, parts, keys.as_slice()))
}

/// Whether no key of these lists names a lock or an array of locks.
pub fn none_names_a_lock(types: &[Ty], parts: &Parts, lists: &[Items<Key>]) -> bool
    ensures { result ≡ each_key (λ k. names_no_lock types.now parts.now k) lists.now }
{
    lists
        .iter()
        .all(|keys| name_no_lock(types, parts, keys.as_slice()))
}
