// Names, and the structs that they name.

ghost use Rattle.std.specs.Prelude.{◌≡◌};
ghost use Rattle.std.specs.List.{list_all, list_any, position};
ghost use Rattle.mdr_syntax.specs.Bytes.{is_name_byte};
ghost use Rattle.mdr_plan.specs.Naming.{begins_name, is_name, is_named, is_new, small, struct_number, any_struct, naming};

use crate::front::is_name_byte;
use mdr_core::Name;
use mdr_syntax::is_reserved;

fn begins_name(name: &[u8]) -> bool
    ensures { result ≡ begins_name name.now }
{
    match name {
        [first, ..] => first.is_ascii_alphabetic() || *first == b'_',
        [] => false,
    }
}

fn are_name_bytes(name: &[u8]) -> bool
    ensures { result ≡ list_all is_name_byte name.now }
{
    name.iter().all(|b| is_name_byte(*b))
}

/// Whether it is a name, and no reserved word.
#[tactic(auto, unfolding(crate::specs::Naming::is_name))]
pub fn is_name(name: &[u8]) -> bool
    ensures { result ≡ is_name name.now }
{
    begins_name(name) && are_name_bytes(name) && !is_reserved(name)
}

fn has_name(names: &[Name], name: &[u8]) -> bool
    ensures { result ≡ list_any (is_named name.now) names.now }
{
    names.iter().any(|other| other.as_slice() == name)
}

/// Whether it is a name that none of these is.
#[tactic(auto, unfolding(crate::specs::Naming::is_new))]
pub fn is_new(names: &[Name], name: &[u8]) -> bool
    ensures { result ≡ is_new names.now name.now }
{
    is_name(name) && !has_name(names, name)
}

fn name_position(names: &[Name], name: &[u8]) -> Option<usize>
    ensures { result ≡ position (is_named name.now) names.now }
{
    names.iter().position(|other| other.as_slice() == name)
}

fn small(n: usize) -> Option<u32>
    ensures { result ≡ small n }
{
    if n < 1 << 32 { Some(n as u32) } else { None }
}

#[tactic(auto, unfolding(crate::specs::Naming::struct_number))]
fn struct_number(names: &[Name], name: &[u8]) -> Option<u32>
    ensures { result ≡ struct_number names.now name.now }
{
    match name_position(names, name) {
        Some(n) => small(n),
        None => None,
    }
}

#[tactic(auto, unfolding(crate::specs::Naming::any_struct))]
fn any_struct(name: &[u8]) -> Option<u32>
    ensures { result ≡ any_struct name.now }
{
    if is_name(name) { Some(0) } else { None }
}

/// The number of the struct of this name, which is one of these or any.
#[tactic(auto, unfolding(crate::specs::Naming::naming))]
pub fn number_of_struct(any: bool, names: &[Name], name: &[u8]) -> Option<u32>
    ensures { result ≡ naming any names.now name.now }
{
    if any {
        any_struct(name)
    } else {
        struct_number(names, name)
    }
}
