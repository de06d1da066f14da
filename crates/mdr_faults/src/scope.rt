// What names mean: what the rules of declarations and of bodies speak of (C99 6.2.1, 6.2.3).

ghost use Rattle.std.specs.Prelude.{◌≡◌, is_some};
ghost use Rattle.std.specs.Option.{option_copied};
ghost use Rattle.mdr_faults.specs.Scopes.{entity_among, entity_named, tag_named};

use crate::fault::Fault;
use crate::names::{HasName, Names};
use mdr_core::{Items, Kind, Name, Ty};

/// A constant: its kind and its number, which the kind holds.
#[derive(Clone, Copy)]
pub struct Constant {
    pub kind: Kind,
    pub number: i128,
}

/// What a declarator declares: so many elements of a type, as an array or not. Without brackets it is one.
#[derive(Drop)]
pub struct Object {
    pub ty: Ty,
    pub count: u32,
    pub array: bool,
}

/// A function: its number and its type.
#[derive(Drop)]
pub struct Signature {
    pub number: u32,
    pub result: Ty,
    pub params: Items<Ty>,
}

/// What an ordinary name of the file means.
#[derive(Drop)]
pub enum Entity {
    Constant(Constant),
    /// A global, by its number.
    Global(u32, Object),
    Function(Signature),
}

/// An ordinary name of the file, and what it means or what is wrong with its declaration.
#[derive(Drop)]
pub struct Named {
    pub name: Name,
    pub means: Result<Entity, Fault>,
}

impl HasName for Named {
    ghost name = { λ n. n.name };

    fn name(&self) -> &[u8] {
        self.name.as_slice()
    }
}

/// A struct's name, and its number among the structs that the source defines.
#[derive(Drop)]
pub struct Tag {
    pub name: Name,
    pub number: u32,
}

impl HasName for Tag {
    ghost name = { λ t. t.name };

    fn name(&self) -> &[u8] {
        self.name.as_slice()
    }
}

/// A member of a struct.
#[derive(Drop)]
pub struct Member {
    pub name: Name,
    pub means: Result<Object, Fault>,
}

/// A struct that is complete: its members in their order, and how many cells an element has.
#[derive(Drop)]
pub struct StructEntry {
    pub members: Items<Member>,
    pub cells: Result<u32, Fault>,
}

/// A field or a parameter as an annotation sees it: whether it is an integer, and whether it is a scalar. An array is
/// neither.
#[derive(Drop)]
pub struct Candidate {
    pub name: Option<Name>,
    pub is_integer: bool,
    pub is_scalar: bool,
}

/// What is known at a place of the file outside functions.
#[derive(Drop)]
pub struct Scope {
    /// The structs that the file defines, by their first definitions, anywhere in it.
    pub tags: Names<Tag>,
    /// The constants of `#define`, which hold in the whole file.
    pub defines: Names<Named>,
    /// The ordinary names that were declared so far, in their order.
    pub names: Names<Named>,
    /// The fields of each struct that the file defines, as annotations see them.
    pub outlines: Items<Items<Candidate>>,
    /// The structs that are complete so far, by their numbers.
    pub structs: Items<StructEntry>,
}

/// The first of some names that is this one.
fn among<'a>(names: &'a Names<Named>, name: &[u8]) -> Option<&'a Named>
    ensures { option_copied result ≡ entity_among names.now name.now }
{
    names.find(name)
}

/// What a name means here: the constant that the file defines by it, else the first declaration so far.
pub fn entity_named<'a>(scope: &'a Scope, name: &[u8]) -> Option<&'a Named>
    ensures { option_copied result ≡ entity_named scope.now name.now }
{
    match among(&scope.defines, name) {
        Some(entry) => Some(entry),
        None => among(&scope.names, name),
    }
}

/// The number of a struct.
pub fn tag_named<'a>(scope: &'a Scope, name: &[u8]) -> Option<&'a Tag>
    ensures { option_copied result ≡ tag_named scope.now name.now }
{
    scope.tags.find(name)
}

/// Whether the file has declared this name already.
pub fn is_declared_name(scope: &Scope, name: &[u8]) -> bool
    ensures { result ≡ is_some (entity_among scope.now.names name.now) }
{
    among(&scope.names, name).is_some()
}
