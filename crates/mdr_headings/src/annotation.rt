// Annotations: how far the pointers of a declaration may be followed.

ghost use Rattle.std.specs.Prelude.{◌≡◌, ◌||◌, Bool, IfOk, Some, is_some, slice_get};
ghost use Rattle.mdr_core.specs.declared.place.Place.{Place};
ghost use Rattle.std.specs.Option.{option_copied};
ghost use Rattle.mdr_core.specs.declared.types.Ty.{out-Ty};
ghost use Rattle.mdr_syntax.specs.declared.tree.Decl.{out-Decl};
ghost use Rattle.mdr_faults.specs.Faults.{told, refuse};
ghost use Rattle.mdr_faults.specs.declared.fault.FaultKind.TheVariants.{BadAnnotation, UnknownName};
ghost use Rattle.mdr_faults.specs.Declarations.{is_same_name};
ghost use Rattle.mdr_core.specs.declared.types.Ann.{Ann};
ghost use Rattle.mdr_headings.specs.Annotations.{is_integer, candidate_by, candidate, as_length, named_constant, named_global, sibling_named, has_sibling, no_length, or_constant};
ghost use Rattle.mdr_headings.specs.Annotations.{or_sibling, or_global, field_suits, length_named, array_length, field_named, sentinel_at, sentinel_among, sentinel_of, target_by};
ghost use Rattle.mdr_headings.specs.Annotations.{array_on, sentinel_on, is_character, points_to_characters, is_data_pointer, suits_if, annotated};

use mdr_core::{Ann, Items, Kind, LenOf, Name, OutOfMemory, Place, Ty};
use mdr_faults::{
    Candidate, Entity, Fault, FaultKind, Named, Scope, copied, declarator_type, entity_named,
    is_scalar, number_constant, small,
};
use mdr_syntax::{AnnText, Const, Decl};
use std::alloc::{AllocError, Global};

fn is_integer(ty: &Ty) -> bool
    ensures { result ≡ is_integer ty.now }
{
    match ty {
        Ty::Int(_) => true,
        Ty::Lock | Ty::Struct(_) | Ty::Ptr(_) | Ty::VoidPtr | Ty::Fun(_) | Ty::Void => false,
    }
}

pub fn copied_name(alloc: Global, name: &Option<Name>) -> Result<Option<Name>, AllocError>
    ensures { IfOk result (λ n. n ≡ name.now) }
{
    match name {
        None => Ok(None),
        Some(bytes) => Ok(Some(copied(alloc, bytes.as_slice())?)),
    }
}

fn candidate_by(name: Option<Name>, is_array: bool, ty: Result<Ty, Fault>) -> Candidate
    ensures { result ≡ candidate_by name is_array ty }
{
    match ty {
        Ok(ty) => Candidate {
            name,
            is_integer: is_integer(&ty) && !is_array,
            is_scalar: is_scalar(&ty) && !is_array,
        },
        Err(_) => Candidate {
            name,
            is_integer: false,
            is_scalar: false,
        },
    }
}

/// A field or a parameter as an annotation sees it.
#[tactic(auto, unfolding(crate::specs::Annotations::candidate))]
pub fn candidate(alloc: Global, scope: &Scope, d: &Decl) -> Result<Candidate, AllocError>
    ensures { IfOk result (λ c. c ≡ candidate scope.now d.now) }
{
    let name = copied_name(alloc, &d.name)?;
    let ty = declarator_type(alloc, scope, d)?;
    Ok(candidate_by(name, d.size.is_some(), ty))
}

fn as_length(number: i128) -> Option<u32>
    ensures { result ≡ as_length number }
{
    if number > 0 && number <= 4294967295 {
        Some(number as u32)
    } else {
        None
    }
}

fn named_constant(entry: Option<&Named>) -> Option<u32>
    ensures { result ≡ named_constant (option_copied entry.entry) }
{
    match entry {
        None => None,
        Some(entry) => match &entry.means {
            Ok(Entity::Constant(c)) => as_length(c.number),
            Ok(Entity::Global(_, _)) | Ok(Entity::Function(_)) | Err(_) => None,
        },
    }
}

fn named_global(entry: Option<&Named>) -> Option<u32>
    ensures { result ≡ named_global (option_copied entry.entry) }
{
    match entry {
        None => None,
        Some(entry) => match &entry.means {
            Ok(Entity::Global(g, object)) => {
                if is_integer(&object.ty) && !object.array {
                    Some(*g)
                } else {
                    None
                }
            }
            Ok(Entity::Constant(_)) | Ok(Entity::Function(_)) | Err(_) => None,
        },
    }
}

fn is_named(c: &Candidate, name: &[u8]) -> bool
    ensures { result ≡ is_same_name c.now.name (Some name.now) }
{
    match &c.name {
        None => false,
        Some(bytes) => bytes.as_slice() == name,
    }
}

#[tactic(auto, unfolding(crate::specs::Annotations::sibling_named))]
fn sibling_position(siblings: &[Candidate], name: &[u8]) -> Option<usize>
    ensures { result ≡ sibling_named siblings.now name.now }
{
    siblings
        .iter()
        .position(|c| is_named(c, name) && c.is_integer)
}

#[tactic(auto, unfolding(crate::specs::Annotations::has_sibling))]
fn has_sibling(siblings: &[Candidate], name: &[u8]) -> bool
    ensures { result ≡ has_sibling siblings.now name.now }
{
    siblings.iter().any(|c| is_named(c, name))
}

#[tactic(auto, unfolding(crate::specs::Annotations::field_named))]
fn field_position(fields: &[Candidate], name: &[u8]) -> Option<usize>
    ensures { result ≡ field_named fields.now name.now }
{
    fields.iter().position(|c| is_named(c, name))
}

fn bad(place: Place) -> Result<Ann, Fault>
    ensures { result ≡ told (refuse {A = Ann} place BadAnnotation) }
{
    Err(Fault {
        place,
        kind: FaultKind::BadAnnotation,
    })
}

fn unknown(place: Place) -> Result<Ann, Fault>
    ensures { result ≡ told (refuse {A = Ann} place UnknownName) }
{
    Err(Fault {
        place,
        kind: FaultKind::UnknownName,
    })
}

/// A length by the number of a field or a parameter, where there is one.
fn sibling_named(siblings: &[Candidate], name: &[u8]) -> Result<Option<u32>, OutOfMemory>
    ensures { IfOk result (λ i. i ≡ sibling_named siblings.now name.now) }
{
    match sibling_position(siblings, name) {
        None => Ok(None),
        Some(i) => Ok(Some(small(i)?)),
    }
}

fn field_named(fields: &[Candidate], name: &[u8]) -> Result<Option<u32>, OutOfMemory>
    ensures { IfOk result (λ i. i ≡ field_named fields.now name.now) }
{
    match field_position(fields, name) {
        None => Ok(None),
        Some(i) => Ok(Some(small(i)?)),
    }
}

fn no_length(is_declared: bool, at: Place, place: Place) -> Result<Ann, Fault>
    ensures { result ≡ told (no_length is_declared at place) }
{
    if is_declared { bad(place) } else { unknown(at) }
}

fn length_by(
    constant: Option<u32>,
    sibling: Option<u32>,
    global: Option<u32>,
    none: Result<Ann, Fault>,
) -> Result<Ann, Fault>
    ensures { (d : Bool) (at p : Place) → none ≡ told (no_length d at p) → result ≡ told (or_constant constant (or_sibling sibling (or_global d at p global))) }
{
    if let Some(n) = constant {
        return Ok(Ann::Array(LenOf::Const(n)));
    }
    if let Some(i) = sibling {
        return Ok(Ann::Array(LenOf::Sibling(i)));
    }
    match global {
        Some(g) => Ok(Ann::Array(LenOf::Global(g))),
        None => none,
    }
}

fn is_known(siblings: &[Candidate], name: &[u8], entry: Option<&Named>) -> bool
    ensures { result ≡ (is_some (option_copied entry.entry) || has_sibling siblings.now name.now) }
{
    entry.is_some() || has_sibling(siblings, name)
}

fn length_named(
    siblings: &[Candidate],
    at: Place,
    place: Place,
    name: &[u8],
    entry: Option<&Named>,
) -> Result<Result<Ann, Fault>, OutOfMemory>
    ensures { IfOk result (λ r. r ≡ told (length_named siblings.now at place name.now (option_copied entry.entry))) }
{
    let sibling = sibling_named(siblings, name)?;
    let none = no_length(is_known(siblings, name, entry), at, place);
    Ok(length_by(named_constant(entry), sibling, named_global(entry), none))
}

fn number_length(place: Place, length: Option<u32>) -> Result<Ann, Fault>
    ensures { result ≡ told (or_constant length (refuse place BadAnnotation)) }
{
    match length {
        Some(n) => Ok(Ann::Array(LenOf::Const(n))),
        None => bad(place),
    }
}

fn array_length(
    scope: &Scope,
    siblings: &[Candidate],
    place: Place,
    c: &Const,
) -> Result<Result<Ann, Fault>, OutOfMemory>
    ensures { IfOk result (λ r. r ≡ told (array_length scope.now siblings.now place c.now)) }
{
    match c {
        Const::Number(_, is_negative, n, kind) => {
            let constant = number_constant(*is_negative, *n, *kind);
            Ok(number_length(place, as_length(constant.number)))
        }
        Const::Name(at, name) => {
            let entry = entity_named(scope, name.as_slice());
            length_named(siblings, *at, place, name.as_slice(), entry)
        }
    }
}

fn array_on(
    scope: &Scope,
    siblings: &[Candidate],
    place: Place,
    c: &Const,
    ty: &Ty,
) -> Result<Result<Ann, Fault>, OutOfMemory>
    ensures { IfOk result (λ r. r ≡ told (array_on scope.now siblings.now place c.now (target_by (out-Ty ty.now)))) }
{
    match ty {
        Ty::Ptr(_) => array_length(scope, siblings, place, c),
        Ty::Int(_) | Ty::Lock | Ty::Struct(_) | Ty::VoidPtr | Ty::Fun(_) | Ty::Void => Ok(bad(
            place,
        )),
    }
}

fn field_suits(fields: &[Candidate], place: Place, f: u32) -> Result<Ann, Fault>
    ensures { result ≡ told (field_suits place f (slice_get fields.now f)) }
{
    match fields.get(f as usize) {
        None => bad(place),
        Some(c) => {
            if c.is_scalar {
                Ok(Ann::Sentinel(f))
            } else {
                bad(place)
            }
        }
    }
}

fn sentinel_at(fields: &[Candidate], at: Place, place: Place, f: Option<u32>) -> Result<Ann, Fault>
    ensures { result ≡ told (sentinel_at fields.now at place f) }
{
    match f {
        None => unknown(at),
        Some(f) => field_suits(fields, place, f),
    }
}

fn sentinel_among(
    scope: &Scope,
    at: Place,
    place: Place,
    name: &[u8],
    s: u32,
) -> Result<Result<Ann, Fault>, OutOfMemory>
    ensures { IfOk result (λ r. r ≡ told (sentinel_among at place name.now (slice_get scope.now.outlines s))) }
{
    match scope.outlines.as_slice().get(s as usize) {
        None => Ok(bad(place)),
        Some(fields) => {
            let f = field_named(fields.as_slice(), name)?;
            Ok(sentinel_at(fields.as_slice(), at, place, f))
        }
    }
}

fn sentinel_of(
    scope: &Scope,
    at: Place,
    place: Place,
    name: &[u8],
    target: &Ty,
) -> Result<Result<Ann, Fault>, OutOfMemory>
    ensures { IfOk result (λ r. r ≡ told (sentinel_of scope.now at place name.now (out-Ty target.now))) }
{
    match target {
        Ty::Struct(s) => sentinel_among(scope, at, place, name, *s),
        Ty::Int(_) | Ty::Lock | Ty::Ptr(_) | Ty::VoidPtr | Ty::Fun(_) | Ty::Void => Ok(bad(place)),
    }
}

fn sentinel_on(
    scope: &Scope,
    at: Place,
    place: Place,
    name: &[u8],
    ty: &Ty,
) -> Result<Result<Ann, Fault>, OutOfMemory>
    ensures { IfOk result (λ r. r ≡ told (sentinel_on scope.now at place name.now (target_by (out-Ty ty.now)))) }
{
    match ty {
        Ty::Ptr(target) => sentinel_of(scope, at, place, name, target.get()),
        Ty::Int(_) | Ty::Lock | Ty::Struct(_) | Ty::VoidPtr | Ty::Fun(_) | Ty::Void => Ok(bad(
            place,
        )),
    }
}

/// Whether it is a type of characters, which texts may fill.
pub fn is_character(ty: &Ty) -> bool
    ensures { result ≡ is_character ty.now }
{
    match ty {
        Ty::Int(Kind::U8) | Ty::Int(Kind::S8) => true,
        Ty::Int(_) | Ty::Lock | Ty::Struct(_) | Ty::Ptr(_) | Ty::VoidPtr | Ty::Fun(_) | Ty::Void =>
            false,
    }
}

fn points_to_characters(ty: &Ty) -> bool
    ensures { result ≡ points_to_characters (target_by (out-Ty ty.now)) }
{
    match ty {
        Ty::Ptr(target) => is_character(target.get()),
        Ty::Int(_) | Ty::Lock | Ty::Struct(_) | Ty::VoidPtr | Ty::Fun(_) | Ty::Void => false,
    }
}

fn is_data_pointer(ty: &Ty) -> bool
    ensures { result ≡ is_data_pointer ty.now }
{
    match ty {
        Ty::Ptr(_) | Ty::VoidPtr => true,
        Ty::Int(_) | Ty::Lock | Ty::Struct(_) | Ty::Fun(_) | Ty::Void => false,
    }
}

fn suits_if(place: Place, suits: bool, ann: Ann) -> Result<Ann, Fault>
    ensures { result ≡ told (suits_if place suits ann) }
{
    if suits { Ok(ann) } else { bad(place) }
}

/// The annotation of a declaration of this type at this place, beside these fields or parameters. What it names is found
/// where the annotation stands, so the declared name itself, too, is in the scope (C99 6.2.1).
pub fn annotated(
    scope: &Scope,
    siblings: &[Candidate],
    place: Place,
    ty: &Ty,
    ann: &Option<AnnText>,
) -> Result<Result<Ann, Fault>, OutOfMemory>
    ensures { IfOk result (λ r. r ≡ told (annotated scope.now siblings.now place ty.now ann.now)) }
{
    match ann {
        None => Ok(Ok(Ann::Single)),
        Some(AnnText::Array(c)) => array_on(scope, siblings, place, c, ty),
        Some(AnnText::Sentinel(at, name)) => sentinel_on(scope, *at, place, name.as_slice(), ty),
        Some(AnnText::NullTerm) => Ok(suits_if(place, points_to_characters(ty), Ann::NullTerm)),
        Some(AnnText::Opaque) => Ok(suits_if(place, is_data_pointer(ty), Ann::Opaque)),
    }
}
