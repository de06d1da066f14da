// First values of globals (C99 6.7.8).

ghost use Rattle.std.specs.Prelude.{◌≡◌, ◌++◌, ◌∷◌, ◌&&◌, ◌||◌, [], IfOk, List, length, map, not, nat_lt, is_some, is_none, slice_get, position};
ghost use Rattle.std.specs.List.{list_any};
ghost use Rattle.std.specs.Option.{option_copied};
ghost use Rattle.std.specs.Str.{bytes_eq};
ghost use Rattle.mdr_core.specs.declared.types.Ty.{out-Ty};
ghost use Rattle.mdr_syntax.specs.declared.tree.Elem.{out-Elem};
ghost use Rattle.mdr_faults.specs.Faults.{Checked, Right, told, refuse, after};
ghost use Rattle.mdr_faults.specs.declared.fault.FaultKind.TheVariants.{UnknownName};
ghost use Rattle.mdr_faults.specs.Alike.{are_alike};
ghost use Rattle.mdr_check.specs.Initialisers.{null_if, number_first, is_any_pointer_by, null_first, handle_first, entity_first, named_first, constant_first, address_if};
ghost use Rattle.mdr_check.specs.Initialisers.{address_first, located_first, address_named, is_aggregate, sole, single, left_of, characters, has_room, text_by, takes_text};
ghost use Rattle.mdr_check.specs.Initialisers.{text_first, field_of, are_plain, are_named, is_same_field, are_once, elements_first, element_of, array_first, array_rule};
ghost use Rattle.mdr_check.specs.Initialisers.{suits_array, numbered, part_number, placed, placed_at, placed_by, placed_parts, member_first, part_for, members_first, suits_struct};
ghost use Rattle.mdr_check.specs.Initialisers.{struct_first, struct_rule, struct_by, list_by, list_first, initial, part};

use mdr_arith::conv;
use mdr_core::{Items, Kind, Name, Place, Ty};
use mdr_faults::{
    Constant, Entity, Fault, FaultKind, Member, Named, Object, Scope, Signature, are_alike,
    copied_type, demanded, entity_named, extended, followed, is_alike, is_scalar, mismatch,
    number_constant,
};
use mdr_headings::{is_character, is_struct};
use mdr_syntax::{Const, Elem, FieldName, Init};
use std::alloc::{AllocError, Global};

/// A part of a global's first value. Parts stand in the order of their cells.
#[derive(Drop)]
pub enum First {
    /// A cell with this number of this kind.
    Integer(Kind, i128),
    /// A cell with a null pointer.
    Null,
    /// A cell with the address of a global, by its number.
    Address(u32),
    /// A cell with the address of a function, by its number.
    Function(u32),
    /// All cells of an object, each zero, null or a free lock.
    Zeros(Object),
}

/// What a list gives to the member of a struct with this number.
#[derive(Drop)]
pub struct Placed {
    pub member: usize,
    pub first: Items<First>,
}

// ---- single values

fn null_if(place: Place, is_null: bool) -> Result<First, Fault>
    ensures { result ≡ told (null_if place is_null) }
{
    if is_null {
        Ok(First::Null)
    } else {
        mismatch(place)
    }
}

fn number_first(place: Place, is_null: bool, c: Constant, ty: &Ty) -> Result<First, Fault>
    ensures { result ≡ told (number_first place is_null c (out-Ty ty.now)) }
{
    match ty {
        Ty::Int(kind) => Ok(First::Integer(*kind, conv(*kind, c.number))),
        Ty::Ptr(_) | Ty::VoidPtr | Ty::Fun(_) => null_if(place, is_null),
        Ty::Lock | Ty::Struct(_) | Ty::Void => mismatch(place),
    }
}

fn is_any_pointer(ty: &Ty) -> bool
    ensures { result ≡ is_any_pointer_by (out-Ty ty.now) }
{
    match ty {
        Ty::Ptr(_) | Ty::VoidPtr | Ty::Fun(_) => true,
        Ty::Int(_) | Ty::Lock | Ty::Struct(_) | Ty::Void => false,
    }
}

fn null_first(place: Place, ty: &Ty) -> Result<First, Fault>
    ensures { result ≡ told (null_first place ty.now) }
{
    null_if(place, is_any_pointer(ty))
}

/// Whether a pointer to a function of these types may point to this one.
fn is_handle_of(types: &[Ty], s: &Signature) -> bool
    ensures { result ≡ are_alike types.now (s.now.result ∷ s.now.params) }
{
    match types {
        [first, rest @ ..] => is_alike(first, &s.result) && are_alike(rest, s.params.as_slice()),
        [] => false,
    }
}

fn handle_first(place: Place, s: &Signature, ty: &Ty) -> Result<First, Fault>
    ensures { result ≡ told (handle_first place s.now (out-Ty ty.now)) }
{
    match ty {
        Ty::Fun(types) => {
            if is_handle_of(types.as_slice(), s) {
                Ok(First::Function(s.number))
            } else {
                mismatch(place)
            }
        }
        Ty::Int(_) | Ty::Lock | Ty::Struct(_) | Ty::Ptr(_) | Ty::VoidPtr | Ty::Void => {
            mismatch(place)
        }
    }
}

fn entity_first(place: Place, ty: &Ty, entity: &Entity) -> Result<First, Fault>
    ensures { result ≡ told (entity_first place ty.now entity.now) }
{
    match entity {
        Entity::Constant(c) => number_first(place, false, *c, ty),
        Entity::Global(_, _) => mismatch(place),
        Entity::Function(s) => handle_first(place, s, ty),
    }
}

fn named_first(at: Place, place: Place, ty: &Ty, entry: Option<&Named>) -> Result<First, Fault>
    ensures { result ≡ told (named_first at place ty.now (option_copied entry.entry)) }
{
    match entry {
        None => Err(Fault {
            place: at,
            kind: FaultKind::UnknownName,
        }),
        Some(entry) => match &entry.means {
            Ok(entity) => entity_first(place, ty, entity),
            Err(fault) => Err(*fault),
        },
    }
}

fn constant_first(scope: &Scope, place: Place, c: &Const, ty: &Ty) -> Result<First, Fault>
    ensures { result ≡ told (constant_first scope.now place c.now ty.now) }
{
    match c {
        Const::Number(_, is_negative, n, kind) => {
            let is_null = !*is_negative && *n == 0;
            number_first(place, is_null, number_constant(*is_negative, *n, *kind), ty)
        }
        Const::Name(at, name) => named_first(*at, place, ty, entity_named(scope, name.as_slice())),
    }
}

// ---- addresses

fn address_if(place: Place, g: u32, may_be: bool) -> Result<First, Fault>
    ensures { result ≡ told (address_if place g may_be) }
{
    if may_be {
        Ok(First::Address(g))
    } else {
        mismatch(place)
    }
}

fn address_first(
    place: Place,
    may_be: bool,
    g: u32,
    object: &Object,
    ty: &Ty,
) -> Result<First, Fault>
    ensures { result ≡ told (address_first place may_be g object.now (out-Ty ty.now)) }
{
    match ty {
        Ty::Ptr(target) => address_if(place, g, may_be && is_alike(target.get(), &object.ty)),
        Ty::VoidPtr => address_if(place, g, may_be),
        Ty::Int(_) | Ty::Lock | Ty::Struct(_) | Ty::Fun(_) | Ty::Void => mismatch(place),
    }
}

fn located_first(own: u32, place: Place, ty: &Ty, entity: &Entity) -> Result<First, Fault>
    ensures { result ≡ told (located_first own place ty.now entity.now) }
{
    match entity {
        Entity::Constant(_) => mismatch(place),
        Entity::Global(g, object) => address_first(
            place,
            *g < own && !object.array,
            *g,
            object,
            ty,
        ),
        Entity::Function(s) => handle_first(place, s, ty),
    }
}

fn address_named(
    own: u32,
    at: Place,
    place: Place,
    ty: &Ty,
    entry: Option<&Named>,
) -> Result<First, Fault>
    ensures { result ≡ told (address_named own at place ty.now (option_copied entry.entry)) }
{
    match entry {
        None => Err(Fault {
            place: at,
            kind: FaultKind::UnknownName,
        }),
        Some(entry) => match &entry.means {
            Ok(entity) => located_first(own, place, ty, entity),
            Err(fault) => Err(*fault),
        },
    }
}

// ---- what takes a single value

/// Whether an object is an array or a struct.
fn is_aggregate(o: &Object) -> bool
    ensures { result ≡ is_aggregate o.now }
{
    o.array || is_struct(&o.ty)
}

/// The one value of a scalar.
fn sole(
    alloc: Global,
    place: Place,
    ty: &Ty,
    first: First,
) -> Result<Result<Items<First>, Fault>, AllocError>
    ensures { IfOk result (λ r. r ≡ told (sole place ty.now first)) }
{
    if !is_scalar(ty) {
        return Ok(mismatch(place));
    }
    let mut all = Items::new(alloc);
    all.push(first)?;
    Ok(Ok(all))
}

/// A single value for an object.
fn single(
    alloc: Global,
    place: Place,
    o: &Object,
    first: Result<First, Fault>,
) -> Result<Result<Items<First>, Fault>, AllocError>
    ensures { (c : Checked First) → first ≡ told c → IfOk result (λ r. r ≡ told (single place o.now c)) }
{
    if is_aggregate(o) {
        return Ok(mismatch(place));
    }
    match first {
        Ok(first) => sole(alloc, place, &o.ty, first),
        Err(fault) => Ok(Err(fault)),
    }
}

/// The elements behind the first so many.
fn left_of(alloc: Global, o: &Object, n: usize) -> Result<First, AllocError>
    ensures { IfOk result (λ x. x ≡ left_of o.now n) }
{
    let count = (o.count as usize).saturating_sub(n) as u32;
    Ok(First::Zeros(Object {
        ty: copied_type(alloc, &o.ty)?,
        count,
        array: true,
    }))
}

// ---- texts

#[tactic(auto, unfolding(crate::specs::Initialisers::characters))]
fn characters(alloc: Global, kind: Kind, bytes: &[u8]) -> Result<Items<First>, AllocError>
    ensures { IfOk result (λ xs. xs ≡ characters kind bytes.now) }
{
    let mut all = Items::new(alloc);
    for b in bytes {
        all.push(First::Integer(kind, conv(kind, *b as i128)))?;
    }
    Ok(all)
}

/// Whether an array has so many elements.
fn has_room(o: &Object, n: usize) -> bool
    ensures { result ≡ has_room o.now n }
{
    n <= o.count as usize
}

fn fitting_text(
    alloc: Global,
    kind: Kind,
    bytes: &[u8],
    o: &Object,
) -> Result<Items<First>, AllocError>
    ensures { IfOk result (λ xs. xs ≡ characters kind bytes.now ++ left_of o.now (length bytes.now) ∷ []) }
{
    let mut all = characters(alloc, kind, bytes)?;
    let left = left_of(alloc, o, bytes.len())?;
    all.push(left)?;
    Ok(all)
}

/// Whether a text fits into an object: an array of characters with room for all but a closing zero.
pub fn takes_text(o: &Object, n: usize) -> bool
    ensures { result ≡ (takes_text o.now n) }
{
    is_character(&o.ty) && o.array && has_room(o, n)
}

#[tactic(auto, unfolding(crate::specs::Initialisers::text_first))]
fn text_first(
    alloc: Global,
    place: Place,
    bytes: &[u8],
    o: &Object,
) -> Result<Result<Items<First>, Fault>, AllocError>
    ensures { IfOk result (λ r. r ≡ told (text_first place bytes.now o.now)) }
{
    if !takes_text(o, bytes.len()) {
        return Ok(mismatch(place));
    }
    match &o.ty {
        Ty::Int(kind) => Ok(Ok(fitting_text(alloc, *kind, bytes, o)?)),
        Ty::Lock | Ty::Struct(_) | Ty::Ptr(_) | Ty::VoidPtr | Ty::Fun(_) | Ty::Void => {
            Ok(mismatch(place))
        }
    }
}

// ---- lists in braces

fn are_plain(elems: &[Elem]) -> bool
    ensures { result ≡ are_plain field_of elems.now }
{
    elems.iter().all(|e| e.field.is_none())
}

fn are_named(elems: &[Elem]) -> bool
    ensures { result ≡ are_named field_of elems.now }
{
    elems.iter().all(|e| e.field.is_some())
}

fn is_same_field(a: &Option<FieldName>, b: &Option<FieldName>) -> bool
    ensures { result ≡ is_same_field a.now b.now }
{
    match a {
        None => false,
        Some(f) => match b {
            None => false,
            Some(g) => f.name.as_slice() == g.name.as_slice(),
        },
    }
}

fn is_again(elems: &[Elem], field: &Option<FieldName>) -> bool
    ensures { result ≡ list_any (λ e. is_same_field (field_of e) field.now) elems.now }
{
    elems.iter().any(|e| is_same_field(&e.field, field))
}

/// Whether no two elements are for one field.
#[tactic(auto, unfolding(crate::specs::Initialisers::are_once))]
fn are_once(elems: &[Elem]) -> bool
    ensures { result ≡ are_once field_of elems.now }
{
    for i in 0..elems.len() {
        if is_again(&elems[i + 1..], &elems[i].field) {
            return false;
        }
    }
    true
}

fn suits_array(o: &Object, elems: &[Elem]) -> bool
    ensures { result ≡ suits_array field_of o.now elems.now }
{
    are_plain(elems) && has_room(o, elems.len())
}

fn is_uniform(elems: &[Elem]) -> bool
    ensures { result ≡ (are_plain field_of elems.now || are_named field_of elems.now) }
{
    are_plain(elems) || are_named(elems)
}

fn suits_struct(members: &[Member], elems: &[Elem]) -> bool
    ensures { result ≡ suits_struct field_of members.now elems.now }
{
    is_uniform(elems) && are_once(elems) && elems.len() <= members.len()
}

// ---- lists for arrays

fn element_of(alloc: Global, o: &Object) -> Result<Object, AllocError>
    ensures { IfOk result (λ x. x ≡ element_of o.now) }
{
    Ok(Object {
        ty: copied_type(alloc, &o.ty)?,
        count: 1,
        array: false,
    })
}

/// An array's elements, and zeros in those behind them.
fn with_left(
    alloc: Global,
    o: &Object,
    n: usize,
    firsts: Result<Items<First>, Fault>,
) -> Result<Result<Items<First>, Fault>, AllocError>
    ensures { (c : Checked (List First)) → firsts ≡ told c → IfOk result (λ r. r ≡ told (after c (λ xs. Right (xs ++ left_of o.now n ∷ [])))) }
{
    match firsts {
        Ok(mut all) => {
            let left = left_of(alloc, o, n)?;
            all.push(left)?;
            Ok(Ok(all))
        }
        Err(fault) => Ok(Err(fault)),
    }
}

fn array_rule(
    alloc: Global,
    place: Place,
    elems: &[Elem],
    o: &Object,
    firsts: Result<Items<First>, Fault>,
) -> Result<Result<Items<First>, Fault>, AllocError>
    ensures { (c : Checked (List First)) → firsts ≡ told c → IfOk result (λ r. r ≡ told (array_rule place field_of o.now elems.now c)) }
{
    let all = with_left(alloc, o, elems.len(), firsts)?;
    Ok(demanded(place, FaultKind::Mismatch, suits_array(o, elems), all))
}

// ---- lists for structs

fn has_name(m: &Member, name: &Name) -> bool
    ensures { result ≡ bytes_eq m.now.name name.now }
{
    m.name.as_slice() == name.as_slice()
}

fn member_named(members: &[Member], name: &Name) -> Option<usize>
    ensures { result ≡ position (λ m. bytes_eq m.name name.now) members.now }
{
    members.iter().position(|m| has_name(m, name))
}

fn known_member(at: Place, i: Option<usize>) -> Result<usize, Fault>
    ensures { result ≡ told (numbered (refuse at UnknownName) i) }
{
    match i {
        Some(i) => Ok(i),
        None => Err(Fault {
            place: at,
            kind: FaultKind::UnknownName,
        }),
    }
}

/// The number of the member that an element is for.
fn part_number(
    place: Place,
    members: &[Member],
    j: usize,
    field: &Option<FieldName>,
) -> Result<usize, Fault>
    ensures { result ≡ told (part_number place members.now j field.now) }
{
    match field {
        None => Ok(j),
        Some(f) => known_member(f.place, member_named(members, &f.name)),
    }
}

fn placed_first(member: usize, first: Result<Items<First>, Fault>) -> Result<Placed, Fault>
    ensures { (c : Checked (List First)) → first ≡ told c → result ≡ told (placed member c) }
{
    match first {
        Ok(first) => Ok(Placed { member, first }),
        Err(fault) => Err(fault),
    }
}

fn copied_first(alloc: Global, first: &First) -> Result<First, AllocError>
    ensures { IfOk result (λ x. x ≡ first.now) }
{
    match first {
        First::Integer(kind, n) => Ok(First::Integer(*kind, *n)),
        First::Null => Ok(First::Null),
        First::Address(g) => Ok(First::Address(*g)),
        First::Function(f) => Ok(First::Function(*f)),
        First::Zeros(o) => Ok(First::Zeros(copied_object(alloc, o)?)),
    }
}

pub fn copied_object(alloc: Global, o: &Object) -> Result<Object, AllocError>
    ensures { IfOk result (λ x. x ≡ o.now) }
{
    Ok(Object {
        ty: copied_type(alloc, &o.ty)?,
        count: o.count,
        array: o.array,
    })
}

fn copied_firsts(alloc: Global, firsts: &[First]) -> Result<Items<First>, AllocError>
    ensures { IfOk result (λ xs. xs ≡ firsts.now) }
{
    let mut all = Items::new(alloc);
    for first in firsts {
        all.push(copied_first(alloc, first)?)?;
    }
    Ok(all)
}

fn part_for<'a>(parts: &'a [Placed], i: usize) -> Option<&'a Placed>
    ensures { option_copied result ≡ part_for parts.now i }
{
    parts.iter().find(|part| part.member == i)
}

fn zeros(alloc: Global, m: &Member) -> Result<Result<Items<First>, Fault>, AllocError>
    ensures { IfOk result (λ r. r ≡ told (member_first m.now None)) }
{
    match &m.means {
        Ok(o) => {
            let mut all = Items::new(alloc);
            all.push(First::Zeros(copied_object(alloc, o)?))?;
            Ok(Ok(all))
        }
        Err(fault) => Ok(Err(*fault)),
    }
}

/// A member's first value.
fn member_first(
    alloc: Global,
    m: &Member,
    part: Option<&Placed>,
) -> Result<Result<Items<First>, Fault>, AllocError>
    ensures { IfOk result (λ r. r ≡ told (member_first m.now (option_copied part.entry))) }
{
    match part {
        None => zeros(alloc, m),
        Some(part) => Ok(Ok(copied_firsts(alloc, part.first.as_slice())?)),
    }
}

#[tactic(auto, using(mdr_faults::proofs::Gathered::followed_none), unfolding(crate::specs::Initialisers::members_first))]
fn members_first(
    alloc: Global,
    parts: &[Placed],
    members: &[Member],
) -> Result<Result<Items<First>, Fault>, AllocError>
    ensures { IfOk result (λ r. r ≡ told (members_first parts.now 0 members.now)) }
{
    let mut all = Ok(Items::new(alloc));
    for i in 0..members.len() {
        let first = member_first(alloc, &members[i], part_for(parts, i))?;
        all = followed(all, first)?;
    }
    Ok(all)
}

fn arranged(
    alloc: Global,
    members: &[Member],
    parts: Result<Items<Placed>, Fault>,
) -> Result<Result<Items<First>, Fault>, AllocError>
    ensures { (c : Checked (List Placed)) → parts ≡ told c → IfOk result (λ r. r ≡ told (after c (λ parts. members_first parts 0 members.now))) }
{
    match parts {
        Ok(parts) => members_first(alloc, parts.as_slice(), members),
        Err(fault) => Ok(Err(fault)),
    }
}

fn struct_rule(
    alloc: Global,
    place: Place,
    members: &[Member],
    elems: &[Elem],
    parts: Result<Items<Placed>, Fault>,
) -> Result<Result<Items<First>, Fault>, AllocError>
    ensures { (c : Checked (List Placed)) → parts ≡ told c → IfOk result (λ r. r ≡ told (struct_rule place field_of members.now elems.now c)) }
{
    let all = arranged(alloc, members, parts)?;
    Ok(demanded(
        place,
        FaultKind::Mismatch,
        suits_struct(members, elems),
        all,
    ))
}

// ---- initialisers

/// The first value of an object of the global of number `own`, whose name stands at this place.
#[cycle(initial)]
pub fn initial(
    alloc: Global,
    scope: &Scope,
    own: u32,
    place: Place,
    init: &Init,
    o: &Object,
) -> Result<Result<Items<First>, Fault>, AllocError>
    ensures { IfOk result (λ r. r ≡ told (initial scope.now own place init.now o.now)) }
{
    match init {
        Init::Const(c) => single(alloc, place, o, constant_first(scope, place, c, &o.ty)),
        Init::Null(_) => single(alloc, place, o, null_first(place, &o.ty)),
        Init::Address(at, name) => {
            let entry = entity_named(scope, name.as_slice());
            single(
                alloc,
                place,
                o,
                address_named(own, *at, place, &o.ty, entry),
            )
        }
        Init::Text(_, bytes) => text_first(alloc, place, bytes.as_slice(), o),
        Init::List(_, elems) => list_first(alloc, scope, own, place, elems.as_slice(), o),
    }
}

#[cycle(initial)]
#[tactic(auto, unfolding(crate::specs::Initialisers::list_first))]
fn list_first(
    alloc: Global,
    scope: &Scope,
    own: u32,
    place: Place,
    elems: &[Elem],
    o: &Object,
) -> Result<Result<Items<First>, Fault>, AllocError>
    ensures { IfOk result (λ r. r ≡ told (list_first scope.now place (map (part scope.now own place) elems.now) o.now)) }
{
    if o.array {
        return array_first(alloc, scope, own, place, elems, o);
    }
    list_by(alloc, scope, own, place, elems, &o.ty)
}

#[cycle(initial)]
fn array_first(
    alloc: Global,
    scope: &Scope,
    own: u32,
    place: Place,
    elems: &[Elem],
    o: &Object,
) -> Result<Result<Items<First>, Fault>, AllocError>
    ensures { IfOk result (λ r. r ≡ told (array_first place o.now (map (part scope.now own place) elems.now))) }
{
    let element = element_of(alloc, o)?;
    let firsts = elements_first(alloc, scope, own, place, elems, &element)?;
    array_rule(alloc, place, elems, o, firsts)
}

#[cycle(initial)]
#[tactic(auto, using(mdr_faults::proofs::Gathered::followed_none), unfolding(crate::specs::Initialisers::elements_first))]
fn elements_first(
    alloc: Global,
    scope: &Scope,
    own: u32,
    place: Place,
    elems: &[Elem],
    o: &Object,
) -> Result<Result<Items<First>, Fault>, AllocError>
    ensures { IfOk result (λ r. r ≡ told (elements_first o.now (map (part scope.now own place) elems.now))) }
{
    let mut all = Ok(Items::new(alloc));
    for e in elems {
        let first = initial(alloc, scope, own, place, &e.init, o)?;
        all = followed(all, first)?;
    }
    Ok(all)
}

#[cycle(initial)]
fn list_by(
    alloc: Global,
    scope: &Scope,
    own: u32,
    place: Place,
    elems: &[Elem],
    ty: &Ty,
) -> Result<Result<Items<First>, Fault>, AllocError>
    ensures { IfOk result (λ r. r ≡ told (list_by scope.now place (map (part scope.now own place) elems.now) (out-Ty ty.now))) }
{
    match ty {
        Ty::Struct(s) => struct_by(alloc, scope, own, place, elems, *s),
        Ty::Int(_) | Ty::Lock | Ty::Ptr(_) | Ty::VoidPtr | Ty::Fun(_) | Ty::Void => {
            Ok(mismatch(place))
        }
    }
}

#[cycle(initial)]
fn struct_by(
    alloc: Global,
    scope: &Scope,
    own: u32,
    place: Place,
    elems: &[Elem],
    s: u32,
) -> Result<Result<Items<First>, Fault>, AllocError>
    ensures { IfOk result (λ r. r ≡ told (struct_by place (map (part scope.now own place) elems.now) (slice_get scope.now.structs s))) }
{
    match scope.structs.as_slice().get(s as usize) {
        None => Ok(mismatch(place)),
        Some(entry) => struct_first(alloc, scope, own, place, elems, entry.members.as_slice()),
    }
}

#[cycle(initial)]
fn struct_first(
    alloc: Global,
    scope: &Scope,
    own: u32,
    place: Place,
    elems: &[Elem],
    members: &[Member],
) -> Result<Result<Items<First>, Fault>, AllocError>
    ensures { IfOk result (λ r. r ≡ told (struct_first place members.now (map (part scope.now own place) elems.now))) }
{
    let parts = placed_parts(alloc, scope, own, place, elems, members)?;
    struct_rule(alloc, place, members, elems, parts)
}

#[cycle(initial)]
#[tactic(auto, using(mdr_faults::proofs::Gathered::followed_none), unfolding(crate::specs::Initialisers::placed_parts))]
fn placed_parts(
    alloc: Global,
    scope: &Scope,
    own: u32,
    place: Place,
    elems: &[Elem],
    members: &[Member],
) -> Result<Result<Items<Placed>, Fault>, AllocError>
    ensures { IfOk result (λ r. r ≡ told (placed_parts place members.now 0 (map (part scope.now own place) elems.now))) }
{
    let mut all = Ok(Items::new(alloc));
    for i in 0..elems.len() {
        let to = Aggregate {
            members,
            own,
            place,
        };
        let one = placed_part(alloc, scope, to, &elems[i], i)?;
        all = extended(all, one)?;
    }
    Ok(all)
}

/// A struct that is initialised: its members, the number of the global that it lies in, and the place at which is told
/// what doesn't suit.
#[derive(Clone, Copy)]
struct Aggregate<'a> {
    members: &'a [Member],
    own: u32,
    place: Place,
}

#[cycle(initial)]
fn placed_part(
    alloc: Global,
    scope: &Scope,
    to: Aggregate,
    e: &Elem,
    j: usize,
) -> Result<Result<Placed, Fault>, AllocError>
    ensures { IfOk result (λ r. r ≡ told (placed_by to.entry.place to.entry.members.now j (field_of e.now) (initial scope.now to.entry.own to.entry.place (out-Elem e.now).init))) }
{
    match part_number(to.place, to.members, j, &e.field) {
        Ok(i) => placed_at(alloc, scope, to, e, i),
        Err(fault) => Ok(Err(fault)),
    }
}

#[cycle(initial)]
fn placed_at(
    alloc: Global,
    scope: &Scope,
    to: Aggregate,
    e: &Elem,
    i: usize,
) -> Result<Result<Placed, Fault>, AllocError>
    ensures { IfOk result (λ r. r ≡ told (placed_at to.entry.place i (initial scope.now to.entry.own to.entry.place (out-Elem e.now).init) (slice_get to.entry.members.now i))) }
{
    match to.members.get(i) {
        None => Ok(mismatch(to.place)),
        Some(m) => match &m.means {
            Ok(o) => {
                let first = initial(alloc, scope, to.own, to.place, &e.init, o)?;
                Ok(placed_first(i, first))
            }
            Err(fault) => Ok(Err(*fault)),
        },
    }
}
