// Members (C99 6.5.2.3).

ghost use Rattle.std.specs.Prelude.{◌≡◌, IfOk, slice_get};
ghost use Rattle.std.specs.Option.{option_copied};
ghost use Rattle.mdr_faults.specs.Faults.{Checked, told};
ghost use Rattle.mdr_operand.specs.declared.operand.Operand.{Operand};
ghost use Rattle.mdr_rich.specs.declared.code.Lval.TheVariants as lval;
ghost use Rattle.mdr_postfix.specs.Members.{object_of, object_at, target, target_located, located, struct_of, struct_entry, member_numbered};
ghost use Rattle.mdr_postfix.specs.Members.{member_position, member_among, member_named, member_operand, member_in, member_of, member_rule};

use crate::located::{Located, given_up, nothing};
use crate::name::{copied_object, object_operand};
use mdr_core::{Boxed, OutOfMemory, Place, Ty};
use mdr_faults::{Fault, FaultKind, Member, Object, Scope, StructEntry, copied_type, small};
use mdr_operand::{Operand, Pointer, needed, pointer_at};
use mdr_rich::Lval;
use std::alloc::{AllocError, Global};

/// A member: its number in its struct, and what it is.
#[derive(Drop)]
pub struct Found {
    pub number: u32,
    pub object: Object,
}

fn object_of(x: Operand) -> Option<Located>
    ensures { result ≡ object_of x }
{
    match x {
        Operand::Value(v) => nothing(v),
        Operand::Zero(_) | Operand::Null => None,
        Operand::Object(lval, ty) => Some(Located { lval, ty }),
        Operand::Array(lval, ty, _) => nothing(Located { lval, ty }),
        Operand::Function(_, types) => nothing(types),
    }
}

#[tactic(auto, unfolding(crate::specs::Members::object_at))]
fn object_at(place: Place, x: Operand) -> Result<Located, Fault>
    ensures { result ≡ told (object_at place x) }
{
    needed(place, object_of(x))
}

fn target(alloc: Global, x: Pointer) -> Result<Located, AllocError>
    ensures { IfOk result (λ y. y ≡ target x) }
{
    Ok(Located {
        lval: Lval::Deref(Boxed::new(alloc, x.value)?),
        ty: x.ty,
    })
}

#[tactic(auto, unfolding(crate::specs::Members::target_located))]
fn target_located(
    alloc: Global,
    place: Place,
    x: Operand,
) -> Result<Result<Located, Fault>, AllocError>
    ensures { IfOk result (λ r. r ≡ told (target_located place x)) }
{
    match pointer_at(place, x) {
        Ok(x) => Ok(Ok(target(alloc, x)?)),
        Err(fault) => Ok(Err(fault)),
    }
}

#[tactic(auto, unfolding(crate::specs::Members::located))]
fn located(
    alloc: Global,
    place: Place,
    is_arrow: bool,
    x: Operand,
) -> Result<Result<Located, Fault>, AllocError>
    ensures { IfOk result (λ r. r ≡ told (located place is_arrow x)) }
{
    if is_arrow {
        target_located(alloc, place, x)
    } else {
        Ok(object_at(place, x))
    }
}

fn struct_of(ty: &Ty) -> Option<u32>
    ensures { result ≡ struct_of ty.now }
{
    match ty {
        Ty::Struct(s) => Some(*s),
        Ty::Int(_) | Ty::Lock | Ty::Ptr(_) | Ty::VoidPtr | Ty::Fun(_) | Ty::Void => None,
    }
}

fn struct_entry<'a>(scope: &'a Scope, number: Option<u32>) -> Option<&'a StructEntry>
    ensures { option_copied result ≡ struct_entry scope.now number }
{
    match number {
        None => None,
        Some(s) => scope.structs.as_slice().get(s as usize),
    }
}

fn member_numbered(
    alloc: Global,
    at: Place,
    number: usize,
    member: Option<&Member>,
) -> Result<Result<Found, Fault>, OutOfMemory>
    ensures { IfOk result (λ r. r ≡ told (member_numbered at number (option_copied member.entry))) }
{
    match member {
        None => Ok(Err(Fault {
            place: at,
            kind: FaultKind::UnknownName,
        })),
        Some(member) => match &member.means {
            Ok(o) => Ok(Ok(Found {
                number: small(number)?,
                object: copied_object(alloc, o)?,
            })),
            Err(fault) => Ok(Err(*fault)),
        },
    }
}

#[tactic(auto, unfolding(crate::specs::Members::member_position))]
fn member_position(members: &[Member], name: &[u8]) -> Option<usize>
    ensures { result ≡ member_position members.now name.now }
{
    members.iter().position(|m| m.name.as_slice() == name)
}

#[tactic(auto, unfolding(crate::specs::Members::member_among))]
fn member_among(
    alloc: Global,
    at: Place,
    name: &[u8],
    entry: &StructEntry,
) -> Result<Result<Found, Fault>, OutOfMemory>
    ensures { IfOk result (λ r. r ≡ told (member_among at name.now entry.now)) }
{
    let members = entry.members.as_slice();
    match member_position(members, name) {
        None => Ok(Err(Fault {
            place: at,
            kind: FaultKind::UnknownName,
        })),
        Some(number) => member_numbered(alloc, at, number, members.get(number)),
    }
}

#[tactic(auto, unfolding(crate::specs::Members::member_named))]
fn member_named(
    alloc: Global,
    scope: &Scope,
    place: Place,
    at: Place,
    name: &[u8],
    ty: &Ty,
) -> Result<Result<Found, Fault>, OutOfMemory>
    ensures { IfOk result (λ r. r ≡ told (member_named scope.now place at name.now ty.now)) }
{
    match struct_entry(scope, struct_of(ty)) {
        None => Ok(Err(Fault {
            place,
            kind: FaultKind::Mismatch,
        })),
        Some(entry) => member_among(alloc, at, name, entry),
    }
}

fn member_place(alloc: Global, whole: Lval, number: u32, ty: &Ty) -> Result<Lval, AllocError>
    ensures { IfOk result (λ l. l ≡ lval.Member whole number ty.now) }
{
    let whole = Boxed::new(alloc, whole)?;
    Ok(Lval::Member(whole, number, copied_type(alloc, ty)?))
}

fn member_operand(alloc: Global, x: Located, member: Found) -> Result<Operand, AllocError>
    ensures { IfOk result (λ y. y ≡ member_operand x member) }
{
    let place = member_place(alloc, x.lval, member.number, &member.object.ty)?;
    Ok(object_operand(place, member.object))
}

#[tactic(auto, unfolding(crate::specs::Members::member_in))]
fn member_in(
    alloc: Global,
    scope: &Scope,
    place: Place,
    at: Place,
    name: &[u8],
    x: Located,
) -> Result<Result<Operand, Fault>, OutOfMemory>
    ensures { IfOk result (λ r. r ≡ told (member_in scope.now place at name.now x)) }
{
    match member_named(alloc, scope, place, at, name, &x.ty)? {
        Ok(member) => Ok(Ok(member_operand(alloc, x, member)?)),
        Err(fault) => Ok(given_up(fault, x)),
    }
}

#[tactic(auto, unfolding(crate::specs::Members::member_of))]
fn member_of(
    alloc: Global,
    scope: &Scope,
    place: Place,
    at: Place,
    is_arrow: bool,
    name: &[u8],
    x: Operand,
) -> Result<Result<Operand, Fault>, OutOfMemory>
    ensures { IfOk result (λ r. r ≡ told (member_of scope.now place at is_arrow name.now x)) }
{
    match located(alloc, place, is_arrow, x)? {
        Ok(x) => member_in(alloc, scope, place, at, name, x),
        Err(fault) => Ok(Err(fault)),
    }
}

/// A member, at its own place, of the form at this one (C99 6.5.2.3).
#[tactic(auto, unfolding(crate::specs::Members::member_rule))]
pub fn member_rule(
    alloc: Global,
    scope: &Scope,
    place: Place,
    at: Place,
    is_arrow: bool,
    name: &[u8],
    x: Result<Operand, Fault>,
) -> Result<Result<Operand, Fault>, OutOfMemory>
    ensures { IfOk result (λ r. (c : Checked Operand) → x ≡ told c → r ≡ told (member_rule scope.now place at is_arrow name.now c)) }
{
    match x {
        Ok(x) => member_of(alloc, scope, place, at, is_arrow, name, x),
        Err(fault) => Ok(Err(fault)),
    }
}
