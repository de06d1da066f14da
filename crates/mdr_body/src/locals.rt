// Parameters and locals: what is declared, in which slot, and whether it is an object of its own (C99 6.7, 6.9.1).

ghost use Rattle.std.specs.Prelude.{◌≡◌, ◌++◌, ◌∷◌, not, [], IfOk, OnOk, List, map, length, slice_get, Some, None};
ghost use Rattle.std.specs.Option.{option_map, option_copied};
ghost use Rattle.mdr_core.specs.declared.types.Ty.{Ty};
ghost use Rattle.mdr_faults.specs.declared.scope.Object.{Object};
ghost use Rattle.mdr_faults.specs.Faults.{Checked, told, after, demand};
ghost use Rattle.mdr_faults.specs.declared.fault.FaultKind.TheVariants.{Mismatch};
ghost use Rattle.mdr_syntax.specs.declared.tree.Decl.{Decl, out-Decl};
ghost use Rattle.mdr_operand.specs.Written.{written_of, lines_of};
ghost use Rattle.mdr_headings.specs.Within.{beside, within};
ghost use Rattle.mdr_body.specs.Locals.{flag, holds_lock, object_lock, member_lock, any_lock, locks_behind};
ghost use Rattle.mdr_body.specs.Locals.{struct_locks, without_lock, local_object, is_own_object, lies_apart, name_of};
ghost use Rattle.mdr_body.specs.Locals.{named_local, local_of, is_in_block, is_again, has_place, is_no_constant};
ghost use Rattle.mdr_body.specs.Locals.{has_no_size, local_whole, names_here, local_declared, with_local, takes};
ghost use Rattle.mdr_body.specs.Locals.{entered, left, numbered, parameter_object, parameter_means, parameter_taken};
ghost use Rattle.mdr_body.specs.Locals.{parameters_from, first_here};
ghost use Rattle.mdr_body.specs.Pieces.{named_once};

use crate::address::{perhaps_takes, takes_along};
use crate::here::{DeclaredLocal, Here};
use mdr_core::{Ann, Items, Local, Name, OutOfMemory, Place, Ty};
use mdr_faults::{
    Candidate, Fault, FaultKind, Member, Object, Scope, StructEntry, copied, copied_type, demanded,
    mismatch, object_declared, parameter, small,
};
use mdr_headings::{bare, beside, declared_name, good_params, is_struct, within};
use mdr_operand::{LocalName, local_named};
use mdr_syntax::{Const, Decl, Form, Node};
use std::alloc::{AllocError, Global};
use std::mem;

// ---- which structs hold a lock

fn flag(locks: &[bool], s: u32) -> bool
    ensures { result ≡ flag (slice_get locks.now s) }
{
    match locks.get(s as usize) {
        None => false,
        Some(b) => *b,
    }
}

fn holds_lock(locks: &[bool], ty: &Ty) -> bool
    ensures { result ≡ holds_lock locks.now ty.now }
{
    match ty {
        Ty::Lock => true,
        Ty::Struct(s) => flag(locks, *s),
        Ty::Int(_) | Ty::Ptr(_) | Ty::VoidPtr | Ty::Fun(_) | Ty::Void => false,
    }
}

fn member_lock(locks: &[bool], m: &Member) -> bool
    ensures { result ≡ member_lock locks.now m.now }
{
    match &m.means {
        Ok(o) => holds_lock(locks, &o.ty),
        Err(_) => false,
    }
}

fn any_lock(locks: &[bool], members: &[Member]) -> bool
    ensures { result ≡ any_lock locks.now members.now }
{
    for m in members {
        if member_lock(locks, m) {
            return true;
        }
    }
    false
}

/// Which of the structs hold a lock, in themselves or in their parts.
#[tactic(auto, unfolding(crate::specs::Locals::locks_behind))]
pub fn struct_locks(alloc: Global, structs: &[StructEntry]) -> Result<Items<bool>, AllocError>
    ensures { IfOk result (λ locks. locks ≡ locks_behind [] structs.now) }
{
    let mut locks = Items::new(alloc);
    for s in structs {
        let lock = any_lock(locks.as_slice(), s.members.as_slice());
        locks.push(lock)?;
    }
    Ok(locks)
}

// ---- what a local is

fn without_lock(locks: &[bool], place: Place, o: Object) -> Result<Object, Fault>
    ensures { result ≡ told (without_lock locks.now place o) }
{
    if holds_lock(locks, &o.ty) {
        return mismatch(place);
    }
    Ok(o)
}

/// The object that a local's declaration declares.
#[tactic(auto, unfolding(crate::specs::Locals::local_object))]
pub fn local_object(
    alloc: Global,
    scope: &Scope,
    locks: &[bool],
    d: &Decl,
) -> Result<Result<Object, Fault>, AllocError>
    ensures { IfOk result (λ r. r ≡ told (local_object scope.now locks.now d.now)) }
{
    match object_declared(alloc, scope, d.place, d)? {
        Ok(o) => Ok(without_lock(locks, d.place, o)),
        Err(fault) => Ok(Err(fault)),
    }
}

pub fn is_own_object(is_taken: bool, o: &Object) -> bool
    ensures { result ≡ is_own_object is_taken o.now }
{
    o.array || is_struct(&o.ty) || is_taken
}

fn lies_apart(is_taken: bool, means: &Result<Object, Fault>) -> bool
    ensures { result ≡ lies_apart is_taken means.now }
{
    match means {
        Ok(o) => is_own_object(is_taken, o),
        Err(_) => is_taken,
    }
}

/// A parameter or a local as its uses see it.
#[tactic(auto, unfolding(crate::specs::Locals::named_local))]
fn named_local(
    alloc: Global,
    slot: u32,
    is_taken: bool,
    d: &Decl,
    means: Result<Object, Fault>,
) -> Result<LocalName, AllocError>
    ensures { IfOk result (λ n. n ≡ named_local slot is_taken d.now means) }
{
    let is_object = lies_apart(is_taken, &means);
    Ok(LocalName {
        name: declared_name(alloc, &d.name)?,
        slot,
        is_object,
        means,
    })
}

// ---- a local among those before it

fn is_in_block(first: u32, name: &[u8], n: &LocalName) -> bool
    ensures { result ≡ is_in_block first name.now n.now }
{
    n.slot >= first && n.name.as_slice() == name
}

fn is_again(first: u32, name: &[u8], names: &[LocalName]) -> bool
    ensures { result ≡ is_again first name.now names.now }
{
    for n in names {
        if is_in_block(first, name, n) {
            return true;
        }
    }
    false
}

fn has_place(before: usize, name: &[u8]) -> bool
    ensures { result ≡ has_place before name.now }
{
    before != 64 && name.len() <= 63
}

fn local_of(name: Name, is_taken: bool, o: Object) -> Local
    ensures { (d : Decl) → name ≡ name_of d → result ≡ local_of is_taken d o }
{
    let object = is_own_object(is_taken, &o);
    Local {
        name,
        ty: o.ty,
        count: o.count,
        array: o.array,
        object,
    }
}

fn local_whole(name: Name, is_taken: bool, o: Result<Object, Fault>) -> Result<Local, Fault>
    ensures { (d : Decl) (c : Checked Object) → name ≡ name_of d → o ≡ told c → result ≡ told (local_whole is_taken d c) }
{
    match o {
        Ok(o) => Ok(local_of(name, is_taken, o)),
        Err(fault) => Err(fault),
    }
}

/// Whether it is the name of a parameter or a local, which is no constant.
pub fn is_no_constant(names: &[LocalName], c: &Const) -> bool
    ensures { result ≡ is_no_constant names.now c.now }
{
    match c {
        Const::Number(_, _, _, _) => false,
        Const::Name(_, name) => local_named(names, name.as_slice()).is_some(),
    }
}

fn has_no_size(names: &[LocalName], size: &Option<Const>) -> bool
    ensures { result ≡ has_no_size names.now size.now }
{
    match size {
        None => false,
        Some(c) => is_no_constant(names, c),
    }
}

fn sized_rule(here: &Here, d: &Decl, c: Result<Local, Fault>) -> Result<Local, Fault>
    ensures { (l : Checked Local) → c ≡ told l → result ≡ told (demand (out-Decl d.now).place Mismatch (not (has_no_size here.now.names (out-Decl d.now).size)) l) }
{
    demanded(
        d.place,
        FaultKind::Mismatch,
        !has_no_size(here.names.as_slice(), &d.size),
        c,
    )
}

fn local_rule(
    here: &Here,
    place: Place,
    name: &[u8],
    c: Result<Local, Fault>,
) -> Result<Local, Fault>
    ensures { (d : Checked Local) → c ≡ told d → result ≡ told (named_once here.now place name.now d) }
{
    let few = demanded(
        place,
        FaultKind::Limit,
        has_place(here.locals.len(), name),
        c,
    );
    demanded(
        place,
        FaultKind::Redefined,
        !is_again(here.first, name, here.names.as_slice()),
        few,
    )
}

/// The names of a function as annotations see them.
fn names_here(alloc: Global, names: &[LocalName]) -> Result<Items<Candidate>, AllocError>
    ensures { IfOk result (λ cs. cs ≡ names_here names.now) }
{
    let mut all = Items::new(alloc);
    for n in names {
        all.push(bare(Some(copied(alloc, n.name.as_slice())?)))?;
    }
    Ok(all)
}

/// The annotations within a local's declarator.
fn within_local(
    alloc: Global,
    scope: &Scope,
    here: &Here,
    d: &Decl,
) -> Result<Result<Items<Ann>, Fault>, OutOfMemory>
    ensures { IfOk result (λ r. r ≡ told (within scope.now (names_here here.now.names) d.now)) }
{
    let around = names_here(alloc, here.names.as_slice())?;
    within(alloc, scope, around.as_slice(), d)
}

/// What a local's declaration comes to.
#[tactic(auto, unfolding(crate::specs::Locals::local_declared))]
fn local_declared(
    alloc: Global,
    scope: &Scope,
    locks: &[bool],
    here: &Here,
    is_taken: bool,
    d: &Decl,
) -> Result<Result<Local, Fault>, OutOfMemory>
    ensures { IfOk result (λ r. r ≡ told (local_declared scope.now locks.now here.now is_taken d.now)) }
{
    let name = declared_name(alloc, &d.name)?;
    let again = declared_name(alloc, &d.name)?;
    let dropped = within_local(alloc, scope, here, d)?;
    let o = local_object(alloc, scope, locks, d)?;
    let lone = local_whole(again, is_taken, o);
    let whole = beside(good_params(d), beside(dropped, lone));
    let sized = sized_rule(here, d, whole);
    Ok(local_rule(here, d.place, name.as_slice(), sized))
}

/// A local as its uses see it, in this slot.
fn local_name(
    alloc: Global,
    scope: &Scope,
    locks: &[bool],
    slot: u32,
    is_taken: bool,
    d: &Decl,
) -> Result<LocalName, AllocError>
    ensures { IfOk result (λ n. n ≡ named_local slot is_taken d.now (told (local_object scope.now locks.now d.now))) }
{
    let o = local_object(alloc, scope, locks, d)?;
    named_local(alloc, slot, is_taken, d, o)
}

/// Adds a local, behind which this is the next slot.
fn add_local(
    here: &mut Here,
    named: LocalName,
    declared: DeclaredLocal,
    next: u32,
) -> Result<(), AllocError>
    ensures { OnOk result (here.new ≡ record { names = here.old.names ++ named ∷ []; first = here.old.first; locals = here.old.locals ++ declared ∷ []; slot = next; number = here.old.number }) }
{
    match here.locals.push(declared) {
        Ok(()) => {
            here.names.push(named)?;
            here.slot = next;
            Ok(())
        }
        Err(error) => {
            drop(named);
            Err(error)
        }
    }
}

/// Declares a local.
#[tactic(auto, unfolding(crate::specs::Locals::with_local))]
pub fn declare_local(
    alloc: Global,
    scope: &Scope,
    locks: &[bool],
    is_taken: bool,
    d: &Decl,
    here: &mut Here,
) -> Result<(), OutOfMemory>
    ensures { OnOk result (here.new ≡ with_local scope.now locks.now is_taken d.now here.old) }
{
    let next = small(here.slot as usize + 1)?;
    let means = local_declared(alloc, scope, locks, here, is_taken, d)?;
    match local_name(alloc, scope, locks, here.slot, is_taken, d) {
        Ok(named) => Ok(add_local(here, named, DeclaredLocal { means }, next)?),
        Err(error) => {
            drop(means);
            Err(error.into())
        }
    }
}

// ---- whose addresses are taken

/// Whether the address of a declared name is taken, in its initialiser or in what follows.
pub fn takes(name: &Option<Name>, init: &Option<Form>, rest: &[Node]) -> bool
    ensures { result ≡ takes name.now (option_map written_of init.now) (lines_of rest.now) }
{
    match name {
        None => false,
        Some(name) => {
            perhaps_takes(init, name.as_slice()) || takes_along(rest, name.as_slice(), false)
        }
    }
}

fn parameter_taken(d: &Decl, body: &[Node]) -> bool
    ensures { result ≡ parameter_taken (lines_of body.now) d.now }
{
    match &d.name {
        None => false,
        Some(name) => takes_along(body, name.as_slice(), false),
    }
}

// ---- blocks

/// Behind a block whose names began with so many.
pub fn leave(alloc: Global, names: usize, first: u32, here: &mut Here)
    ensures { (before : Here) → names ≡ length before.names → first ≡ before.first → here.new ≡ left before here.old }
{
    let inner = mem::replace(&mut here.names, Items::new(alloc));
    let mut all = inner.into_vec();
    all.truncate(names);
    here.names = Items::from_vec(all);
    here.first = first;
}

/// Behind a statement's number.
pub fn count(here: &mut Here) -> Result<(), OutOfMemory>
    ensures { OnOk result (here.new ≡ numbered here.old) }
{
    here.number = small(here.number as usize + 1)?;
    Ok(())
}

// ---- parameters

fn parameter_object(ty: Result<Ty, Fault>) -> Result<Object, Fault>
    ensures { (c : Checked Ty) → ty ≡ told c → result ≡ told (after c parameter_object) }
{
    match ty {
        Ok(ty) => Ok(Object {
            ty,
            count: 1,
            array: false,
        }),
        Err(fault) => Err(fault),
    }
}

#[tactic(auto, unfolding(crate::specs::Locals::parameter_means))]
fn parameter_means(
    alloc: Global,
    scope: &Scope,
    d: &Decl,
) -> Result<Result<Object, Fault>, AllocError>
    ensures { IfOk result (λ r. r ≡ told (parameter_means scope.now d.now)) }
{
    Ok(parameter_object(parameter(alloc, scope, d)?))
}

fn named_parameter(
    alloc: Global,
    scope: &Scope,
    body: &[Node],
    slot: u32,
    d: &Decl,
) -> Result<LocalName, AllocError>
    ensures { IfOk result (λ n. n ≡ named_local slot (parameter_taken (lines_of body.now) d.now) d.now (told (parameter_means scope.now d.now))) }
{
    let means = parameter_means(alloc, scope, d)?;
    named_local(alloc, slot, parameter_taken(d, body), d, means)
}

/// The parameters as names.
#[tactic(auto, unfolding(crate::specs::Locals::parameters_from))]
fn parameters(
    alloc: Global,
    scope: &Scope,
    body: &[Node],
    ds: &[Decl],
) -> Result<Items<LocalName>, OutOfMemory>
    ensures { IfOk result (λ ns. ns ≡ parameters_from scope.now (lines_of body.now) 0 ds.now) }
{
    let mut names = Items::new(alloc);
    for i in 0..ds.len() {
        names.push(named_parameter(alloc, scope, body, small(i)?, &ds[i])?)?;
    }
    Ok(names)
}

/// Which parameters are objects of their own.
pub fn parameter_objects(
    alloc: Global,
    body: &[Node],
    ds: &[Decl],
) -> Result<Items<bool>, AllocError>
    ensures { IfOk result (λ os. os ≡ map (parameter_taken (lines_of body.now)) ds.now) }
{
    let mut objects = Items::new(alloc);
    for d in ds {
        objects.push(parameter_taken(d, body))?;
    }
    Ok(objects)
}

/// What is known in front of a body's first statement.
#[tactic(auto, unfolding(crate::specs::Locals::first_here))]
pub fn first_here(
    alloc: Global,
    scope: &Scope,
    body: &[Node],
    ds: &[Decl],
) -> Result<Here, OutOfMemory>
    ensures { IfOk result (λ h. h ≡ first_here scope.now (lines_of body.now) ds.now) }
{
    Ok(Here {
        names: parameters(alloc, scope, body, ds)?,
        first: 0,
        locals: Items::new(alloc),
        slot: small(ds.len())?,
        number: 1,
    })
}
