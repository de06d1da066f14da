// Structs (C99 6.7.2.1).

ghost use Rattle.std.specs.Prelude.{◌≡◌, [], IfOk, List, map};
ghost use Rattle.mdr_core.specs.declared.program.Field.{Field};
ghost use Rattle.mdr_faults.specs.declared.scope.Object.{Object};
ghost use Rattle.mdr_faults.specs.Faults.{Checked, told, after};
ghost use Rattle.mdr_headings.specs.Annotations.{candidate};
ghost use Rattle.mdr_faults.specs.Declarations.{cells_of, object_declared};
ghost use Rattle.mdr_headings.specs.Structs.{is_struct, name_or_none, annotated_field, field_among, fields_behind, number_or_zero, cells_of_fields};
ghost use Rattle.mdr_headings.specs.Structs.{may_follow, member, struct_rule, struct_fields, struct_size, struct_entry};
ghost use Rattle.mdr_headings.specs.Within.{beside, within};

use crate::annotation::annotated;
use crate::inner::{beside, candidates, within};
use mdr_core::{Field, Items, Name, OutOfMemory, Place, Ty};
use mdr_faults::{
    Candidate, Fault, FaultKind, Member, Object, Scope, StructEntry, cells_of, copied, demanded,
    extended, is_declared, mismatch, object_declared,
};
use mdr_syntax::Decl;
use std::alloc::{AllocError, Global};

pub fn is_struct(ty: &Ty) -> bool
    ensures { result ≡ is_struct ty.now }
{
    match ty {
        Ty::Struct(_) => true,
        Ty::Int(_) | Ty::Lock | Ty::Ptr(_) | Ty::VoidPtr | Ty::Fun(_) | Ty::Void => false,
    }
}

/// A declared name once more. Only parameters may have none.
pub fn declared_name(alloc: Global, name: &Option<Name>) -> Result<Name, AllocError>
    ensures { IfOk result (λ n. n ≡ name_or_none name.now) }
{
    match name {
        None => Ok(Items::new(alloc)),
        Some(bytes) => copied(alloc, bytes.as_slice()),
    }
}

/// A field with its annotation.
#[tactic(auto, unfolding(crate::specs::Structs::annotated_field))]
fn annotated_field(
    alloc: Global,
    scope: &Scope,
    siblings: &[Candidate],
    d: &Decl,
    object: Object,
) -> Result<Result<Field, Fault>, OutOfMemory>
    ensures { IfOk result (λ r. r ≡ told (annotated_field scope.now siblings.now d.now object)) }
{
    match annotated(scope, siblings, d.place, &object.ty, &d.ann)? {
        Ok(ann) => Ok(Ok(Field {
            name: declared_name(alloc, &d.name)?,
            ty: object.ty,
            count: object.count,
            array: object.array,
            ann,
        })),
        Err(fault) => Ok(Err(fault)),
    }
}

/// A field by itself.
fn lone_field(
    alloc: Global,
    scope: &Scope,
    limit: Place,
    siblings: &[Candidate],
    d: &Decl,
) -> Result<Result<Field, Fault>, OutOfMemory>
    ensures { IfOk result (λ r. r ≡ told (after (object_declared scope.now limit d.now) (annotated_field scope.now siblings.now d.now))) }
{
    match object_declared(alloc, scope, limit, d)? {
        Ok(object) => annotated_field(alloc, scope, siblings, d, object),
        Err(fault) => Ok(Err(fault)),
    }
}

/// A field, and the annotations within its declarator.
fn whole_field(
    alloc: Global,
    scope: &Scope,
    limit: Place,
    siblings: &[Candidate],
    d: &Decl,
) -> Result<Result<Field, Fault>, OutOfMemory>
    ensures { IfOk result (λ r. r ≡ told (beside (within scope.now [] d.now) (after (object_declared scope.now limit d.now) (annotated_field scope.now siblings.now d.now)))) }
{
    let dropped = within(alloc, scope, &[], d)?;
    let kept = lone_field(alloc, scope, limit, siblings, d)?;
    Ok(beside(dropped, kept))
}

fn field_rule(before: &[Decl], d: &Decl, field: Result<Field, Fault>) -> Result<Field, Fault>
    ensures { (c : Checked Field) → field ≡ told c → result ≡ told (may_follow before.now d.now c) }
{
    let few = demanded(d.place, FaultKind::Limit, before.len() != 64, field);
    demanded(
        d.place,
        FaultKind::Redefined,
        !is_declared(before, &d.name),
        few,
    )
}

/// A field among those before it.
#[tactic(auto, unfolding(crate::specs::Structs::field_among))]
fn field_among(
    alloc: Global,
    scope: &Scope,
    limit: Place,
    siblings: &[Candidate],
    before: &[Decl],
    d: &Decl,
) -> Result<Result<Field, Fault>, OutOfMemory>
    ensures { IfOk result (λ r. r ≡ told (field_among scope.now limit siblings.now before.now d.now)) }
{
    let field = whole_field(alloc, scope, limit, siblings, d)?;
    Ok(field_rule(before, d, field))
}

/// The fields of a struct, each among those before it.
#[tactic(auto, using(mdr_faults::proofs::Gathered::followed_none), unfolding(crate::specs::Structs::fields_behind))]
fn fields(
    alloc: Global,
    scope: &Scope,
    limit: Place,
    siblings: &[Candidate],
    ds: &[Decl],
) -> Result<Result<Items<Field>, Fault>, OutOfMemory>
    ensures { IfOk result (λ r. r ≡ told (fields_behind scope.now limit siblings.now [] ds.now)) }
{
    let mut all = Ok(Items::new(alloc));
    for i in 0..ds.len() {
        let d = &ds[i];
        let field = field_among(alloc, scope, limit, siblings, &ds[..i], d)?;
        all = extended(all, field)?;
    }
    Ok(all)
}

fn cells_or_zero(scope: &Scope, place: Place, ty: &Ty) -> u32
    ensures { result ≡ number_or_zero (cells_of scope.now place ty.now) }
{
    match cells_of(scope, place, ty) {
        Ok(cells) => cells,
        Err(_) => 0,
    }
}

/// How many cells some fields have.
#[tactic(auto, unfolding(crate::specs::Structs::cells_of_fields))]
fn cells_of_fields(scope: &Scope, place: Place, fields: &[Field]) -> u128
    ensures { result ≡ cells_of_fields scope.now place fields.now }
{
    let mut total: u128 = 0;
    for x in fields {
        total += x.count as u128 * cells_or_zero(scope, place, &x.ty) as u128;
    }
    total
}

/// How many cells a struct of these fields has.
fn struct_size(scope: &Scope, place: Place, fields: &[Field]) -> Result<u32, Fault>
    ensures { result ≡ told (struct_size scope.now place fields.now) }
{
    let cells = cells_of_fields(scope, place, fields);
    if cells > 65536 {
        return Err(Fault {
            place,
            kind: FaultKind::Limit,
        });
    }
    Ok(cells as u32)
}

fn struct_rule(scope: &Scope, place: Place, fields: Items<Field>) -> Result<Items<Field>, Fault>
    ensures { result ≡ told (struct_rule scope.now place fields) }
{
    if fields.is_empty() {
        return mismatch(place);
    }
    match struct_size(scope, place, fields.as_slice()) {
        Ok(_) => Ok(fields),
        Err(fault) => Err(fault),
    }
}

/// The fields of the struct whose name stands at this place.
#[tactic(auto, unfolding(crate::specs::Structs::struct_fields))]
pub fn struct_fields(
    alloc: Global,
    scope: &Scope,
    place: Place,
    ds: &[Decl],
) -> Result<Result<Items<Field>, Fault>, OutOfMemory>
    ensures { IfOk result (λ r. r ≡ told (struct_fields scope.now place ds.now)) }
{
    let siblings = candidates(alloc, scope, ds)?;
    match fields(alloc, scope, place, siblings.as_slice(), ds)? {
        Ok(fields) => Ok(struct_rule(scope, place, fields)),
        Err(fault) => Ok(Err(fault)),
    }
}

/// A member as its uses see it.
#[tactic(auto, unfolding(crate::specs::Structs::member))]
fn member(alloc: Global, scope: &Scope, limit: Place, d: &Decl) -> Result<Member, AllocError>
    ensures { IfOk result (λ m. m ≡ member scope.now limit d.now) }
{
    Ok(Member {
        name: declared_name(alloc, &d.name)?,
        means: object_declared(alloc, scope, limit, d)?,
    })
}

fn members(
    alloc: Global,
    scope: &Scope,
    limit: Place,
    ds: &[Decl],
) -> Result<Items<Member>, AllocError>
    ensures { IfOk result (λ ms. ms ≡ map (member scope.now limit) ds.now) }
{
    let mut all = Items::new(alloc);
    for d in ds {
        all.push(member(alloc, scope, limit, d)?)?;
    }
    Ok(all)
}

fn size_told(scope: &Scope, place: Place, fields: Result<Items<Field>, Fault>) -> Result<u32, Fault>
    ensures { (c : Checked (List Field)) → fields ≡ told c → result ≡ told (after c (struct_size scope.now place)) }
{
    match fields {
        Ok(fields) => struct_size(scope, place, fields.as_slice()),
        Err(fault) => Err(fault),
    }
}

/// What is known of a struct behind its declaration.
#[tactic(auto, unfolding(crate::specs::Structs::struct_entry))]
pub fn struct_entry(
    alloc: Global,
    scope: &Scope,
    place: Place,
    ds: &[Decl],
) -> Result<StructEntry, OutOfMemory>
    ensures { IfOk result (λ e. e ≡ struct_entry scope.now place ds.now) }
{
    let fields = struct_fields(alloc, scope, place, ds)?;
    Ok(StructEntry {
        members: members(alloc, scope, place, ds)?,
        cells: size_told(scope, place, fields),
    })
}
