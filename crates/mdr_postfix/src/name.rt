// Names (C99 6.5.1).

ghost use Rattle.std.specs.Prelude.{◌≡◌, ◌∷◌, IfOk};
ghost use Rattle.std.specs.Option.{option_copied};
ghost use Rattle.mdr_faults.specs.Faults.{told};
ghost use Rattle.mdr_rich.specs.declared.code.Lval.TheVariants as lval;
ghost use Rattle.mdr_postfix.specs.Names.{object_operand, constant_operand, entity_operand, file_name, place_of_local, local_operand, name_rule};

use mdr_core::{Items, Place, Ty, Value};
use mdr_faults::{
    Constant, Entity, Fault, FaultKind, Named, Object, Scope, Signature, copied_type, copied_types,
    entity_named,
};
use mdr_operand::{LocalName, Operand, local_named, number};
use mdr_rich::{Expr, Lval};
use std::alloc::{AllocError, Global};

/// An object by its lvalue.
pub fn object_operand(lval: Lval, object: Object) -> Operand
    ensures { result ≡ object_operand lval object }
{
    if object.array {
        Operand::Array(lval, object.ty, object.count)
    } else {
        Operand::Object(lval, object.ty)
    }
}

/// The same object once more.
pub fn copied_object(alloc: Global, object: &Object) -> Result<Object, AllocError>
    ensures { IfOk result (λ o. o ≡ object.now) }
{
    Ok(Object {
        ty: copied_type(alloc, &object.ty)?,
        count: object.count,
        array: object.array,
    })
}

fn constant_operand(c: Constant) -> Operand
    ensures { result ≡ constant_operand c }
{
    number(Expr::Lit(Value::Int(c.kind, c.number)), c.kind)
}

/// The types of a function's result and parameters as one list.
fn with_first(first: Ty, rest: Items<Ty>) -> Result<Items<Ty>, AllocError>
    ensures { IfOk result (λ ts. ts ≡ first ∷ rest) }
{
    let mut types = rest.into_vec();
    types.insert(0, first)?;
    Ok(Items::from_vec(types))
}

/// A function's result, and then its parameters.
fn signature_types(alloc: Global, f: &Signature) -> Result<Items<Ty>, AllocError>
    ensures { IfOk result (λ types. types ≡ f.now.result ∷ f.now.params) }
{
    let params = copied_types(alloc, f.params.as_slice())?;
    with_first(copied_type(alloc, &f.result)?, params)
}

fn global_operand(alloc: Global, g: u32, o: &Object) -> Result<Operand, AllocError>
    ensures { IfOk result (λ x. x ≡ object_operand (lval.Global g o.now.ty) o.now) }
{
    let object = copied_object(alloc, o)?;
    Ok(object_operand(Lval::Global(g, copied_type(alloc, &o.ty)?), object))
}

#[tactic(auto, unfolding(crate::specs::Names::entity_operand))]
fn entity_operand(alloc: Global, entity: &Entity) -> Result<Operand, AllocError>
    ensures { IfOk result (λ x. x ≡ entity_operand entity.now) }
{
    match entity {
        Entity::Constant(c) => Ok(constant_operand(*c)),
        Entity::Global(g, o) => global_operand(alloc, *g, o),
        Entity::Function(f) => Ok(Operand::Function(f.number, signature_types(alloc, f)?)),
    }
}

#[tactic(auto, unfolding(crate::specs::Names::file_name))]
fn file_name(
    alloc: Global,
    place: Place,
    entry: Option<&Named>,
) -> Result<Result<Operand, Fault>, AllocError>
    ensures { IfOk result (λ r. r ≡ told (file_name place (option_copied entry.entry))) }
{
    match entry {
        None => Ok(Err(Fault {
            place,
            kind: FaultKind::UnknownName,
        })),
        Some(entry) => match &entry.means {
            Ok(entity) => Ok(Ok(entity_operand(alloc, entity)?)),
            Err(fault) => Ok(Err(*fault)),
        },
    }
}

fn place_of_local(local: &LocalName, ty: Ty) -> Lval
    ensures { result ≡ place_of_local local.now ty }
{
    if local.is_object {
        Lval::Object(local.slot, ty)
    } else {
        Lval::Slot(local.slot, ty)
    }
}

fn object_of_local(alloc: Global, local: &LocalName, o: &Object) -> Result<Operand, AllocError>
    ensures { IfOk result (λ x. x ≡ object_operand (place_of_local local.now o.now.ty) o.now) }
{
    let object = copied_object(alloc, o)?;
    let ty = copied_type(alloc, &o.ty)?;
    Ok(object_operand(place_of_local(local, ty), object))
}

#[tactic(auto, unfolding(crate::specs::Names::local_operand))]
fn local_operand(alloc: Global, local: &LocalName) -> Result<Result<Operand, Fault>, AllocError>
    ensures { IfOk result (λ r. r ≡ told (local_operand local.now)) }
{
    match &local.means {
        Ok(o) => Ok(Ok(object_of_local(alloc, local, o)?)),
        Err(fault) => Ok(Err(*fault)),
    }
}

/// A name at this place (C99 6.5.1).
#[tactic(auto, unfolding(crate::specs::Names::name_rule))]
pub fn name_rule(
    alloc: Global,
    scope: &Scope,
    locals: &[LocalName],
    place: Place,
    name: &[u8],
) -> Result<Result<Operand, Fault>, AllocError>
    ensures { IfOk result (λ r. r ≡ told (name_rule scope.now locals.now place name.now)) }
{
    match local_named(locals, name) {
        Some(local) => local_operand(alloc, local),
        None => file_name(alloc, place, entity_named(scope, name)),
    }
}
