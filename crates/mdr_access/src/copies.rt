// Copies of what a plan takes over.

ghost use Rattle.std.specs.Prelude.{◌≡◌, map, IfOk};
ghost use Rattle.mdr_core.specs.declared.program.Func.{Func as AnyFunc};

use mdr_core::{Boxed, Func, Half, Items, Name, Ty};
use std::alloc::{AllocError, Global};

/// A copy of a type.
#[cycle(copies)]
fn copied_type(alloc: Global, ty: &Ty) -> Result<Ty, AllocError>
    ensures { IfOk result (λ t. t ≡ ty.now) }
{
    match ty {
        Ty::Int(kind) => Ok(Ty::Int(*kind)),
        Ty::Lock => Ok(Ty::Lock),
        Ty::Struct(s) => Ok(Ty::Struct(*s)),
        Ty::Ptr(target) => {
            let inner = copied_type(alloc, target.get())?;
            let boxed = Boxed::new(alloc, inner)?;
            Ok(Ty::Ptr(boxed))
        }
        Ty::VoidPtr => Ok(Ty::VoidPtr),
        Ty::Fun(types) => {
            let inner = copied_types(alloc, types.as_slice())?;
            Ok(Ty::Fun(Items::from_vec(inner)))
        }
        Ty::Void => Ok(Ty::Void),
    }
}

/// A copy of types.
#[cycle(copies)]
pub(crate) fn copied_types(alloc: Global, types: &[Ty]) -> Result<Vec<Ty>, AllocError>
    ensures { IfOk result (λ copy. copy.items ≡ types.now) }
{
    let mut copy = Vec::new(alloc);
    for ty in types {
        let one = copied_type(alloc, ty)?;
        copy.push(one)?;
    }
    Ok(copy)
}

fn copied_name(alloc: Global, name: &[u8]) -> Result<Name, AllocError>
    ensures { IfOk result (λ copy. copy ≡ name.now) }
{
    let mut copy = Vec::new(alloc);
    for byte in name {
        copy.push(*byte)?;
    }
    Ok(Items::from_vec(copy))
}

/// The names of functions.
pub(crate) fn names_of(alloc: Global, funcs: &[Func]) -> Result<Vec<Name>, AllocError>
    ensures { IfOk result (λ names. names.items ≡ map (λ (func : AnyFunc). func.name) funcs.now) }
{
    let mut names = Vec::new(alloc);
    for func in funcs {
        let name = copied_name(alloc, func.name.as_slice())?;
        names.push(name)?;
    }
    Ok(names)
}

pub(crate) fn copied_halves(alloc: Global, halves: &[Half]) -> Result<Vec<Half>, AllocError>
    ensures { IfOk result (λ copy. copy.items ≡ halves.now) }
{
    let mut copy = Vec::new(alloc);
    for half in halves {
        copy.push(*half)?;
    }
    Ok(copy)
}

pub(crate) fn copied_flags(alloc: Global, flags: &[bool]) -> Result<Vec<bool>, AllocError>
    ensures { IfOk result (λ copy. copy.items ≡ flags.now) }
{
    let mut copy = Vec::new(alloc);
    for flag in flags {
        copy.push(*flag)?;
    }
    Ok(copy)
}
