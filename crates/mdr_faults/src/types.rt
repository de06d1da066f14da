// Types that are made of others (C99 6.7.5), and copies of types and names.

ghost use Rattle.std.specs.Prelude.{◌≡◌, ◌<◌, IfOk, MatchResult};
ghost use Rattle.mdr_core.specs.Types.{is_scalar};
ghost use Rattle.mdr_faults.specs.Declarations.{pointer_to, starred, is_void};

use mdr_core::{Boxed, Items, Limit, Name, OutOfMemory, Ty, within};
use std::alloc::{AllocError, Global};

/// The same bytes once more.
pub fn copied(alloc: Global, bytes: &[u8]) -> Result<Name, AllocError>
    ensures { IfOk result (λ name. name ≡ bytes.now) }
{
    Ok(Items::from_vec(bytes.to_vec(alloc)?))
}

/// The same type once more.
#[cycle(copy)]
pub fn copied_type(alloc: Global, ty: &Ty) -> Result<Ty, AllocError>
    ensures { IfOk result (λ t. t ≡ ty.now) }
{
    match ty {
        Ty::Int(kind) => Ok(Ty::Int(*kind)),
        Ty::Lock => Ok(Ty::Lock),
        Ty::Struct(s) => Ok(Ty::Struct(*s)),
        Ty::Ptr(target) => Ok(Ty::Ptr(Boxed::new(alloc, copied_type(alloc, target.get())?)?)),
        Ty::VoidPtr => Ok(Ty::VoidPtr),
        Ty::Fun(types) => Ok(Ty::Fun(copied_types(alloc, types.as_slice())?)),
        Ty::Void => Ok(Ty::Void),
    }
}

/// The same types once more.
#[cycle(copy)]
pub fn copied_types(alloc: Global, types: &[Ty]) -> Result<Items<Ty>, AllocError>
    ensures { IfOk result (λ ts. ts ≡ types.now) }
{
    let mut all = Items::new(alloc);
    for ty in types {
        all.push(copied_type(alloc, ty)?)?;
    }
    Ok(all)
}

/// A pointer to a type.
pub fn pointer_to(alloc: Global, ty: Ty) -> Result<Ty, AllocError>
    ensures { IfOk result (λ t. t ≡ pointer_to ty) }
{
    match ty {
        Ty::Void => Ok(Ty::VoidPtr),
        target => Ok(Ty::Ptr(Boxed::new(alloc, target)?)),
    }
}

/// A type with so many stars behind it.
#[tactic(auto, using(crate::proofs::Stars::one_star), unfolding(crate::specs::Declarations::starred))]
pub fn starred(alloc: Global, ty: Ty, stars: u32) -> Result<Ty, AllocError>
    ensures { IfOk result (λ t. t ≡ starred stars ty) }
{
    let mut pointer = ty;
    let mut left = stars;
    while left > 0 {
        pointer = pointer_to(alloc, pointer)?;
        left -= 1;
    }
    Ok(pointer)
}

/// Whether it is a scalar (C99 6.2.5, paragraph 21).
pub fn is_scalar(ty: &Ty) -> bool
    ensures { result ≡ is_scalar ty.now }
{
    match ty {
        Ty::Int(_) | Ty::Ptr(_) | Ty::VoidPtr | Ty::Fun(_) => true,
        Ty::Lock | Ty::Struct(_) | Ty::Void => false,
    }
}

/// Whether it is `void`.
pub fn is_void(ty: &Ty) -> bool
    ensures { result ≡ is_void ty.now }
{
    match ty {
        Ty::Void => true,
        Ty::Int(_) | Ty::Lock | Ty::Struct(_) | Ty::Ptr(_) | Ty::VoidPtr | Ty::Fun(_) => false,
    }
}

/// A number of 32 bits. A source with more of anything is too large to be held.
pub fn small(n: usize) -> Result<u32, OutOfMemory>
    ensures { MatchResult result (λ m. m ≡ n) (λ e. 4294967295 < n) }
{
    within(n as u64, Limit::Fields)?;
    Ok(n as u32)
}
