// Services that take values alone.

ghost use Rattle.std.specs.Prelude.{◌≡◌, ◌∷◌, [], IfOk};
ghost use Rattle.mdr_core.specs.declared.kind.Kind.TheVariants.{U8, U32};
ghost use Rattle.mdr_core.specs.declared.types.Ty.TheVariants as type;
ghost use Rattle.mdr_faults.specs.Faults.{told};
ghost use Rattle.mdr_call.specs.Services.{number, plain_types, plain_service};

use crate::function::call_with;
use crate::parts::{Argument, Callable, TypedCall};
use crate::service::PlainService;
use mdr_core::{Boxed, Items, Kind, Place, Ty};
use mdr_faults::Fault;
use mdr_rich::Callee;
use std::alloc::{AllocError, Global};

fn number(service: PlainService) -> u32
    ensures { result ≡ number service }
{
    match service {
        PlainService::Kfree => 3,
        PlainService::Readl => 4,
        PlainService::Writel => 5,
        PlainService::FreeIrq => 8,
        PlainService::Deliver => 9,
        PlainService::Combolock => 10,
        PlainService::Combounlock => 11,
        PlainService::Bug => 12,
    }
}

/// A result and no parameters.
pub fn alone(alloc: Global, ty: Ty) -> Result<Items<Ty>, AllocError>
    ensures { IfOk result (λ types. types ≡ ty ∷ []) }
{
    let mut types = Items::new(alloc);
    types.push(ty)?;
    Ok(types)
}

/// A result and a parameter.
pub fn one(alloc: Global, ty: Ty, a: Ty) -> Result<Items<Ty>, AllocError>
    ensures { IfOk result (λ types. types ≡ ty ∷ a ∷ []) }
{
    let mut types = alone(alloc, ty)?;
    types.push(a)?;
    Ok(types)
}

fn two(alloc: Global, ty: Ty, a: Ty, b: Ty) -> Result<Items<Ty>, AllocError>
    ensures { IfOk result (λ types. types ≡ ty ∷ a ∷ b ∷ []) }
{
    let mut types = one(alloc, ty, a)?;
    types.push(b)?;
    Ok(types)
}

fn pointer_to(alloc: Global, ty: Ty) -> Result<Ty, AllocError>
    ensures { IfOk result (λ t. t ≡ type.Ptr ty) }
{
    Ok(Ty::Ptr(Boxed::new(alloc, ty)?))
}

/// What `deliver` takes.
fn delivered(alloc: Global) -> Result<Items<Ty>, AllocError>
    ensures { IfOk result (λ types. types ≡ type.Void ∷ type.Ptr (type.Int U8) ∷ type.Int U32 ∷ []) }
{
    let bytes = pointer_to(alloc, Ty::Int(Kind::U8))?;
    two(alloc, Ty::Void, bytes, Ty::Int(Kind::U32))
}

/// What the two services of a lock take.
fn locked(alloc: Global) -> Result<Items<Ty>, AllocError>
    ensures { IfOk result (λ types. types ≡ type.Void ∷ type.Ptr type.Lock ∷ []) }
{
    let lock = pointer_to(alloc, Ty::Lock)?;
    one(alloc, Ty::Void, lock)
}

fn plain_types(alloc: Global, service: PlainService) -> Result<Items<Ty>, AllocError>
    ensures { IfOk result (λ types. types ≡ plain_types service) }
{
    match service {
        PlainService::Kfree => one(alloc, Ty::Void, Ty::VoidPtr),
        PlainService::Readl => one(alloc, Ty::Int(Kind::U32), Ty::Int(Kind::U32)),
        PlainService::Writel => two(alloc, Ty::Void, Ty::Int(Kind::U32), Ty::Int(Kind::U32)),
        PlainService::FreeIrq | PlainService::Bug => alone(alloc, Ty::Void),
        PlainService::Deliver => delivered(alloc),
        PlainService::Combolock | PlainService::Combounlock => locked(alloc),
    }
}

/// A call of such a service.
#[tactic(auto, unfolding(crate::specs::Services::plain_service))]
pub fn plain_service(
    alloc: Global,
    place: Place,
    arguments: Items<Argument>,
    service: PlainService,
) -> Result<Result<TypedCall, Fault>, AllocError>
    ensures { IfOk result (λ r. r ≡ told (plain_service place arguments service)) }
{
    let c = Callable {
        callee: Callee::Service(number(service)),
        types: plain_types(alloc, service)?,
    };
    call_with(alloc, place, arguments, c)
}
