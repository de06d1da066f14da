// Addresses (C99 6.5.3.2).

ghost use Rattle.std.specs.Prelude.{◌≡◌, IfOk, Ok};
ghost use Rattle.mdr_faults.specs.Faults.{told};
ghost use Rattle.mdr_rich.specs.declared.code.Lval.TheVariants as lval;
ghost use Rattle.mdr_operand.specs.declared.operand.Operand.TheVariants as operand;
ghost use Rattle.mdr_operand.specs.Forms.{address_of, object_address, address};

use crate::operand::{Operand, Scalar};
use crate::release::{both_given_up, given_up};
use mdr_core::{Boxed, Items, Place, Ty, Value};
use mdr_faults::{Fault, FaultKind};
use mdr_rich::{Expr, Lval};
use std::alloc::{AllocError, Global};

#[tactic(auto, unfolding(crate::specs::Forms::address_of))]
fn element_address(
    alloc: Global,
    array: Boxed<Lval>,
    index: Boxed<Expr>,
) -> Result<Expr, AllocError>
    ensures { IfOk result (λ e. e ≡ address_of (lval.Index array index)) }
{
    let first = Boxed::new(alloc, Expr::Decay(array.into_inner()))?;
    Ok(Expr::Move(false, first, index))
}

/// The address of an lvalue.
#[tactic(auto, unfolding(crate::specs::Forms::address_of))]
fn address_of(alloc: Global, l: Lval) -> Result<Expr, AllocError>
    ensures { IfOk result (λ e. e ≡ address_of l) }
{
    match l {
        Lval::Slot(i, ty) => Ok(Expr::Addr(Lval::Slot(i, ty))),
        Lval::Object(i, ty) => Ok(Expr::Addr(Lval::Object(i, ty))),
        Lval::Global(g, ty) => Ok(Expr::Addr(Lval::Global(g, ty))),
        Lval::Deref(e) => Ok(e.into_inner()),
        Lval::Member(l, f, ty) => Ok(Expr::Addr(Lval::Member(l, f, ty))),
        Lval::Index(l, e) => element_address(alloc, l, e),
    }
}

fn object_address(alloc: Global, l: Lval, ty: Ty) -> Result<Result<Operand, Fault>, AllocError>
    ensures { IfOk result (λ r. r ≡ Ok (object_address l ty)) }
{
    let value = address_of(alloc, l)?;
    Ok(Ok(Operand::Value(Scalar::Pointer(value, ty))))
}

#[tactic(auto, unfolding(crate::specs::Forms::address))]
fn function_address(place: Place, f: u32, types: Items<Ty>) -> Result<Operand, Fault>
    ensures { result ≡ told (address place (operand.Function f types)) }
{
    Ok(Operand::Value(Scalar::Handle(Expr::Lit(Value::Fn(f)), types)))
}

/// The address of an object, or of a function.
#[tactic(auto, unfolding(crate::specs::Forms::address))]
pub fn address(
    alloc: Global,
    place: Place,
    x: Operand,
) -> Result<Result<Operand, Fault>, AllocError>
    ensures { IfOk result (λ r. r ≡ told (address place x)) }
{
    match x {
        Operand::Value(v) => Ok(given_up(place, FaultKind::NotAnLvalue, v)),
        Operand::Zero(_) | Operand::Null => Ok(Err(Fault {
            place,
            kind: FaultKind::NotAnLvalue,
        })),
        Operand::Object(l, ty) => object_address(alloc, l, ty),
        Operand::Array(l, ty, _) => Ok(both_given_up(place, FaultKind::Mismatch, l, ty)),
        Operand::Function(f, types) => Ok(function_address(place, f, types)),
    }
}
