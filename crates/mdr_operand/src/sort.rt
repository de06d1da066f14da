// Which sort an operand or a type is of.

ghost use Rattle.std.specs.Prelude.{◌≡◌, Some, None, IfOk};
ghost use Rattle.mdr_rich.specs.declared.code.Expr.{Expr};
ghost use Rattle.mdr_rich.specs.Activity.{is_active};
ghost use Rattle.mdr_rich.specs.Folds.{term_of};
ghost use Rattle.mdr_core.specs.Layout.{chosen};
ghost use Rattle.mdr_core.specs.Types.{is_scalar};
ghost use Rattle.mdr_core.specs.declared.types.Ty.TheVariants as type;
ghost use Rattle.mdr_operand.specs.Forms.{scalar_of, expression_of, scalar_type, value_type, is_active_operand, is_number_value, is_number, is_null, is_complete};

use crate::operand::{Operand, Scalar};
use mdr_core::{Boxed, Ty};
use mdr_faults::{Scope, copied_type, copied_types, is_scalar};
use mdr_rich::{is_active, is_active_place};
use std::alloc::{AllocError, Global};

fn is_active_value(v: &Scalar) -> bool
    ensures { result ≡ is_active (term_of (expression_of v.now)) }
{
    match v {
        Scalar::Number(e, _) => is_active(e),
        Scalar::Pointer(e, _) => is_active(e),
        Scalar::Opaque(e) => is_active(e),
        Scalar::Handle(e, _) => is_active(e),
    }
}

/// Whether a call, `++`, `--` or `?:` stands in it.
pub fn is_active_operand(x: &Operand) -> bool
    ensures { result ≡ is_active_operand x.now }
{
    match x {
        Operand::Value(v) => is_active_value(v),
        Operand::Object(l, _) => is_active_place(l),
        Operand::Array(l, _, _) => is_active_place(l),
        Operand::Zero(_) | Operand::Null | Operand::Function(_, _) => false,
    }
}

fn pointer_to(alloc: Global, ty: &Ty) -> Result<Ty, AllocError>
    ensures { IfOk result (λ t. t ≡ type.Ptr ty.now) }
{
    Ok(Ty::Ptr(Boxed::new(alloc, copied_type(alloc, ty)?)?))
}

fn scalar_type(alloc: Global, v: &Scalar) -> Result<Ty, AllocError>
    ensures { IfOk result (λ t. t ≡ scalar_type v.now) }
{
    match v {
        Scalar::Number(_, kind) => Ok(Ty::Int(*kind)),
        Scalar::Pointer(_, ty) => pointer_to(alloc, ty),
        Scalar::Opaque(_) => Ok(Ty::VoidPtr),
        Scalar::Handle(_, types) => Ok(Ty::Fun(copied_types(alloc, types.as_slice())?)),
    }
}

fn object_type(alloc: Global, ty: &Ty) -> Result<Option<Ty>, AllocError>
    ensures { IfOk result (λ t. t ≡ chosen (is_scalar ty.now) (Some ty.now) None) }
{
    if is_scalar(ty) {
        Ok(Some(copied_type(alloc, ty)?))
    } else {
        Ok(None)
    }
}

/// The type of its value.
pub fn value_type(alloc: Global, x: &Operand) -> Result<Option<Ty>, AllocError>
    ensures { IfOk result (λ t. t ≡ value_type x.now) }
{
    match x {
        Operand::Value(v) => Ok(Some(scalar_type(alloc, v)?)),
        Operand::Zero(kind) => Ok(Some(Ty::Int(*kind))),
        Operand::Null => Ok(Some(Ty::VoidPtr)),
        Operand::Object(_, ty) => object_type(alloc, ty),
        Operand::Array(_, ty, _) => Ok(Some(pointer_to(alloc, ty)?)),
        Operand::Function(_, types) => Ok(Some(Ty::Fun(copied_types(alloc, types.as_slice())?))),
    }
}

fn is_number_scalar(v: &Scalar) -> bool
    ensures { result ≡ is_number_value (Some v.now) }
{
    match v {
        Scalar::Number(_, _) => true,
        Scalar::Pointer(_, _) | Scalar::Opaque(_) | Scalar::Handle(_, _) => false,
    }
}

#[tactic(auto, unfolding(crate::specs::Forms::scalar_of))]
fn is_number_type(ty: &Ty) -> bool
    ensures { (e : Expr) → result ≡ is_number_value (scalar_of e ty.now) }
{
    match ty {
        Ty::Int(_) => true,
        Ty::Lock | Ty::Struct(_) | Ty::Ptr(_) | Ty::VoidPtr | Ty::Fun(_) | Ty::Void => false,
    }
}

/// Whether it has an integer type.
#[tactic(auto, unfolding(crate::specs::Forms::is_number, crate::specs::Forms::value_of))]
pub fn is_number(x: &Operand) -> bool
    ensures { result ≡ is_number x.now }
{
    match x {
        Operand::Value(v) => is_number_scalar(v),
        Operand::Zero(_) => true,
        Operand::Object(_, ty) => is_number_type(ty),
        Operand::Null | Operand::Array(_, _, _) | Operand::Function(_, _) => false,
    }
}

/// Whether it is a null pointer constant: a literal 0 or a `NULL` (C99 6.3.2.3).
pub fn is_null(x: &Operand) -> bool
    ensures { result ≡ is_null x.now }
{
    match x {
        Operand::Zero(_) | Operand::Null => true,
        Operand::Value(_) | Operand::Object(_, _) | Operand::Array(_, _, _) => false,
        Operand::Function(_, _) => false,
    }
}

/// Whether the size of a type's objects is known here.
#[tactic(auto, unfolding(crate::specs::Forms::is_complete))]
pub fn is_complete(scope: &Scope, ty: &Ty) -> bool
    ensures { result ≡ is_complete scope.now ty.now }
{
    match ty {
        Ty::Struct(s) => (*s as usize) < scope.structs.len(),
        Ty::Int(_) | Ty::Lock | Ty::Ptr(_) | Ty::VoidPtr | Ty::Fun(_) => true,
        Ty::Void => false,
    }
}
