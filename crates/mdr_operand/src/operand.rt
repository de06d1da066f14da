// What an expression comes to, and its value (C99 6.3).

ghost use Rattle.std.specs.Prelude.{◌≡◌, IfOk, pos};
ghost use Rattle.std.specs.Option.{option_map};
ghost use Rattle.mdr_rich.specs.declared.code.Expr.{Expr};
ghost use Rattle.mdr_faults.specs.Faults.{told};
ghost use Rattle.mdr_operand.specs.Forms.{scalar_of, value_of, expression_of, needed, value_at, scalar_at, integer_by, integer_at};
ghost use Rattle.mdr_operand.specs.Forms.{at_kind, number, truth, literal, condition_at, pointer_by, pointer_at};

use crate::release::{nothing, out_of_memory};
use mdr_core::{Boxed, Items, Kind, Place, Ty, Value};
use mdr_faults::{Fault, FaultKind};
use mdr_rich::{Expr, Lval};
use std::alloc::{AllocError, Global};

/// A value of a scalar type.
#[derive(Drop)]
pub enum Scalar {
    Number(Expr, Kind),
    /// A pointer to an object, and the type of the object.
    Pointer(Expr, Ty),
    /// A `void *`.
    Opaque(Expr),
    /// A pointer to a function: the function's result, then its parameters.
    Handle(Expr, Items<Ty>),
}

/// What an expression comes to.
#[derive(Drop)]
pub enum Operand {
    /// A value that is no lvalue.
    Value(Scalar),
    /// A literal zero, which is a null pointer too.
    Zero(Kind),
    /// A `NULL`.
    Null,
    /// An object: a scalar, a struct or a lock.
    Object(Lval, Ty),
    /// An array: its elements' type and how many there are.
    Array(Lval, Ty, u32),
    /// A function by its name: its number, its result and its parameters.
    Function(u32, Items<Ty>),
}

/// A value of an integer type.
#[derive(Drop)]
pub struct Integer {
    pub value: Expr,
    pub kind: Kind,
}

/// A pointer to an object, and the type of the object.
#[derive(Drop)]
pub struct Pointer {
    pub value: Expr,
    pub ty: Ty,
}

/// A value of a type, where it is a scalar.
#[tactic(auto, unfolding(crate::specs::Forms::scalar_of))]
pub fn scalar_of(value: Expr, ty: Ty) -> Option<Scalar>
    ensures { result ≡ scalar_of value ty }
{
    match ty {
        Ty::Int(kind) => Some(Scalar::Number(value, kind)),
        Ty::Ptr(target) => Some(Scalar::Pointer(value, target.into_inner())),
        Ty::VoidPtr => Some(Scalar::Opaque(value)),
        Ty::Fun(types) => Some(Scalar::Handle(value, types)),
        Ty::Lock | Ty::Struct(_) | Ty::Void => nothing((value, ty)),
    }
}

/// The value of an operand, where it has one.
#[tactic(auto, unfolding(crate::specs::Forms::value_of))]
pub fn value_of(x: Operand) -> Option<Scalar>
    ensures { result ≡ value_of x }
{
    match x {
        Operand::Value(v) => Some(v),
        Operand::Zero(kind) => Some(Scalar::Number(Expr::Lit(Value::Int(kind, 0)), kind)),
        Operand::Null => Some(Scalar::Opaque(Expr::Lit(Value::Null))),
        Operand::Object(l, ty) => scalar_of(Expr::Load(l), ty),
        Operand::Array(l, ty, _) => Some(Scalar::Pointer(Expr::Decay(l), ty)),
        Operand::Function(f, types) => Some(Scalar::Handle(Expr::Lit(Value::Fn(f)), types)),
    }
}

pub fn expression_of(v: Scalar) -> Expr
    ensures { result ≡ expression_of v }
{
    match v {
        Scalar::Number(e, _) => e,
        Scalar::Pointer(e, _) => e,
        Scalar::Opaque(e) => e,
        Scalar::Handle(e, _) => e,
    }
}

/// What has to be there for the form at this place.
pub fn needed<A: Drop>(place: Place, x: Option<A>) -> Result<A, Fault>
    ensures { result ≡ told (needed place x) }
{
    match x {
        None => Err(Fault {
            place,
            kind: FaultKind::Mismatch,
        }),
        Some(x) => Ok(x),
    }
}

/// A value of this type, which is no lvalue, of the form at this place.
#[tactic(auto, unfolding(crate::specs::Forms::value_at))]
pub fn value_at(place: Place, ty: Ty, value: Expr) -> Result<Operand, Fault>
    ensures { result ≡ told (value_at place ty value) }
{
    match needed(place, scalar_of(value, ty)) {
        Ok(v) => Ok(Operand::Value(v)),
        Err(fault) => Err(fault),
    }
}

/// The same, where there is memory for it.
pub fn value_where(
    place: Place,
    ty: Ty,
    value: Result<Expr, AllocError>,
) -> Result<Result<Operand, Fault>, AllocError>
    ensures { (e : Expr) → IfOk value (λ x. x ≡ e) → IfOk result (λ r. r ≡ told (value_at place ty e)) }
{
    match value {
        Ok(value) => Ok(value_at(place, ty, value)),
        Err(error) => out_of_memory(error, ty),
    }
}

/// The scalar that the form at this place works on.
#[tactic(auto, unfolding(crate::specs::Forms::scalar_at))]
pub fn scalar_at(place: Place, x: Operand) -> Result<Scalar, Fault>
    ensures { result ≡ told (scalar_at place x) }
{
    needed(place, value_of(x))
}

fn integer_by(v: Scalar) -> Option<Integer>
    ensures { result ≡ integer_by v }
{
    match v {
        Scalar::Number(value, kind) => Some(Integer { value, kind }),
        Scalar::Pointer(_, _) | Scalar::Opaque(_) | Scalar::Handle(_, _) => nothing(v),
    }
}

/// The integer that the form at this place works on.
#[tactic(auto, unfolding(crate::specs::Forms::integer_at))]
pub fn integer_at(place: Place, x: Operand) -> Result<Integer, Fault>
    ensures { result ≡ told (integer_at place x) }
{
    match scalar_at(place, x) {
        Ok(v) => needed(place, integer_by(v)),
        Err(fault) => Err(fault),
    }
}

/// An integer converted to a kind.
#[tactic(auto, unfolding(crate::specs::Forms::at_kind))]
pub fn at_kind(alloc: Global, kind: Kind, n: Integer) -> Result<Expr, AllocError>
    ensures { IfOk result (λ e. e ≡ at_kind kind n) }
{
    if kind.number() == n.kind.number() {
        Ok(n.value)
    } else {
        Ok(Expr::Conv(kind, Boxed::new(alloc, n.value)?))
    }
}

pub fn number(value: Expr, kind: Kind) -> Operand
    ensures { result ≡ number value kind }
{
    Operand::Value(Scalar::Number(value, kind))
}

/// What a test gives.
pub fn truth(value: Expr) -> Operand
    ensures { result ≡ truth value }
{
    number(value, Kind::S32)
}

/// A number that is written.
#[tactic(auto, unfolding(crate::specs::Forms::literal))]
pub fn literal(n: u64, kind: Kind) -> Operand
    ensures { result ≡ literal n kind }
{
    if n == 0 {
        Operand::Zero(kind)
    } else {
        number(Expr::Lit(Value::Int(kind, n as i128)), kind)
    }
}

/// What is tested: an integer, a pointer or a function pointer.
#[tactic(auto, unfolding(crate::specs::Forms::condition_at))]
pub fn condition_at(place: Place, x: Operand) -> Result<Expr, Fault>
    ensures { result ≡ told (condition_at place x) }
{
    match scalar_at(place, x) {
        Ok(v) => Ok(expression_of(v)),
        Err(fault) => Err(fault),
    }
}

fn pointer_by(v: Scalar) -> Option<Pointer>
    ensures { result ≡ pointer_by v }
{
    match v {
        Scalar::Pointer(value, ty) => Some(Pointer { value, ty }),
        Scalar::Number(_, _) | Scalar::Opaque(_) | Scalar::Handle(_, _) => nothing(v),
    }
}

/// The pointer to an object that the form at this place works on.
#[tactic(auto, unfolding(crate::specs::Forms::pointer_at))]
pub fn pointer_at(place: Place, x: Operand) -> Result<Pointer, Fault>
    ensures { result ≡ told (pointer_at place x) }
{
    match scalar_at(place, x) {
        Ok(v) => needed(place, pointer_by(v)),
        Err(fault) => Err(fault),
    }
}
