// Pointers of whatever types, compared (C99 6.5.8, 6.5.9), and `&&` and `||` (6.5.13, 6.5.14).

ghost use Rattle.std.specs.Prelude.{◌≡◌, IfOk, None, Ok};
ghost use Rattle.mdr_rich.specs.declared.code.Expr.{Expr};
ghost use Rattle.mdr_rich.specs.declared.code.Expr.TheVariants as expr;
ghost use Rattle.mdr_operand.specs.declared.operand.Scalar.{Scalar};
ghost use Rattle.mdr_faults.specs.Faults.{Checked, Right, told, both};
ghost use Rattle.mdr_operand.specs.Forms.{null_pointer, truth};
ghost use Rattle.mdr_binary.specs.Binaries.{compared, address_by, address_at, null_or_address, null_compared, have_one_object, have_one_function, have_one_type};
ghost use Rattle.mdr_binary.specs.Binaries.{have_one_void, void_of, values_compared, voids_compared, both_true, either_true, conjunction, disjunction};

use mdr_core::{Boxed, Place, RelOp, Value};
use mdr_faults::{Fault, are_alike, both, is_alike};
use mdr_operand::{
    Operand, Scalar, expression_of, is_null, needed, out_of_memory, scalar_at, truth,
};
use mdr_rich::Expr;
use std::alloc::{AllocError, Global};

fn boxed_beside(
    alloc: Global,
    e: Boxed<Expr>,
    f: Expr,
) -> Result<(Boxed<Expr>, Boxed<Expr>), AllocError>
    ensures { IfOk result (λ p. p ≡ (e, f)) }
{
    Ok((e, Boxed::new(alloc, f)?))
}

/// Two expressions, each in a box.
pub fn both_boxed(alloc: Global, e: Expr, f: Expr) -> Result<(Boxed<Expr>, Boxed<Expr>), AllocError>
    ensures { IfOk result (λ p. p ≡ (e, f)) }
{
    match Boxed::new(alloc, e) {
        Ok(e) => boxed_beside(alloc, e, f),
        Err(error) => out_of_memory(error, f),
    }
}

pub fn compared(alloc: Global, op: RelOp, e: Expr, f: Expr) -> Result<Operand, AllocError>
    ensures { IfOk result (λ x. x ≡ compared op e f) }
{
    let (e, f) = both_boxed(alloc, e, f)?;
    Ok(truth(Expr::Rel(op, e, f)))
}

fn no_address<A: Drop>(_x: A) -> Option<Expr>
    ensures { result ≡ None }
{
    None
}

fn address_by(v: Scalar) -> Option<Expr>
    ensures { result ≡ address_by v }
{
    match v {
        Scalar::Number(e, _) => no_address(e),
        Scalar::Pointer(e, _) => Some(e),
        Scalar::Opaque(e) => Some(e),
        Scalar::Handle(e, _) => Some(e),
    }
}

#[tactic(auto, unfolding(crate::specs::Binaries::address_at))]
fn address_at(place: Place, x: Operand) -> Result<Expr, Fault>
    ensures { result ≡ told (address_at place x) }
{
    match scalar_at(place, x) {
        Ok(v) => needed(place, address_by(v)),
        Err(fault) => Err(fault),
    }
}

fn null_instead<A: Drop>(_x: A) -> Result<Expr, Fault>
    ensures { result ≡ Ok null_pointer }
{
    Ok(Expr::Lit(Value::Null))
}

#[tactic(auto, unfolding(crate::specs::Binaries::null_or_address))]
fn null_or_address(place: Place, x: Operand) -> Result<Expr, Fault>
    ensures { result ≡ told (null_or_address place x) }
{
    if is_null(&x) {
        null_instead(x)
    } else {
        address_at(place, x)
    }
}

fn both_compared(
    alloc: Global,
    op: RelOp,
    e: Result<Expr, Fault>,
    f: Result<Expr, Fault>,
) -> Result<Result<Operand, Fault>, AllocError>
    ensures { (c d : Checked Expr) → e ≡ told c → f ≡ told d → IfOk result (λ r. r ≡ told (both c d (λ e f. Right (compared op e f)))) }
{
    match both(e, f) {
        Ok((e, f)) => Ok(Ok(compared(alloc, op, e, f)?)),
        Err(fault) => Ok(Err(fault)),
    }
}

/// A comparison with a null pointer constant.
#[tactic(auto, unfolding(crate::specs::Binaries::null_compared))]
pub fn null_compared(
    alloc: Global,
    op: RelOp,
    place: Place,
    x: Operand,
    y: Operand,
) -> Result<Result<Operand, Fault>, AllocError>
    ensures { IfOk result (λ r. r ≡ told (null_compared op place x y)) }
{
    let e = null_or_address(place, x);
    let f = null_or_address(place, y);
    both_compared(alloc, op, e, f)
}

/// Whether both point to objects of one type, or both are `void *`.
pub fn have_one_object(v: &Scalar, w: &Scalar) -> bool
    ensures { result ≡ have_one_object v.now w.now }
{
    match (v, w) {
        (Scalar::Pointer(_, t), Scalar::Pointer(_, u)) => is_alike(t, u),
        (Scalar::Opaque(_), Scalar::Opaque(_)) => true,
        _ => false,
    }
}

fn have_one_function(v: &Scalar, w: &Scalar) -> bool
    ensures { result ≡ have_one_function v.now w.now }
{
    match (v, w) {
        (Scalar::Handle(_, ts), Scalar::Handle(_, us)) => are_alike(ts.as_slice(), us.as_slice()),
        _ => false,
    }
}

pub fn have_one_type(v: &Scalar, w: &Scalar) -> bool
    ensures { result ≡ have_one_type v.now w.now }
{
    have_one_object(v, w) || have_one_function(v, w)
}

/// Whether one is a `void *` and the other a pointer to an object.
pub fn have_one_void(v: &Scalar, w: &Scalar) -> bool
    ensures { result ≡ have_one_void v.now w.now }
{
    match (v, w) {
        (Scalar::Pointer(_, _), Scalar::Opaque(_)) => true,
        (Scalar::Opaque(_), Scalar::Pointer(_, _)) => true,
        _ => false,
    }
}

fn void_of(alloc: Global, v: Scalar) -> Result<Expr, AllocError>
    ensures { IfOk result (λ e. e ≡ void_of v) }
{
    match v {
        Scalar::Number(e, _) => Ok(e),
        Scalar::Pointer(e, _) => Ok(Expr::ToVoid(Boxed::new(alloc, e)?)),
        Scalar::Opaque(e) => Ok(e),
        Scalar::Handle(e, _) => Ok(e),
    }
}

#[tactic(auto, unfolding(crate::specs::Binaries::values_compared))]
pub fn values_compared(
    alloc: Global,
    op: RelOp,
    v: Scalar,
    w: Scalar,
) -> Result<Operand, AllocError>
    ensures { IfOk result (λ x. x ≡ values_compared op v w) }
{
    compared(alloc, op, expression_of(v), expression_of(w))
}

fn boxed_void(alloc: Global, v: Scalar) -> Result<Boxed<Expr>, AllocError>
    ensures { IfOk result (λ e. e ≡ void_of v) }
{
    Boxed::new(alloc, void_of(alloc, v)?)
}

fn compared_where(
    op: RelOp,
    e: Result<Boxed<Expr>, AllocError>,
    f: Result<Boxed<Expr>, AllocError>,
) -> Result<Operand, AllocError>
    ensures { (a b : Expr) → IfOk e (λ x. x ≡ a) → IfOk f (λ x. x ≡ b) → IfOk result (λ r. r ≡ compared op a b) }
{
    match e {
        Ok(e) => match f {
            Ok(f) => Ok(truth(Expr::Rel(op, e, f))),
            Err(error) => Err(error),
        },
        Err(error) => Err(error),
    }
}

#[tactic(auto, unfolding(crate::specs::Binaries::voids_compared))]
pub fn voids_compared(alloc: Global, op: RelOp, v: Scalar, w: Scalar) -> Result<Operand, AllocError>
    ensures { IfOk result (λ x. x ≡ voids_compared op v w) }
{
    compared_where(op, boxed_void(alloc, v), boxed_void(alloc, w))
}

fn both_hold(alloc: Global, e: Expr, f: Expr) -> Result<Operand, AllocError>
    ensures { IfOk result (λ x. x ≡ truth (expr.And e f)) }
{
    let (e, f) = both_boxed(alloc, e, f)?;
    Ok(truth(Expr::And(e, f)))
}

fn both_true(alloc: Global, v: Scalar, w: Scalar) -> Result<Operand, AllocError>
    ensures { IfOk result (λ x. x ≡ both_true v w) }
{
    both_hold(alloc, expression_of(v), expression_of(w))
}

fn either_holds(alloc: Global, e: Expr, f: Expr) -> Result<Operand, AllocError>
    ensures { IfOk result (λ x. x ≡ truth (expr.Or e f)) }
{
    let (e, f) = both_boxed(alloc, e, f)?;
    Ok(truth(Expr::Or(e, f)))
}

fn either_true(alloc: Global, v: Scalar, w: Scalar) -> Result<Operand, AllocError>
    ensures { IfOk result (λ x. x ≡ either_true v w) }
{
    either_holds(alloc, expression_of(v), expression_of(w))
}

fn conjunction_of(
    alloc: Global,
    v: Result<Scalar, Fault>,
    w: Result<Scalar, Fault>,
) -> Result<Result<Operand, Fault>, AllocError>
    ensures { (c d : Checked Scalar) → v ≡ told c → w ≡ told d → IfOk result (λ r. r ≡ told (both c d (λ v w. Right (both_true v w)))) }
{
    match both(v, w) {
        Ok((v, w)) => Ok(Ok(both_true(alloc, v, w)?)),
        Err(fault) => Ok(Err(fault)),
    }
}

fn disjunction_of(
    alloc: Global,
    v: Result<Scalar, Fault>,
    w: Result<Scalar, Fault>,
) -> Result<Result<Operand, Fault>, AllocError>
    ensures { (c d : Checked Scalar) → v ≡ told c → w ≡ told d → IfOk result (λ r. r ≡ told (both c d (λ v w. Right (either_true v w)))) }
{
    match both(v, w) {
        Ok((v, w)) => Ok(Ok(either_true(alloc, v, w)?)),
        Err(fault) => Ok(Err(fault)),
    }
}

/// `&&`.
#[tactic(auto, unfolding(crate::specs::Binaries::conjunction))]
pub fn conjunction(
    alloc: Global,
    place: Place,
    x: Operand,
    y: Operand,
) -> Result<Result<Operand, Fault>, AllocError>
    ensures { IfOk result (λ r. r ≡ told (conjunction place x y)) }
{
    conjunction_of(alloc, scalar_at(place, x), scalar_at(place, y))
}

/// `||`.
#[tactic(auto, unfolding(crate::specs::Binaries::disjunction))]
pub fn disjunction(
    alloc: Global,
    place: Place,
    x: Operand,
    y: Operand,
) -> Result<Result<Operand, Fault>, AllocError>
    ensures { IfOk result (λ r. r ≡ told (disjunction place x y)) }
{
    disjunction_of(alloc, scalar_at(place, x), scalar_at(place, y))
}
