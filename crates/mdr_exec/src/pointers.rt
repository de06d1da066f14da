// What is done with pointers in hand.

ghost use Rattle.std.specs.Prelude.{◌≡◌, ◌↔◌, ◌+ℤ◌, ◌-ℤ◌, IsTrue, Some, option_copied, pos, slice_get};
ghost use Rattle.mdr_core.specs.declared.types.Ty.TheVariants as type_is;
ghost use Rattle.mdr_core.specs.Sound.{IsSound};
ghost use Rattle.mdr_meaning.specs.Bodies.{known_of, without_funcs};
ghost use Rattle.mdr_meaning.specs.declared.wire.Wire.TheVariants as wire;
ghost use Rattle.mdr_meaning.specs.Numbers.{is_same_type, number_in, type_number};
ghost use Rattle.mdr_meaning.specs.Pointers.{at_index, by_order, cast, difference, global, indexed, is_equal, is_one_array, moved, ordered, position, related, size, steps};
ghost use Rattle.mdr_meaning.specs.Values.{integer, saturated_u32, wire_of, wire_view};
ghost use Rattle.mdr_events.specs.Outcomes.{wired};
ghost use Rattle.mdr_exec.specs.Evaluation.{after_value};

use crate::values::{integer, truth};
use mdr_core::{
    Block, GlobalDef, Kind, Program, RelOp, StopKind, Ty, Value, View, cells_of, same_type,
};
use mdr_events::Memory;

// ---- moved

/// A pointer to another element of what is viewed.
pub(crate) fn at_index(view: View, index: u32) -> Value
    ensures { wire_of result ≡ wire.Ptr (at_index (wire_view view) index) }
{
    Value::Ptr(View {
        block: view.block,
        first: view.first,
        ty: view.ty,
        count: view.count,
        index,
    })
}

fn moved_on(view: View, n: i128) -> Result<Value, StopKind>
    ensures { wired result ≡ indexed (wire_view view) (pos view.index +ℤ n) }
{
    let index = view.index as i128;
    let count = view.count as i128;
    if n < 0 - index {
        return Err(StopKind::Bounds);
    }
    if n > count - index {
        return Err(StopKind::Bounds);
    }
    Ok(at_index(view, (index + n) as u32))
}

fn moved_back(view: View, n: i128) -> Result<Value, StopKind>
    ensures { wired result ≡ indexed (wire_view view) (pos view.index -ℤ n) }
{
    let index = view.index as i128;
    let count = view.count as i128;
    if n > index {
        return Err(StopKind::Bounds);
    }
    if n < index - count {
        return Err(StopKind::Bounds);
    }
    Ok(at_index(view, (index - n) as u32))
}

fn moved_view(back: bool, view: View, n: i128) -> Result<Value, StopKind>
    ensures { wired result ≡ indexed (wire_view view) (pos view.index +ℤ steps back n) }
{
    if back {
        moved_back(view, n)
    } else {
        moved_on(view, n)
    }
}

fn moved_value(back: bool, pointer: Value, n: i128) -> Result<Value, StopKind>
    ensures { wired result ≡ moved (wire_of pointer) (steps back n) }
{
    match pointer {
        Value::Ptr(view) => moved_view(back, view, n),
        Value::Dead => Err(StopKind::Dead),
        Value::Int(_, _) => Err(StopKind::Null),
        Value::Null => Err(StopKind::Null),
        Value::Fn(_) => Err(StopKind::Null),
        Value::Lock(_) => Err(StopKind::Null),
        Value::NoValue => Err(StopKind::Null),
    }
}

/// A pointer moved by so many elements, or back.
pub(crate) fn moved(
    back: bool,
    pointer: Result<Value, StopKind>,
    count: Result<Value, StopKind>,
) -> Result<Value, StopKind>
    ensures { wired result ≡ after_value (wired pointer) (λ x. after_value (wired count) (λ n. moved x (steps back (integer n)))) }
{
    match pointer {
        Ok(value) => match count {
            Ok(n) => moved_value(back, value, integer(n)),
            Err(stop) => Err(stop),
        },
        Err(stop) => Err(stop),
    }
}

// ---- differences

fn is_one_array(v: View, w: View) -> bool
    ensures { result ≡ is_one_array (wire_view v) (wire_view w) }
{
    v.block.serial == w.block.serial && v.first == w.first && v.ty == w.ty && v.count == w.count
}

fn difference_of(v: View, w: View) -> Result<Value, StopKind>
    ensures { wired result ≡ difference (wire.Ptr (wire_view v)) (wire.Ptr (wire_view w)) }
{
    if is_one_array(v, w) {
        Ok(Value::Int(Kind::S64, v.index as i128 - w.index as i128))
    } else {
        Err(StopKind::Compare)
    }
}

fn difference_from(v: View, right: Value) -> Result<Value, StopKind>
    ensures { wired result ≡ difference (wire.Ptr (wire_view v)) (wire_of right) }
{
    match right {
        Value::Ptr(w) => difference_of(v, w),
        _ => Err(StopKind::Compare),
    }
}

/// How many elements lie between two pointers.
pub(crate) fn difference(
    left: Result<Value, StopKind>,
    right: Result<Value, StopKind>,
) -> Result<Value, StopKind>
    ensures { wired result ≡ after_value (wired left) (λ x. after_value (wired right) (λ y. difference x y)) }
{
    match left {
        Ok(x) => match right {
            Ok(y) => match x {
                Value::Ptr(v) => difference_from(v, y),
                _ => Err(StopKind::Compare),
            },
            Err(stop) => Err(stop),
        },
        Err(stop) => Err(stop),
    }
}

// ---- types

fn is_same_type(a: &Ty, b: &Ty) -> bool
    ensures { result ≡ is_same_type a.now b.now }
{
    same_type(a, b)
}

fn is_kind(kind: Kind, b: &Ty) -> bool
    ensures { IsTrue result ↔ (type_is.Int kind ≡ b.now) }
{
    match b {
        Ty::Int(other) => kind == *other,
        _ => false,
    }
}

/// Whether an integer's type is another one.
fn is_integer(kind: Kind, b: &Ty) -> bool
    ensures { result ≡ is_same_type (type_is.Int kind) b.now }
{
    is_kind(kind, b)
}

/// Whether two types are one, where most are integers'.
fn is_alike(a: &Ty, b: &Ty) -> bool
    ensures { result ≡ is_same_type a.now b.now }
{
    match a {
        Ty::Int(kind) => is_integer(*kind, b),
        _ => is_same_type(a, b),
    }
}

/// The first place of a type in a list; behind its end where it isn't there.
#[tactic(auto, unfolding(mdr_meaning::specs::Numbers::number_in))]
pub(crate) fn number_in(types: &[Ty], ty: &Ty) -> usize
    ensures { result ≡ number_in types.now ty.now }
{
    for i in 0..types.len() {
        if is_alike(&types[i], ty) {
            return i;
        }
    }
    types.len()
}

fn cast_view(program: &Program, ty: &Ty, view: View) -> Result<Value, StopKind>
    ensures { wired result ≡ cast (known_of program.now) ty.now (wire.Ptr (wire_view view)) }
{
    if view.ty as usize == number_in(program.types.as_slice(), ty) {
        Ok(Value::Ptr(view))
    } else {
        Err(StopKind::BadCast)
    }
}

pub(crate) fn cast_value(program: &Program, ty: &Ty, value: Value) -> Result<Value, StopKind>
    ensures { wired result ≡ cast (known_of program.now) ty.now (wire_of value) }
{
    match value {
        Value::Ptr(view) => cast_view(program, ty, view),
        _ => Ok(value),
    }
}

/// A `void *` as a pointer to a type.
pub(crate) fn cast(
    program: &Program,
    ty: &Ty,
    pointer: Result<Value, StopKind>,
) -> Result<Value, StopKind>
    ensures { wired result ≡ after_value (wired pointer) (λ x. cast (known_of program.now) ty.now x) }
{
    match pointer {
        Ok(value) => cast_value(program, ty, value),
        Err(stop) => Err(stop),
    }
}

// ---- globals

/// A number as one of 32 bits.
pub(crate) fn saturated(n: u128) -> u32
    ensures { result ≡ saturated_u32 n }
{
    if n > 4294967295 { 4294967295 } else { n as u32 }
}

/// The number by which pointers and objects name a type.
pub(crate) fn type_number(program: &Program, ty: &Ty) -> u32
    ensures { result ≡ type_number (known_of program.now) ty.now }
{
    saturated(number_in(program.types.as_slice(), ty) as u128)
}

fn global_pointer(program: &Program, slot: u32, number: u32, def: &GlobalDef) -> Value
    requires { slice_get program.now.globals number ≡ Some def.now }
    ensures { wire_of result ≡ global (known_of program.now) number }
{
    Value::Ptr(View {
        block: Block {
            slot,
            serial: number as u64,
        },
        first: 0,
        ty: type_number(program, &def.ty),
        count: def.count,
        index: 0,
    })
}

pub(crate) fn global_at(program: &Program, number: u32) -> Option<&GlobalDef>
    ensures { option_copied result ≡ slice_get program.now.globals number }
{
    program.globals.as_slice().get(number as usize)
}

/// A pointer to a global.
pub(crate) fn global<C: Memory>(program: &Program, memory: &C, number: u32) -> Value
    ensures { wire_of result ≡ global (known_of program.now) number }
{
    match global_at(program, number) {
        Some(def) => global_pointer(program, memory.slot(number as u64), number, def),
        None => Value::Null,
    }
}

// ---- comparisons

#[tactic(auto, unfolding(mdr_meaning::specs::Pointers::size))]
fn size(program: &Program, ty: u32) -> u32
    requires { IsSound program.now }
    ensures { result ≡ size (without_funcs program.now) ty }
{
    if (ty as usize) < program.types.as_slice().len() {
        cells_of(program, ty)
    } else {
        0
    }
}

/// The cell that a pointer points to.
pub(crate) fn position(program: &Program, view: View) -> u64
    requires { IsSound program.now }
    ensures { result ≡ position (without_funcs program.now) (wire_view view) }
{
    view.first as u64 + view.index as u64 * size(program, view.ty) as u64
}

fn is_equal_view(program: &Program, v: View, right: Value) -> bool
    requires { IsSound program.now }
    ensures { result ≡ is_equal (without_funcs program.now) (wire.Ptr (wire_view v)) (wire_of right) }
{
    match right {
        Value::Ptr(w) => v.block.serial == w.block.serial
            && position(program, v) == position(program, w),
        _ => false,
    }
}

fn is_equal(program: &Program, left: Value, right: Value) -> bool
    requires { IsSound program.now }
    ensures { result ≡ is_equal (without_funcs program.now) (wire_of left) (wire_of right) }
{
    match left {
        Value::Int(_, a) => match right {
            Value::Int(_, b) => a == b,
            _ => false,
        },
        Value::Null => match right {
            Value::Null => true,
            _ => false,
        },
        Value::Ptr(v) => is_equal_view(program, v, right),
        Value::Fn(f) => match right {
            Value::Fn(g) => f == g,
            _ => false,
        },
        Value::Dead => false,
        Value::Lock(_) => false,
        Value::NoValue => false,
    }
}

fn by_order(op: RelOp, less: bool, equal: bool) -> bool
    ensures { result ≡ by_order op less equal }
{
    match op {
        RelOp::Eq => equal,
        RelOp::Ne => !equal,
        RelOp::Lt => less,
        RelOp::Le => less || equal,
        RelOp::Gt => !(less || equal),
        RelOp::Ge => !less,
    }
}

fn ordered_views(program: &Program, op: RelOp, v: View, w: View) -> Result<Value, StopKind>
    requires { IsSound program.now }
    ensures { wired result ≡ ordered (without_funcs program.now) op (wire.Ptr (wire_view v)) (wire.Ptr (wire_view w)) }
{
    if v.block.serial != w.block.serial {
        return Err(StopKind::Compare);
    }
    let left = position(program, v);
    let right = position(program, w);
    Ok(truth(by_order(op, left < right, left == right)))
}

fn ordered_view(program: &Program, op: RelOp, v: View, right: Value) -> Result<Value, StopKind>
    requires { IsSound program.now }
    ensures { wired result ≡ ordered (without_funcs program.now) op (wire.Ptr (wire_view v)) (wire_of right) }
{
    match right {
        Value::Ptr(w) => ordered_views(program, op, v, w),
        _ => Err(StopKind::Compare),
    }
}

fn ordered(program: &Program, op: RelOp, left: Value, right: Value) -> Result<Value, StopKind>
    requires { IsSound program.now }
    ensures { wired result ≡ ordered (without_funcs program.now) op (wire_of left) (wire_of right) }
{
    match left {
        Value::Int(_, a) => match right {
            Value::Int(_, b) => Ok(truth(by_order(op, a < b, a == b))),
            _ => Err(StopKind::Compare),
        },
        Value::Ptr(v) => ordered_view(program, op, v, right),
        _ => Err(StopKind::Compare),
    }
}

fn related_values(
    program: &Program,
    op: RelOp,
    left: Value,
    right: Value,
) -> Result<Value, StopKind>
    requires { IsSound program.now }
    ensures { wired result ≡ related (without_funcs program.now) op (wire_of left) (wire_of right) }
{
    match op {
        RelOp::Eq => Ok(truth(is_equal(program, left, right))),
        RelOp::Ne => Ok(truth(!is_equal(program, left, right))),
        RelOp::Lt => ordered(program, op, left, right),
        RelOp::Le => ordered(program, op, left, right),
        RelOp::Gt => ordered(program, op, left, right),
        RelOp::Ge => ordered(program, op, left, right),
    }
}

/// A comparison.
pub(crate) fn related(
    program: &Program,
    op: RelOp,
    left: Result<Value, StopKind>,
    right: Result<Value, StopKind>,
) -> Result<Value, StopKind>
    requires { IsSound program.now }
    ensures { wired result ≡ after_value (wired left) (λ v. after_value (wired right) (λ w. related (without_funcs program.now) op v w)) }
{
    match left {
        Ok(x) => match right {
            Ok(y) => related_values(program, op, x, y),
            Err(stop) => Err(stop),
        },
        Err(stop) => Err(stop),
    }
}
