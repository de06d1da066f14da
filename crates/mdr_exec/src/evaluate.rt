// What expressions and lvalues come to.

ghost use Rattle.std.specs.Prelude.{◌≡◌};
ghost use Rattle.mdr_core.specs.Folds.{lvalue_of, term_of};
ghost use Rattle.mdr_core.specs.Sound.{IsSound};
ghost use Rattle.mdr_meaning.specs.Bodies.{known_of};
ghost use Rattle.mdr_meaning.specs.Values.{wire_of};
ghost use Rattle.mdr_events.specs.Outcomes.{wired};
ghost use Rattle.mdr_events.specs.Values.{wires_of};
ghost use Rattle.mdr_exec.specs.Evaluation.{after_value, fresh_of, loaded_by, loaded_of, place_of, value_of};

use crate::members::member;
use crate::operators::{
    as_truth, both_by, combined, converted, either_by, flipped, inverted, negated,
};
use crate::pointers::{cast, difference, global, moved, related};
use crate::values::slot_at;
use mdr_core::{Expr, Lval, Program, StopKind, Value};
use mdr_events::Memory;

/// What a slot holds is read.
fn fresh<C: Memory>(memory: &C, value: Value) -> Result<Value, StopKind>
    ensures { wired result ≡ fresh_of C.accesses memory.now (wire_of value) }
{
    match value {
        Value::Ptr(_) => memory.fresh(value),
        Value::Dead => memory.fresh(value),
        _ => Ok(value),
    }
}

fn loaded<C: Memory>(memory: &C, place: Result<Value, StopKind>) -> Result<Value, StopKind>
    ensures { wired result ≡ after_value (wired place) (C.accesses.load memory.now) }
{
    match place {
        Ok(pointer) => memory.load(pointer),
        Err(stop) => Err(stop),
    }
}

/// The value of what an lvalue names, given its place.
fn loaded_by<C: Memory>(
    memory: &C,
    slots: &[Value],
    lvalue: &Lval,
    place: Result<Value, StopKind>,
) -> Result<Value, StopKind>
    ensures { wired result ≡ loaded_by C.accesses memory.now (wires_of slots.now) (lvalue_of lvalue.now) (wired place) }
{
    match lvalue {
        Lval::Slot(i) => fresh(memory, slot_at(slots, *i)),
        Lval::Object(_) => loaded(memory, place),
        Lval::Global(_) => loaded(memory, place),
        Lval::Deref(_) => loaded(memory, place),
        Lval::Member(_, _) => loaded(memory, place),
        Lval::Index(_, _) => loaded(memory, place),
    }
}

// ---- expressions and lvalues

/// The value of an expression, or the first stop from left to right.
#[cycle(evaluate)]
#[tactic(auto, unfolding(crate::specs::Evaluation::value_of))]
pub(crate) fn evaluated<C: Memory>(
    program: &Program,
    memory: &C,
    slots: &[Value],
    e: &Expr,
) -> Result<Value, StopKind>
    requires { IsSound program.now }
    ensures { wired result ≡ value_of C.accesses memory.now (known_of program.now) (wires_of slots.now) (term_of e.now) }
{
    match e {
        Expr::Lit(value) => Ok(*value),
        Expr::Load(p) => load_place(program, memory, slots, p),
        Expr::Addr(p) => located(program, memory, slots, p),
        Expr::Decay(p) => located(program, memory, slots, p),
        Expr::Neg(kind, e) => negated(*kind, evaluated(program, memory, slots, e.get())),
        Expr::Flip(kind, e) => flipped(*kind, evaluated(program, memory, slots, e.get())),
        Expr::Not(e) => inverted(evaluated(program, memory, slots, e.get())),
        Expr::Bin(op, kind, x, y) => {
            let left = evaluated(program, memory, slots, x.get());
            let right = evaluated(program, memory, slots, y.get());
            combined(*op, *kind, left, right)
        }
        Expr::Rel(op, x, y) => {
            let left = evaluated(program, memory, slots, x.get());
            let right = evaluated(program, memory, slots, y.get());
            related(program, *op, left, right)
        }
        Expr::And(x, y) => match both_by(evaluated(program, memory, slots, x.get())) {
            Some(result) => result,
            None => as_truth(evaluated(program, memory, slots, y.get())),
        },
        Expr::Or(x, y) => match either_by(evaluated(program, memory, slots, x.get())) {
            Some(result) => result,
            None => as_truth(evaluated(program, memory, slots, y.get())),
        },
        Expr::Conv(kind, e) => converted(*kind, evaluated(program, memory, slots, e.get())),
        Expr::ToVoid(e) => evaluated(program, memory, slots, e.get()),
        Expr::FromVoid(ty, e) => cast(program, ty, evaluated(program, memory, slots, e.get())),
        Expr::Move(back, p, i) => {
            let pointer = evaluated(program, memory, slots, p.get());
            let count = evaluated(program, memory, slots, i.get());
            moved(*back, pointer, count)
        }
        Expr::Diff(p, q) => {
            let left = evaluated(program, memory, slots, p.get());
            let right = evaluated(program, memory, slots, q.get());
            difference(left, right)
        }
    }
}

/// The value of what an lvalue names.
#[cycle(evaluate)]
#[tactic(auto, unfolding(crate::specs::Evaluation::place_of))]
fn load_place<C: Memory>(
    program: &Program,
    memory: &C,
    slots: &[Value],
    p: &Lval,
) -> Result<Value, StopKind>
    requires { IsSound program.now }
    ensures { wired result ≡ loaded_of C.accesses memory.now (known_of program.now) (wires_of slots.now) (lvalue_of p.now) }
{
    match p {
        Lval::Slot(i) => fresh(memory, slot_at(slots, *i)),
        Lval::Global(g) => memory.load(global(program, memory, *g)),
        Lval::Object(_) | Lval::Deref(_) | Lval::Member(_, _) | Lval::Index(_, _) => {
            loaded_by(memory, slots, p, located(program, memory, slots, p))
        }
    }
}

/// The address of what an lvalue names, or the first stop from left to right. What lies in a slot has none.
#[cycle(evaluate)]
#[tactic(auto, unfolding(crate::specs::Evaluation::place_of))]
pub(crate) fn located<C: Memory>(
    program: &Program,
    memory: &C,
    slots: &[Value],
    p: &Lval,
) -> Result<Value, StopKind>
    requires { IsSound program.now }
    ensures { wired result ≡ place_of C.accesses memory.now (known_of program.now) (wires_of slots.now) (lvalue_of p.now) }
{
    match p {
        Lval::Slot(_) => Ok(Value::Null),
        Lval::Object(i) => Ok(slot_at(slots, *i)),
        Lval::Global(g) => Ok(global(program, memory, *g)),
        Lval::Deref(e) => evaluated(program, memory, slots, e.get()),
        Lval::Member(p, f) => member(program, located(program, memory, slots, p.get()), *f),
        Lval::Index(p, e) => {
            let pointer = located(program, memory, slots, p.get());
            let count = evaluated(program, memory, slots, e.get());
            moved(false, pointer, count)
        }
    }
}
