// Expressions in which all are integers. A smaller result than that of `evaluated` makes them fast.

ghost use Rattle.std.specs.Prelude.{◌≡◌, IfSome, Ok, true};
ghost use Rattle.mdr_core.specs.Folds.{lvalue_of, term_of};
ghost use Rattle.mdr_meaning.specs.Bodies.{known_of};
ghost use Rattle.mdr_meaning.specs.Pointers.{global};
ghost use Rattle.mdr_events.specs.Integers.{HasFirst, integer_wire};
ghost use Rattle.mdr_events.specs.Values.{wires_of};
ghost use Rattle.mdr_exec.specs.Evaluation.{loaded_of, value_of};

use crate::integer::{
    as_integer, as_truth, compared, flipped, inverted, is_true, negated, operated, slot_integer,
    truth_of,
};
use crate::pointers::global_at;
use mdr_arith::conv;
use mdr_core::{Expr, Lval, Program, Value};
use mdr_events::{Integer, Memory};

/// Whether a global is there, with a first cell.
pub(crate) fn has_first(program: &Program, g: u32) -> bool
    ensures { result ≡ true → HasFirst (known_of program.now) g }
{
    match global_at(program, g) {
        Some(def) => def.count > 0,
        None => false,
    }
}

/// The integer in the first cell of a global.
fn global_integer<C: Memory>(program: &Program, memory: &C, g: u32) -> Option<Integer>
    ensures { IfSome result (λ n. C.accesses.load memory.now (global (known_of program.now) g) ≡ Ok (integer_wire n)) }
{
    if has_first(program, g) {
        memory.first(g as u64)
    } else {
        None
    }
}

/// The integer that an lvalue names.
#[tactic(auto, unfolding(crate::specs::Evaluation::place_of))]
fn loaded<C: Memory>(program: &Program, memory: &C, slots: &[Value], p: &Lval) -> Option<Integer>
    ensures { IfSome result (λ n. Ok (integer_wire n) ≡ loaded_of C.accesses memory.now (known_of program.now) (wires_of slots.now) (lvalue_of p.now)) }
{
    match p {
        Lval::Slot(i) => slot_integer(slots, *i),
        Lval::Global(g) => global_integer(program, memory, *g),
        _ => None,
    }
}

/// The integer that an expression comes to, where all in it are integers and it doesn't stop.
#[cycle(integers)]
#[tactic(auto, unfolding(crate::specs::Evaluation::value_of))]
pub(crate) fn integer_of<C: Memory>(
    program: &Program,
    memory: &C,
    slots: &[Value],
    e: &Expr,
) -> Option<Integer>
    ensures { IfSome result (λ n. Ok (integer_wire n) ≡ value_of C.accesses memory.now (known_of program.now) (wires_of slots.now) (term_of e.now)) }
{
    match e {
        Expr::Lit(value) => as_integer(*value),
        Expr::Load(p) => loaded(program, memory, slots, p),
        Expr::Bin(_, _, _, _) => binary(program, memory, slots, e),
        Expr::Rel(_, _, _) => relation(program, memory, slots, e),
        Expr::Conv(_, _) => conversion(program, memory, slots, e),
        Expr::Neg(_, _) => negation(program, memory, slots, e),
        Expr::Flip(_, _) => complement(program, memory, slots, e),
        Expr::Not(_) => inversion(program, memory, slots, e),
        Expr::And(_, _) => conjunction(program, memory, slots, e),
        Expr::Or(_, _) => disjunction(program, memory, slots, e),
        _ => None,
    }
}

/// The same of an operand, which most often is a literal or in a slot.
#[cycle(integers)]
#[tactic(auto, unfolding(crate::specs::Evaluation::value_of))]
fn operand<C: Memory>(program: &Program, memory: &C, slots: &[Value], e: &Expr) -> Option<Integer>
    ensures { IfSome result (λ n. Ok (integer_wire n) ≡ value_of C.accesses memory.now (known_of program.now) (wires_of slots.now) (term_of e.now)) }
{
    match e {
        Expr::Lit(value) => as_integer(*value),
        Expr::Load(Lval::Slot(i)) => slot_integer(slots, *i),
        _ => integer_of(program, memory, slots, e),
    }
}

/// An operator with two operands.
#[cycle(integers)]
#[tactic(auto, unfolding(crate::specs::Evaluation::value_of))]
fn binary<C: Memory>(program: &Program, memory: &C, slots: &[Value], e: &Expr) -> Option<Integer>
    ensures { IfSome result (λ n. Ok (integer_wire n) ≡ value_of C.accesses memory.now (known_of program.now) (wires_of slots.now) (term_of e.now)) }
{
    match e {
        Expr::Bin(op, kind, x, y) => {
            let left = operand(program, memory, slots, x.get())?;
            let right = operand(program, memory, slots, y.get())?;
            operated(*op, *kind, left.number, right.number)
        }
        _ => None,
    }
}

/// A comparison.
#[cycle(integers)]
#[tactic(auto, unfolding(crate::specs::Evaluation::value_of))]
fn relation<C: Memory>(program: &Program, memory: &C, slots: &[Value], e: &Expr) -> Option<Integer>
    ensures { IfSome result (λ n. Ok (integer_wire n) ≡ value_of C.accesses memory.now (known_of program.now) (wires_of slots.now) (term_of e.now)) }
{
    match e {
        Expr::Rel(op, x, y) => {
            let left = operand(program, memory, slots, x.get())?;
            let right = operand(program, memory, slots, y.get())?;
            Some(compared(*op, left, right))
        }
        _ => None,
    }
}

/// A conversion.
#[cycle(integers)]
#[tactic(auto, unfolding(crate::specs::Evaluation::value_of))]
fn conversion<C: Memory>(
    program: &Program,
    memory: &C,
    slots: &[Value],
    e: &Expr,
) -> Option<Integer>
    ensures { IfSome result (λ n. Ok (integer_wire n) ≡ value_of C.accesses memory.now (known_of program.now) (wires_of slots.now) (term_of e.now)) }
{
    match e {
        Expr::Conv(kind, x) => {
            let x = operand(program, memory, slots, x.get())?;
            Some(Integer {
                number: conv(*kind, x.number),
                kind: *kind,
            })
        }
        _ => None,
    }
}

/// The sign changed.
#[cycle(integers)]
#[tactic(auto, unfolding(crate::specs::Evaluation::value_of))]
fn negation<C: Memory>(program: &Program, memory: &C, slots: &[Value], e: &Expr) -> Option<Integer>
    ensures { IfSome result (λ n. Ok (integer_wire n) ≡ value_of C.accesses memory.now (known_of program.now) (wires_of slots.now) (term_of e.now)) }
{
    match e {
        Expr::Neg(kind, x) => {
            let x = operand(program, memory, slots, x.get())?;
            negated(*kind, x.number)
        }
        _ => None,
    }
}

/// Each bit turned.
#[cycle(integers)]
#[tactic(auto, unfolding(crate::specs::Evaluation::value_of))]
fn complement<C: Memory>(
    program: &Program,
    memory: &C,
    slots: &[Value],
    e: &Expr,
) -> Option<Integer>
    ensures { IfSome result (λ n. Ok (integer_wire n) ≡ value_of C.accesses memory.now (known_of program.now) (wires_of slots.now) (term_of e.now)) }
{
    match e {
        Expr::Flip(kind, x) => {
            let x = operand(program, memory, slots, x.get())?;
            Some(flipped(*kind, x.number))
        }
        _ => None,
    }
}

/// 1 where the operand is zero.
#[cycle(integers)]
#[tactic(auto, unfolding(crate::specs::Evaluation::value_of))]
fn inversion<C: Memory>(program: &Program, memory: &C, slots: &[Value], e: &Expr) -> Option<Integer>
    ensures { IfSome result (λ n. Ok (integer_wire n) ≡ value_of C.accesses memory.now (known_of program.now) (wires_of slots.now) (term_of e.now)) }
{
    match e {
        Expr::Not(x) => {
            let x = operand(program, memory, slots, x.get())?;
            Some(inverted(x))
        }
        _ => None,
    }
}

/// `&&`: the right operand is evaluated where the left one is true.
#[cycle(integers)]
#[tactic(auto, unfolding(crate::specs::Evaluation::value_of))]
fn conjunction<C: Memory>(
    program: &Program,
    memory: &C,
    slots: &[Value],
    e: &Expr,
) -> Option<Integer>
    ensures { IfSome result (λ n. Ok (integer_wire n) ≡ value_of C.accesses memory.now (known_of program.now) (wires_of slots.now) (term_of e.now)) }
{
    match e {
        Expr::And(x, y) => {
            let left = operand(program, memory, slots, x.get())?;
            if is_true(left) {
                let right = operand(program, memory, slots, y.get())?;
                Some(as_truth(right))
            } else {
                Some(truth_of(false))
            }
        }
        _ => None,
    }
}

/// `||`: the right operand is evaluated where the left one is false.
#[cycle(integers)]
#[tactic(auto, unfolding(crate::specs::Evaluation::value_of))]
fn disjunction<C: Memory>(
    program: &Program,
    memory: &C,
    slots: &[Value],
    e: &Expr,
) -> Option<Integer>
    ensures { IfSome result (λ n. Ok (integer_wire n) ≡ value_of C.accesses memory.now (known_of program.now) (wires_of slots.now) (term_of e.now)) }
{
    match e {
        Expr::Or(x, y) => {
            let left = operand(program, memory, slots, x.get())?;
            if is_true(left) {
                Some(truth_of(true))
            } else {
                let right = operand(program, memory, slots, y.get())?;
                Some(as_truth(right))
            }
        }
        _ => None,
    }
}
