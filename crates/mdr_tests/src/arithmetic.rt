// Each operator at the edges of each kind, against what gcc computes. The tables are written by
// table/operators.c, which names the command.

mod bits;
mod conversions;
mod quotients;
mod ranks;
mod shifts;
mod signs;
mod sums;

use crate::expect::expect;
use mdr_arith::{bin, common, conv, flip, neg, promote};
use mdr_core::{BinOp, Kind, Undefined};

/// Stands in a table where C99 leaves the result undefined.
const NO: i128 = i128::MIN;

const KINDS: [Kind; 8] = [
    Kind::U8,
    Kind::U16,
    Kind::U32,
    Kind::U64,
    Kind::S8,
    Kind::S16,
    Kind::S32,
    Kind::S64,
];

fn expected(number: i128, reason: Undefined) -> Result<i128, Undefined> {
    if number == NO {
        Err(reason)
    } else {
        Ok(number)
    }
}

/// An operator at two numbers of its kind.
#[tactic(auto, using(mdr_core::proofs::Operators::right_operand_in_range))]
fn gives(op: BinOp, kind: Kind, a: i128, b: i128, want: i128, reason: Undefined) -> bool {
    if kind.contains(a) && kind.contains(b) {
        bin(op, kind, a, b) == expected(want, reason)
    } else {
        false
    }
}

/// Two numbers of a kind, and what three operators give.
type Three = (Kind, i128, i128, [i128; 3]);

fn are_sums(row: &Three) -> bool {
    let &(kind, a, b, want) = row;
    gives(BinOp::Add, kind, a, b, want[0], Undefined::Overflow)
        && gives(BinOp::Sub, kind, a, b, want[1], Undefined::Overflow)
        && gives(BinOp::Mul, kind, a, b, want[2], Undefined::Overflow)
}

#[test]
fn adds_subtracts_and_multiplies(rt: HostRuntime) {
    for row in sums::SUMS {
        expect(&rt, are_sums(row), row);
    }
}

fn are_quotients(row: &(Kind, i128, i128, [i128; 2])) -> bool {
    let &(kind, a, b, want) = row;
    let reason = if b == 0 {
        Undefined::DivZero
    } else {
        Undefined::Overflow
    };
    gives(BinOp::Div, kind, a, b, want[0], reason) && gives(BinOp::Rem, kind, a, b, want[1], reason)
}

#[test]
fn divides(rt: HostRuntime) {
    for row in quotients::QUOTIENTS {
        expect(&rt, are_quotients(row), row);
    }
}

fn are_bits(row: &Three) -> bool {
    let &(kind, a, b, want) = row;
    gives(BinOp::BitAnd, kind, a, b, want[0], Undefined::Overflow)
        && gives(BinOp::BitOr, kind, a, b, want[1], Undefined::Overflow)
        && gives(BinOp::BitXor, kind, a, b, want[2], Undefined::Overflow)
}

#[test]
fn combines_bits(rt: HostRuntime) {
    for row in bits::BITS {
        expect(&rt, are_bits(row), row);
    }
}

#[tactic(auto, unfolding(mdr_core::specs::Operators::is_right_operand))]
fn are_shifted(row: &(Kind, i128, i128, [i128; 2])) -> bool {
    let &(kind, a, count, want) = row;
    if kind.contains(a) {
        bin(BinOp::Shl, kind, a, count) == expected(want[0], Undefined::Shift)
            && bin(BinOp::Shr, kind, a, count) == expected(want[1], Undefined::Shift)
    } else {
        false
    }
}

#[test]
fn shifts_left_and_right(rt: HostRuntime) {
    for row in shifts::SHIFTS {
        expect(&rt, are_shifted(row), row);
    }
}

fn are_signs(row: &(Kind, i128, [i128; 2])) -> bool {
    let &(kind, a, want) = row;
    if kind.contains(a) {
        neg(kind, a) == expected(want[0], Undefined::Overflow) && flip(kind, a) == want[1]
    } else {
        false
    }
}

#[test]
fn negates_and_flips(rt: HostRuntime) {
    for row in signs::SIGNS {
        expect(&rt, are_signs(row), row);
    }
}

fn are_converted(number: i128, want: &[i128; 8]) -> bool {
    for i in 0..8 {
        if conv(KINDS[i], number) != want[i] {
            return false;
        }
    }
    true
}

#[test]
fn converts(rt: HostRuntime) {
    for row in conversions::CONVERSIONS {
        expect(&rt, are_converted(row.0, &row.1), row);
    }
}

#[test]
fn promotes(rt: HostRuntime) {
    for row in ranks::PROMOTIONS {
        expect(&rt, promote(row.0) == row.1, row);
    }
}

#[test]
fn finds_the_common_kind(rt: HostRuntime) {
    for row in ranks::COMMON {
        expect(&rt, common(row.0, row.1) == row.2, row);
    }
}
