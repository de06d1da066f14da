// Tests of loops, and the statements that tell the first turn of a `do` (C99 6.8.5).

ghost use Rattle.std.specs.Prelude.{◌≡◌, ℤ, [], ◌∷◌, pos, Some, None, Option, IfOk, OnOk};
ghost use Rattle.mdr_core.specs.declared.code.Expr.TheVariants as expr;
ghost use Rattle.mdr_core.specs.declared.code.Lval.TheVariants as lval;
ghost use Rattle.mdr_core.specs.declared.code.Step.TheVariants as step;
ghost use Rattle.mdr_core.specs.declared.kind.Kind.TheVariants.{S32};
ghost use Rattle.mdr_core.specs.declared.value.Value.TheVariants as value;
ghost use Rattle.mdr_rich.specs.Folds.{term_of};
ghost use Rattle.mdr_lower.specs.Apart.{flag, value_apart};
ghost use Rattle.mdr_lower.specs.Lowering.{stmt, put, inside, expr_lowered, always, again, tested, low};

use crate::expressions::{boxed, either, low};
use crate::release::{left_over, let_go};
use crate::work::{Work, put, put_back, set_aside, slot_value};
use mdr_core as plain;
use mdr_core::{Boxed, Items, Kind, Value};
use mdr_rich::Expr;
use std::alloc::{AllocError, Global};

pub fn always() -> plain::Expr
    ensures { result ≡ always }
{
    plain::Expr::Lit(Value::Int(Kind::S32, 1))
}

fn one_break(alloc: Global, number: u32) -> Result<Items<plain::Stmt>, AllocError>
    ensures { IfOk result (λ ss. ss ≡ stmt number step.Break ∷ []) }
{
    let mut all = Items::new(alloc);
    all.push(plain::Stmt {
        number,
        step: plain::Step::Break,
    })?;
    Ok(all)
}

/// A test that stands in a loop's body: the loop is left where it fails.
pub fn tested(alloc: Global, number: u32, test: &Expr, work: &mut Work) -> Result<(), AllocError>
    ensures { OnOk result (work.new ≡ tested number (expr_lowered number test.now work.old)) }
{
    let other = one_break(alloc, number)?;
    let test = low(alloc, number, test, work)?;
    put(
        number,
        plain::Step::If(test, Items::new(alloc), other),
        work,
    )
}

/// The test of a `for`, in front of its step.
pub fn test_apart(
    alloc: Global,
    number: u32,
    test: &Expr,
    work: &mut Work,
) -> Result<Boxed<plain::Expr>, AllocError>
    ensures told { IfOk result (λ e. e ≡ (value_apart work.old (expr_lowered number test.now (inside work.old))).1) }
    ensures grown { OnOk result (work.new ≡ (value_apart work.old (expr_lowered number test.now (inside work.old))).0) }
{
    let front = set_aside(alloc, work);
    match boxed(alloc, number, test, work) {
        Ok(value) => {
            let_go(put_back(front, work));
            Ok(value)
        }
        Err(error) => left_over(error, front),
    }
}

// ---- `do`

/// The test of a `do`, behind the slot of its first turn.
fn low_again(
    alloc: Global,
    number: u32,
    slot: u32,
    test: &Expr,
    work: &mut Work,
) -> Result<plain::Expr, AllocError>
    ensures told { IfOk result (λ x. x ≡ (low number (again slot (term_of test.now)) work.old).1) }
    ensures grown { OnOk result (work.new ≡ (low number (again slot (term_of test.now)) work.old).0) }
{
    let first = Boxed::new(alloc, slot_value(slot))?;
    either(alloc, number, first, test, work)
}

/// The same in the loop's body.
pub fn tested_again(
    alloc: Global,
    number: u32,
    slot: u32,
    test: &Expr,
    work: &mut Work,
) -> Result<(), AllocError>
    ensures { OnOk result (work.new ≡ tested number (low number (again slot (term_of test.now)) work.old)) }
{
    let other = one_break(alloc, number)?;
    let test = low_again(alloc, number, slot, test, work)?;
    put(
        number,
        plain::Step::If(test, Items::new(alloc), other),
        work,
    )
}

fn boxed_again(
    alloc: Global,
    number: u32,
    slot: u32,
    test: &Expr,
    work: &mut Work,
) -> Result<Boxed<plain::Expr>, AllocError>
    ensures told { IfOk result (λ x. x ≡ (low number (again slot (term_of test.now)) work.old).1) }
    ensures grown { OnOk result (work.new ≡ (low number (again slot (term_of test.now)) work.old).0) }
{
    let test = low_again(alloc, number, slot, test, work)?;
    Boxed::new(alloc, test)
}

/// The test in front of the step.
pub fn again_apart(
    alloc: Global,
    number: u32,
    slot: u32,
    test: &Expr,
    work: &mut Work,
) -> Result<Boxed<plain::Expr>, AllocError>
    ensures told { IfOk result (λ e. e ≡ (value_apart work.old (low number (again slot (term_of test.now)) (inside work.old))).1) }
    ensures grown { OnOk result (work.new ≡ (value_apart work.old (low number (again slot (term_of test.now)) (inside work.old))).0) }
{
    let front = set_aside(alloc, work);
    match boxed_again(alloc, number, slot, test, work) {
        Ok(value) => {
            let_go(put_back(front, work));
            Ok(value)
        }
        Err(error) => left_over(error, front),
    }
}

fn flag(
    alloc: Global,
    number: u32,
    slot: u32,
    value: i128,
) -> Result<Items<plain::Stmt>, AllocError>
    ensures { IfOk result (λ ss. ss ≡ flag number slot value) }
{
    let value = plain::Expr::Lit(Value::Int(Kind::S32, value));
    let mut all = Items::new(alloc);
    all.push(plain::Stmt {
        number,
        step: plain::Step::Assign(plain::Lval::Slot(slot), value),
    })?;
    Ok(all)
}

fn flags(
    alloc: Global,
    number: u32,
    slot: u32,
) -> Result<(Items<plain::Stmt>, Items<plain::Stmt>), AllocError>
    ensures { IfOk result (λ f. f ≡ (flag number slot (pos 1), flag number slot (pos 0))) }
{
    let init = flag(alloc, number, slot, 1)?;
    let next = flag(alloc, number, slot, 0)?;
    Ok((init, next))
}

/// A `for` over the turns of a `do`, whose slot is 1 in front of the first one and 0 behind each.
pub fn put_for(
    alloc: Global,
    number: u32,
    slot: u32,
    test: Option<plain::Expr>,
    body: Items<plain::Stmt>,
    work: &mut Work,
) -> Result<(), AllocError>
    ensures { OnOk result (work.new ≡ put number (step.For (flag number slot (pos 1)) test (flag number slot (pos 0)) body) work.old) }
{
    match flags(alloc, number, slot) {
        Ok((init, next)) => put(number, plain::Step::For(init, test, next, body), work),
        Err(error) => left_over(error, (test, body)),
    }
}
