// Statements, lowered.

ghost use Rattle.std.specs.Prelude.{◌≡◌, ◌≤◌, [], map, IfOk, OnOk};
ghost use Rattle.mdr_core.specs.Limits.{most};
ghost use Rattle.mdr_core.specs.declared.code.Step.TheVariants as step;
ghost use Rattle.mdr_core.specs.declared.memory_error.Limit.TheVariants as limit;
ghost use Rattle.mdr_rich.specs.Carried.{type_of};
ghost use Rattle.mdr_rich.specs.Folds.{term_of};
ghost use Rattle.mdr_lower.specs.Apart.{apart, arm, arms, outside};
ghost use Rattle.mdr_lower.specs.Levels.{levels};
ghost use Rattle.mdr_lower.specs.Lowering.{put, done, mapped, inside, kept, within, run, low, again, blocked, turn, done_while};
ghost use Rattle.mdr_lower.specs.Lowering.{expr_lowered, place_lowered, target_lowered, perhaps_lowered, assigned};
ghost use Rattle.mdr_lower.specs.Lowering.{call_made, call_lowered, step_lowered, clause_lowered, stmt_lowered, lowered};

use crate::arms::{Arm, labelled, put_arms};
use crate::calls::lowered_call;
use crate::expressions::{boxed, low, low_part, low_place};
use crate::nesting::few_levels;
use crate::parts::part_kept;
use crate::release::{left_over, let_go};
use crate::turns::{again_apart, always, put_for, test_apart, tested, tested_again};
use crate::work::{Work, begun, put, put_back, set_aside, with_slot};
use mdr_core as plain;
use mdr_core::{Items, Kind, Ty};
use mdr_faults::copied;
use mdr_rich::{CallForm, Clause, Expr, Lval, Step, Stmt, is_active, is_active_place};
use std::alloc::{AllocError, Global};

// ---- statements with no statement inside

fn place_and_put(
    alloc: Global,
    number: u32,
    place: &Lval,
    value: plain::Expr,
    work: &mut Work,
) -> Result<(), AllocError>
    ensures { OnOk result (work.new ≡ put number (step.Assign (place_lowered number place.now work.old).1 value) (place_lowered number place.now work.old).0) }
{
    match low_place(alloc, number, place, work) {
        Ok(place) => put(number, plain::Step::Assign(place, value), work),
        Err(error) => left_over(error, value),
    }
}

fn assigned(
    alloc: Global,
    number: u32,
    place: &Lval,
    value: &Expr,
    work: &mut Work,
) -> Result<(), AllocError>
    ensures { OnOk result (work.new ≡ done number (assigned number place.now value.now work.old)) }
{
    let value = low_part(alloc, number, value, is_active_place(place), work)?;
    place_and_put(alloc, number, place, value, work)
}

fn lowered_target(
    alloc: Global,
    number: u32,
    target: &Option<Lval>,
    work: &mut Work,
) -> Result<Option<plain::Lval>, AllocError>
    ensures told { IfOk result (λ p. p ≡ (target_lowered number target.now work.old).1) }
    ensures grown { OnOk result (work.new ≡ (target_lowered number target.now work.old).0) }
{
    match target {
        None => Ok(None),
        Some(place) => Ok(Some(low_place(alloc, number, place, work)?)),
    }
}

fn target_and_put(
    alloc: Global,
    number: u32,
    target: &Option<Lval>,
    form: plain::CallForm,
    work: &mut Work,
) -> Result<(), AllocError>
    ensures { OnOk result (work.new ≡ put number (step.Call (target_lowered number target.now work.old).1 form) (target_lowered number target.now work.old).0) }
{
    match lowered_target(alloc, number, target, work) {
        Ok(target) => put(number, plain::Step::Call(target, form), work),
        Err(error) => left_over(error, form),
    }
}

fn called(
    alloc: Global,
    number: u32,
    target: &Option<Lval>,
    form: &CallForm,
    work: &mut Work,
) -> Result<(), AllocError>
    ensures { OnOk result (work.new ≡ done number (call_made number target.now form.now work.old)) }
{
    let form = lowered_call(alloc, number, form, work)?;
    target_and_put(alloc, number, target, form, work)
}

fn lowered_value(
    alloc: Global,
    number: u32,
    value: &Option<Expr>,
    work: &mut Work,
) -> Result<Option<plain::Expr>, AllocError>
    ensures told { IfOk result (λ e. e ≡ (perhaps_lowered number value.now work.old).1) }
    ensures grown { OnOk result (work.new ≡ (perhaps_lowered number value.now work.old).0) }
{
    match value {
        None => Ok(None),
        Some(value) => Ok(Some(low(alloc, number, value, work)?)),
    }
}

fn returned(
    alloc: Global,
    number: u32,
    value: &Option<Expr>,
    work: &mut Work,
) -> Result<(), AllocError>
    ensures { OnOk result (work.new ≡ done number (mapped step.Return (perhaps_lowered number value.now work.old))) }
{
    let value = lowered_value(alloc, number, value, work)?;
    put(number, plain::Step::Return(value), work)
}

fn returned_call(
    alloc: Global,
    number: u32,
    form: &CallForm,
    work: &mut Work,
) -> Result<(), AllocError>
    ensures { OnOk result (work.new ≡ done number (mapped step.ReturnCall (call_lowered number form.now work.old))) }
{
    let form = lowered_call(alloc, number, form, work)?;
    put(number, plain::Step::ReturnCall(form), work)
}

/// A value is kept, and its slot's number is given.
fn kept_value(alloc: Global, number: u32, value: &Expr, work: &mut Work) -> Result<u32, AllocError>
    ensures told { IfOk result (λ i. i ≡ (expr_lowered number value.now work.old).0.next) }
    ensures grown { OnOk result (work.new ≡ (kept number (type_of (term_of value.now)) (expr_lowered number value.now work.old)).0) }
{
    let lowered = low(alloc, number, value, work)?;
    let slot = work.next;
    let_go(part_kept(alloc, number, value, lowered, work)?);
    Ok(slot)
}

// ---- statements with those inside

/// The statements of a list, which stand inside another.
#[cycle(statements)]
fn list_apart(
    alloc: Global,
    statements: &[Stmt],
    work: &mut Work,
) -> Result<Items<plain::Stmt>, AllocError>
    ensures told { IfOk result (λ ss. ss ≡ (apart work.old (within work.old (map stmt_lowered statements.now))).1) }
    ensures grown { OnOk result (work.new ≡ (apart work.old (within work.old (map stmt_lowered statements.now))).0) }
{
    let front = set_aside(alloc, work);
    match put_list(alloc, statements, work) {
        Ok(()) => Ok(put_back(front, work)),
        Err(error) => left_over(error, front),
    }
}

/// A block.
#[cycle(statements)]
fn put_block(alloc: Global, body: &[Stmt], number: u32, work: &mut Work) -> Result<(), AllocError>
    ensures { OnOk result (work.new ≡ blocked number work.old (within work.old (map stmt_lowered body.now))) }
{
    let body = list_apart(alloc, body, work)?;
    put(number, plain::Step::Block(body), work)
}

/// A test and a body.
#[cycle(statements)]
fn put_turn(
    alloc: Global,
    body: &[Stmt],
    number: u32,
    test: &Expr,
    work: &mut Work,
) -> Result<(), AllocError>
    ensures { OnOk result (work.new ≡ turn number (expr_lowered number test.now work.old) (map stmt_lowered body.now)) }
{
    tested(alloc, number, test, work)?;
    put_block(alloc, body, 0, work)
}

/// The same inside another statement.
#[cycle(statements)]
fn turn_apart(
    alloc: Global,
    body: &[Stmt],
    number: u32,
    test: &Expr,
    work: &mut Work,
) -> Result<Items<plain::Stmt>, AllocError>
    ensures told { IfOk result (λ ss. ss ≡ (apart work.old (turn number (expr_lowered number test.now (inside work.old)) (map stmt_lowered body.now))).1) }
    ensures grown { OnOk result (work.new ≡ (apart work.old (turn number (expr_lowered number test.now (inside work.old)) (map stmt_lowered body.now))).0) }
{
    let front = set_aside(alloc, work);
    match put_turn(alloc, body, number, test, work) {
        Ok(()) => Ok(put_back(front, work)),
        Err(error) => left_over(error, front),
    }
}

/// The test and the body of a `do`.
#[cycle(statements)]
fn put_again(
    alloc: Global,
    body: &[Stmt],
    number: u32,
    slot: u32,
    test: &Expr,
    work: &mut Work,
) -> Result<(), AllocError>
    ensures { OnOk result (work.new ≡ turn number (low number (again slot (term_of test.now)) work.old) (map stmt_lowered body.now)) }
{
    tested_again(alloc, number, slot, test, work)?;
    put_block(alloc, body, 0, work)
}

/// The same inside another statement.
#[cycle(statements)]
fn turns_apart(
    alloc: Global,
    body: &[Stmt],
    number: u32,
    slot: u32,
    test: &Expr,
    work: &mut Work,
) -> Result<Items<plain::Stmt>, AllocError>
    ensures told { IfOk result (λ ss. ss ≡ (apart work.old (turn number (low number (again slot (term_of test.now)) (inside work.old)) (map stmt_lowered body.now))).1) }
    ensures grown { OnOk result (work.new ≡ (apart work.old (turn number (low number (again slot (term_of test.now)) (inside work.old)) (map stmt_lowered body.now))).0) }
{
    let front = set_aside(alloc, work);
    match put_again(alloc, body, number, slot, test, work) {
        Ok(()) => Ok(put_back(front, work)),
        Err(error) => left_over(error, front),
    }
}

/// A `do`, behind the slot that tells its first turn.
#[cycle(statements)]
fn put_do(
    alloc: Global,
    body: &[Stmt],
    number: u32,
    slot: u32,
    test: &Expr,
    work: &mut Work,
) -> Result<(), AllocError>
    ensures { OnOk result (work.new ≡ done_while number slot (term_of test.now) (map stmt_lowered body.now) work.old) }
{
    if is_active(test) {
        let body = turns_apart(alloc, body, number, slot, test, work)?;
        put_for(alloc, number, slot, None, body, work)
    } else {
        let test = again_apart(alloc, number, slot, test, work)?;
        let body = list_apart(alloc, body, work)?;
        put_for(alloc, number, slot, Some(test.into_inner()), body, work)
    }
}

/// A clause, for the value in the slot.
#[cycle(statements)]
fn arm_apart(alloc: Global, clause: &Clause, slot: u32, work: &mut Work) -> Result<Arm, AllocError>
    ensures told { IfOk result (λ a. a ≡ arm slot (clause_lowered clause.now) work.old) }
    ensures grown { OnOk result (work.new ≡ outside work.old.code (within work.old (clause_lowered clause.now).1)) }
{
    let body = list_apart(alloc, clause.body.as_slice(), work)?;
    labelled(alloc, slot, clause.labels.as_slice(), body)
}

/// The clauses of a `switch`, for the value in the slot.
#[cycle(statements)]
fn arms_apart(
    alloc: Global,
    clauses: &[Clause],
    slot: u32,
    work: &mut Work,
) -> Result<Items<Arm>, AllocError>
    ensures told { IfOk result (λ a. a ≡ (arms slot (map clause_lowered clauses.now) [] work.old).1) }
    ensures grown { OnOk result (work.new ≡ (arms slot (map clause_lowered clauses.now) [] work.old).0) }
{
    let mut all = Items::new(alloc);
    for clause in clauses {
        all.push(arm_apart(alloc, clause, slot, work)?)?;
    }
    Ok(all)
}

#[cycle(statements)]
fn put_step(alloc: Global, s: &Step, number: u32, work: &mut Work) -> Result<(), AllocError>
    ensures { OnOk result (work.new ≡ step_lowered s.now number work.old) }
{
    match s {
        Step::Declare(slot) => put(number, plain::Step::Declare(*slot), work),
        Step::Text(slot, text) => {
            put(
                number,
                plain::Step::Text(*slot, copied(alloc, text.as_slice())?),
                work,
            )
        }
        Step::Assign(place, value) => assigned(alloc, number, place, value, work),
        Step::Call(target, form) => called(alloc, number, target, form, work),
        Step::If(test, one, other) => {
            let test = boxed(alloc, number, test, work)?;
            let one = list_apart(alloc, one.as_slice(), work)?;
            let other = list_apart(alloc, other.as_slice(), work)?;
            put(number, plain::Step::If(test.into_inner(), one, other), work)
        }
        Step::While(test, body) => {
            if is_active(test) {
                let body = turn_apart(alloc, body.as_slice(), number, test, work)?;
                put(number, plain::Step::While(always(), body), work)
            } else {
                let test = boxed(alloc, number, test, work)?;
                let body = list_apart(alloc, body.as_slice(), work)?;
                put(number, plain::Step::While(test.into_inner(), body), work)
            }
        }
        Step::For(init, test, next, body) => {
            let init = list_apart(alloc, init.as_slice(), work)?;
            match test {
                None => {
                    let next = list_apart(alloc, next.as_slice(), work)?;
                    let body = list_apart(alloc, body.as_slice(), work)?;
                    put(number, plain::Step::For(init, None, next, body), work)
                }
                Some(test) => {
                    if is_active(test) {
                        let next = list_apart(alloc, next.as_slice(), work)?;
                        let body = turn_apart(alloc, body.as_slice(), number, test, work)?;
                        put(number, plain::Step::For(init, None, next, body), work)
                    } else {
                        let held = test_apart(alloc, number, test, work)?;
                        let next = list_apart(alloc, next.as_slice(), work)?;
                        let body = list_apart(alloc, body.as_slice(), work)?;
                        let held = Some(held.into_inner());
                        put(number, plain::Step::For(init, held, next, body), work)
                    }
                }
            }
        }
        Step::Do(body, test) => {
            let slot = with_slot(alloc, Ty::Int(Kind::S32), work)?;
            put_do(alloc, body.as_slice(), number, slot, test, work)
        }
        Step::Switch(value, clauses, default) => {
            let slot = kept_value(alloc, number, value, work)?;
            let arms = arms_apart(alloc, clauses.as_slice(), slot, work)?;
            let default = list_apart(alloc, default.as_slice(), work)?;
            put_arms(alloc, number, arms, default, work)
        }
        Step::Return(value) => returned(alloc, number, value, work),
        Step::ReturnCall(form) => returned_call(alloc, number, form, work),
        Step::Break => put(number, plain::Step::Break, work),
        Step::Continue => put(number, plain::Step::Continue, work),
        Step::Empty => put(number, plain::Step::Empty, work),
        Step::Block(body) => put_block(alloc, body.as_slice(), number, work),
    }
}

#[cycle(statements)]
fn put_stmt(alloc: Global, s: &Stmt, work: &mut Work) -> Result<(), AllocError>
    ensures { OnOk result (work.new ≡ stmt_lowered s.now work.old) }
{
    put_step(alloc, &s.step, s.number, work)
}

#[cycle(statements)]
fn put_list(alloc: Global, statements: &[Stmt], work: &mut Work) -> Result<(), AllocError>
    ensures { OnOk result (work.new ≡ run work.old (map stmt_lowered statements.now)) }
{
    for s in statements {
        put_stmt(alloc, s, work)?;
    }
    Ok(())
}

/// The statements of a body as those of a program, where the first new slot has this number.
pub fn lowered(alloc: Global, next: u32, statements: &[Stmt]) -> Result<Work, AllocError>
    ensures told { IfOk result (λ w. w ≡ lowered next statements.now) }
    ensures few { OnOk result (levels statements.now ≤ most limit.Levels) }
{
    few_levels(statements)?;
    let mut work = begun(alloc, next);
    match put_list(alloc, statements, &mut work) {
        Ok(()) => Ok(work),
        Err(error) => left_over(error, work),
    }
}
