// The clauses of a `switch` that were lowered, as statements one in the other (C99 6.8.4.2).

ghost use Rattle.std.specs.Prelude.{◌≡◌, IfOk, OnOk};
ghost use Rattle.mdr_core.specs.declared.code.Expr.TheVariants as expr;
ghost use Rattle.mdr_core.specs.declared.code.Step.TheVariants as step;
ghost use Rattle.mdr_lower.specs.declared.arms.Arm.{Arm};
ghost use Rattle.mdr_lower.specs.Apart.{behind, chain, way};
ghost use Rattle.mdr_lower.specs.Lowering.{stmt, is_label, or_label, is_labelled};

use crate::release::left_over;
use crate::work::{Work, slot_value};
use mdr_core::{Boxed, Expr, Items, Kind, RelOp, Step, Stmt, Value};
use std::alloc::{AllocError, Global};

/// A clause: its test, and what is done where it holds.
#[derive(Drop)]
pub struct Arm {
    pub test: Expr,
    pub body: Items<Stmt>,
}

fn is_label(alloc: Global, slot: u32, label: Value) -> Result<Expr, AllocError>
    ensures { IfOk result (λ e. e ≡ is_label slot label) }
{
    let value = Boxed::new(alloc, slot_value(slot))?;
    let label = Boxed::new(alloc, Expr::Lit(label))?;
    Ok(Expr::Rel(RelOp::Eq, value, label))
}

fn or_label(alloc: Global, slot: u32, so_far: Boxed<Expr>, label: Value) -> Result<Expr, AllocError>
    ensures { IfOk result (λ e. e ≡ expr.Or so_far (is_label slot label)) }
{
    let label = is_label(alloc, slot, label)?;
    Ok(Expr::Or(so_far, Boxed::new(alloc, label)?))
}

fn or_labels(alloc: Global, slot: u32, first: Expr, labels: &[Value]) -> Result<Expr, AllocError>
    ensures { IfOk result (λ e. e ≡ or_label slot first labels.now) }
{
    let mut test = first;
    for label in labels {
        test = or_label(alloc, slot, Boxed::new(alloc, test)?, *label)?;
    }
    Ok(test)
}

/// Whether the value in the slot is that of one of the labels.
fn is_labelled(alloc: Global, slot: u32, labels: &[Value]) -> Result<Expr, AllocError>
    ensures { IfOk result (λ e. e ≡ is_labelled slot labels.now) }
{
    match labels.split_first() {
        None => Ok(Expr::Lit(Value::Int(Kind::S32, 0))),
        Some((first, others)) => {
            let first = is_label(alloc, slot, *first)?;
            or_labels(alloc, slot, first, others)
        }
    }
}

/// A clause with these labels, of the value in the slot.
pub fn labelled(
    alloc: Global,
    slot: u32,
    labels: &[Value],
    body: Items<Stmt>,
) -> Result<Arm, AllocError>
    ensures { IfOk result (λ a. a ≡ record { test = is_labelled slot labels.now; body = body }) }
{
    match is_labelled(alloc, slot, labels) {
        Ok(test) => Ok(Arm { test, body }),
        Err(error) => left_over(error, body),
    }
}

fn way(alloc: Global, number: u32, arm: Arm, other: Stmt) -> Result<Stmt, AllocError>
    ensures { IfOk result (λ s. s ≡ way number arm other) }
{
    let mut others = Items::new(alloc);
    others.push(other)?;
    Ok(Stmt {
        number,
        step: Step::If(arm.test, arm.body, others),
    })
}

#[tactic(auto, using(crate::proofs::Chained::chain_last, crate::proofs::Chained::one_less))]
fn chain(
    alloc: Global,
    number: u32,
    arms: Items<Arm>,
    default: Items<Stmt>,
) -> Result<Stmt, AllocError>
    ensures { IfOk result (λ s. s ≡ chain number arms (stmt 0 (step.Block default))) }
{
    let mut arms = arms.into_vec();
    let mut last = Stmt {
        number: 0,
        step: Step::Block(default),
    };
    while let Some(arm) = arms.pop() {
        last = way(alloc, number, arm, last)?;
    }
    Ok(last)
}

/// The clauses, and what is done where none of them is taken.
pub fn put_arms(
    alloc: Global,
    number: u32,
    arms: Items<Arm>,
    default: Items<Stmt>,
    work: &mut Work,
) -> Result<(), AllocError>
    ensures { OnOk result (work.new ≡ behind (chain number arms (stmt 0 (step.Block default))) work.old) }
{
    work.code.push(chain(alloc, number, arms, default)?)?;
    Ok(())
}
