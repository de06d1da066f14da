// What was lowered so far, and what stands inside another statement.

ghost use Rattle.std.specs.Prelude.{◌≡◌, IfOk, OnOk};
ghost use Rattle.mdr_lower.specs.Lowering.{begun, new_slot, with_slot, put, inside, slot_value, kept};
ghost use Rattle.mdr_lower.specs.Apart.{outside};

use crate::release::left_over;
use mdr_core::{Expr, Items, Limit, Local, Lval, Step, Stmt, Ty, below};
use std::alloc::{AllocError, Global};
use std::mem;

/// Statements, the slots that were taken for values that are kept, and the number of the next slot.
#[derive(Drop)]
pub struct Work {
    pub code: Items<Stmt>,
    pub slots: Items<Local>,
    pub next: u32,
}

pub fn begun(alloc: Global, next: u32) -> Work
    ensures { result ≡ begun next }
{
    Work {
        code: Items::new(alloc),
        slots: Items::new(alloc),
        next,
    }
}

/// A statement behind those so far.
pub fn put(number: u32, step: Step, work: &mut Work) -> Result<(), AllocError>
    ensures { OnOk result (work.new ≡ put number step work.old) }
{
    work.code.push(Stmt { number, step })?;
    Ok(())
}

fn new_slot(alloc: Global, ty: Ty) -> Local
    ensures { result ≡ new_slot ty }
{
    Local {
        name: Items::new(alloc),
        ty,
        count: 1,
        array: false,
        object: false,
    }
}

/// One more slot, of the type. Its number is given.
pub fn with_slot(alloc: Global, ty: Ty, work: &mut Work) -> Result<u32, AllocError>
    ensures told { IfOk result (λ i. i ≡ work.old.next) }
    ensures grown { OnOk result (work.new ≡ with_slot ty work.old) }
{
    let slot = work.next;
    below(slot as u64, Limit::Fields)?;
    work.slots.push(new_slot(alloc, ty))?;
    work.next = slot + 1;
    Ok(slot)
}

pub fn slot_value(slot: u32) -> Expr
    ensures { result ≡ slot_value slot }
{
    Expr::Load(Lval::Slot(slot))
}

/// A value is kept in a slot of this type.
pub fn kept(
    alloc: Global,
    number: u32,
    ty: Ty,
    value: Expr,
    work: &mut Work,
) -> Result<Expr, AllocError>
    ensures told { IfOk result (λ e. e ≡ (kept number ty (work.old, value)).1) }
    ensures grown { OnOk result (work.new ≡ (kept number ty (work.old, value)).0) }
{
    match with_slot(alloc, ty, work) {
        Ok(slot) => {
            put(number, Step::Assign(Lval::Slot(slot), value), work)?;
            Ok(slot_value(slot))
        }
        Err(error) => left_over(error, value),
    }
}

// ---- statements inside another

/// Takes the statements so far out: those that follow stand inside another.
pub fn set_aside(alloc: Global, work: &mut Work) -> Items<Stmt>
    ensures told { result ≡ work.old.code }
    ensures left { work.new ≡ inside work.old }
{
    mem::replace(&mut work.code, Items::new(alloc))
}

/// Puts statements back, and gives those that were made since.
pub fn put_back(front: Items<Stmt>, work: &mut Work) -> Items<Stmt>
    ensures told { result ≡ work.old.code }
    ensures left { work.new ≡ outside front work.old }
{
    mem::replace(&mut work.code, front)
}
