// Declarations: a slot is zeroed, or an object is born.

ghost use Rattle.std.specs.Prelude.{◌≡◌, ◌<◌, [], ◌∷◌, ℕ, true, false, IfOk, OnOk, Option};
ghost use Rattle.mdr_meaning.specs.Lives.{asked_for};
ghost use Rattle.mdr_meaning.specs.Values.{first_of, wire_of};
ghost use Rattle.mdr_events.specs.Events.{asked_as};
ghost use Rattle.mdr_events.specs.Steps.{Goes};
ghost use Rattle.mdr_exec.specs.Declaring.{Declares, DeclaresNothing, DeclaresObject, DeclaresSlot, HasSlot, slot_as};
ghost use Rattle.mdr_exec.specs.Events.{came_as, came_with};
ghost use Rattle.mdr_exec.specs.Holding.{is_running};

use crate::event::Outcome;
use crate::frame::{Flow, Front, Machine};
use crate::leave::go_past;
use crate::slots::{Declared, shape_of, slot_in};
use crate::start::before_declared;
use crate::values::first;
use mdr_core::{At, Items, Program, Ty, Value};
use mdr_events::{Asked, Memory};
use mdr_meaning::Shape64;
use std::alloc::{AllocError, Global};

/// A slot that no parameter or local has.
fn declare_nothing<C: Memory>(machine: &mut Machine, memory: &C)
    requires runs { is_running machine.old.front ≡ true }
    requires next { machine.old.top.next < 18446744073709551615 }
    ensures { (i : ℕ) → DeclaresNothing C.accesses machine.old memory.now i machine.new memory.now }
{
    go_past(machine, Flow::Ends, machine.top.next + 1);
}

/// A slot is zero or null, each time it is declared.
fn declare_slot<C: Memory>(machine: &mut Machine, memory: &C, i: u32, ty: &Ty)
    requires runs { is_running machine.old.front ≡ true }
    requires next { machine.old.top.next < 18446744073709551615 }
    ensures { DeclaresSlot C.accesses machine.old memory.now i ty.now machine.new memory.now }
{
    machine
        .top
        .slots
        .set(i as usize, before_declared(ty, false));
    go_past(machine, Flow::Ends, machine.top.next + 1);
}

/// An object is born.
fn born_one<C: Memory>(memory: &mut C, alloc: Global, shape: Shape64) -> Result<Value, AllocError>
    ensures pointer { IfOk result (λ p. wire_of p ≡ first_of (C.accesses.birth memory.old (shape ∷ [])).pointers) }
    ensures memory { OnOk result (memory.new ≡ (C.accesses.birth memory.old (shape ∷ [])).memory) }
{
    let pointers = memory.birth(alloc, &[shape])?;
    Ok(first(pointers.as_slice()))
}

/// A local's object is born in place, and its pointer comes next.
fn bear<C: Memory>(
    machine: &mut Machine,
    alloc: Global,
    memory: &mut C,
    i: u32,
    shape: Shape64,
) -> Result<(), AllocError>
    requires runs { is_running machine.old.front ≡ true }
    requires next { machine.old.top.next < 18446744073709551615 }
    ensures { OnOk result (DeclaresObject C.accesses machine.old memory.old i shape false Goes machine.new memory.new) }
{
    let pointer = born_one(memory, alloc, shape)?;
    machine.top.next = machine.top.next + 1;
    machine.front = Front::Born(i, pointer);
    Ok(())
}

/// The question for an object.
fn asked_for_one(alloc: Global, at: At, shape: Shape64) -> Result<Asked, AllocError>
    ensures { IfOk result (λ q. asked_as q ≡ asked_for 13 at [] (shape ∷ []) []) }
{
    let shapes = Items::from_slice(alloc, &[shape])?;
    Ok(Asked {
        service: 13,
        at,
        args: Items::new(alloc),
        shapes,
        bytes: Items::new(alloc),
    })
}

/// A local's object is asked for.
fn ask_object<C: Memory>(
    machine: &mut Machine,
    alloc: Global,
    memory: &C,
    i: u32,
    shape: Shape64,
) -> Result<Outcome, AllocError>
    requires runs { is_running machine.old.front ≡ true }
    requires next { machine.old.top.next < 18446744073709551615 }
    ensures { IfOk result (λ e. DeclaresObject C.accesses machine.old memory.now i shape true (came_with e) machine.new memory.now) }
{
    let at = At {
        func: machine.top.func,
        stmt: 0,
    };
    let asked = asked_for_one(alloc, at, shape)?;
    machine.top.next = machine.top.next + 1;
    machine.front = Front::WaitsObject(i);
    Ok(Outcome::Service(asked))
}

/// A local that is an object.
fn declare_object<C: Memory>(
    machine: &mut Machine,
    alloc: Global,
    memory: &mut C,
    i: u32,
    shape: Shape64,
    asks: bool,
) -> Result<Option<Outcome>, AllocError>
    requires runs { is_running machine.old.front ≡ true }
    requires next { machine.old.top.next < 18446744073709551615 }
    ensures { IfOk result (λ e. DeclaresObject C.accesses machine.old memory.old i shape asks (came_as e) machine.new memory.new) }
{
    if asks {
        let event = ask_object(machine, alloc, memory, i, shape)?;
        Ok(Some(event))
    } else {
        bear(machine, alloc, memory, i, shape)?;
        Ok(None)
    }
}

/// A declaration of a slot that a parameter or a local has.
fn declare<'a, C: Memory>(
    machine: &mut Machine,
    alloc: Global,
    program: &Program,
    memory: &mut C,
    i: u32,
    declared: Declared<'a>,
    asks: bool,
) -> Result<Option<Outcome>, AllocError>
    requires runs { is_running machine.old.front ≡ true }
    requires next { machine.old.top.next < 18446744073709551615 }
    ensures { IfOk result (λ e. HasSlot program.now machine.old i (slot_as declared.entry) → Declares C.accesses machine.old memory.old i program.now asks (came_as e) machine.new memory.new) }
{
    if declared.object {
        let shape = shape_of(program, declared);
        let event = declare_object(machine, alloc, memory, i, shape, asks)?;
        Ok(event)
    } else {
        declare_slot(machine, memory, i, declared.ty);
        Ok(None)
    }
}

/// A declaration: its slot is zeroed, or its object is born or asked for.
pub(crate) fn begin_declare<C: Memory>(
    machine: &mut Machine,
    alloc: Global,
    program: &Program,
    memory: &mut C,
    i: u32,
    asks: bool,
) -> Result<Option<Outcome>, AllocError>
    requires runs { is_running machine.old.front ≡ true }
    requires next { machine.old.top.next < 18446744073709551615 }
    ensures { IfOk result (λ e. Declares C.accesses machine.old memory.old i program.now asks (came_as e) machine.new memory.new) }
{
    match slot_in(program, machine.top.func, i) {
        Some(declared) => {
            let event = declare(machine, alloc, program, memory, i, declared, asks)?;
            Ok(event)
        }
        None => {
            declare_nothing(machine, memory);
            Ok(None)
        }
    }
}
