// The frame of a function that is called.

ghost use Rattle.std.specs.Prelude.{◌≡◌, ◌∷◌, ◌++◌, [], List, map, length, slice_get, IfOk, OnOk};
ghost use Rattle.std.specs.Option.{option_map};
ghost use Rattle.mdr_core.specs.Typing.{Slot, slot_of_local, slot_of_param, slots_of};
ghost use Rattle.mdr_meaning.specs.Sides.{framed};
ghost use Rattle.mdr_meaning.specs.Values.{wire_of};
ghost use Rattle.mdr_events.specs.Values.{wires_of};
ghost use Rattle.mdr_exec.specs.Starting.{AreFilled, before_declared, slot_start};

use mdr_core::{Func, Items, Local, LockState, Param, Ty, Value};
use std::alloc::{AllocError, Global};

/// What a slot holds before its declaration runs.
pub(crate) fn before_declared(ty: &Ty, object: bool) -> Value
    ensures { wire_of result ≡ before_declared ty.now object }
{
    if object {
        return Value::Null;
    }
    match ty {
        Ty::Int(kind) => Value::Int(*kind, 0),
        Ty::Lock => Value::Lock(LockState::Free),
        Ty::Struct(_) | Ty::Ptr(_) | Ty::VoidPtr | Ty::Fun(_) | Ty::Void => Value::Null,
    }
}

fn slot_start(args: &[Value], i: usize, ty: &Ty, object: bool) -> Value
    ensures { wire_of result ≡ slot_start ty.now object (option_map wire_of (slice_get args.now i)) }
{
    match args.get(i) {
        Some(value) => *value,
        None => before_declared(ty, object),
    }
}

/// Adds the next slot, which holds its argument, if there is one.
fn add_slot(
    slots: &mut Items<Value>,
    args: &[Value],
    ty: &Ty,
    object: bool,
) -> Result<(), AllocError>
    ensures { OnOk result (wires_of slots.new ≡ wires_of slots.old ++ slot_start ty.now object (slice_get (wires_of args.now) (length (wires_of slots.old))) ∷ []) }
{
    let value = slot_start(args, slots.len(), ty, object);
    slots.push(value)?;
    Ok(())
}

fn add_params(slots: &mut Items<Value>, args: &[Value], params: &[Param]) -> Result<(), AllocError>
    ensures { OnOk result ((rest whole : List Slot) → AreFilled slots.old (map slot_of_param params.now ++ rest) whole args.now → AreFilled slots.new rest whole args.now) }
{
    for param in params {
        add_slot(slots, args, &param.ty, param.object)?;
    }
    Ok(())
}

fn add_locals(slots: &mut Items<Value>, args: &[Value], locals: &[Local]) -> Result<(), AllocError>
    ensures { OnOk result ((whole : List Slot) → AreFilled slots.old (map slot_of_local locals.now) whole args.now → AreFilled slots.new [] whole args.now) }
{
    for local in locals {
        add_slot(slots, args, &local.ty, local.object)?;
    }
    Ok(())
}

/// The slots of a function that is called: each parameter holds its argument.
pub(crate) fn slots_for(
    alloc: Global,
    func: &Func,
    args: &[Value],
) -> Result<Items<Value>, AllocError>
    ensures { IfOk result (λ slots. wires_of slots ≡ framed (slots_of func.now) (wires_of args.now)) }
{
    let mut slots = Items::new(alloc);
    add_params(&mut slots, args, func.params.as_slice())?;
    add_locals(&mut slots, args, func.locals.as_slice())?;
    Ok(slots)
}
