// A function begins: its parameters that are objects are born, and are given their values (C99 6.9.1, paragraph 10).

ghost use Rattle.std.specs.Prelude.{◌≡◌, ◌++◌, ◌∷◌, [], IfOk, OnOk, true, false, length, map, slice_get};
ghost use Rattle.mdr_core.specs.declared.program.Program.{Program as AnyProgram};
ghost use Rattle.mdr_core.specs.Typing.{slot_of_param};
ghost use Rattle.mdr_meaning.specs.Bodies.{known_of};
ghost use Rattle.mdr_meaning.specs.Lives.{asked_for, object_params, param_shapes};
ghost use Rattle.mdr_meaning.specs.Sides.{Side as AnySide};
ghost use Rattle.mdr_meaning.specs.Values.{wire_of};
ghost use Rattle.mdr_events.specs.Events.{asked_as};
ghost use Rattle.mdr_events.specs.Outcomes.{when_made};
ghost use Rattle.mdr_events.specs.Steps.{Goes, Steps};
ghost use Rattle.mdr_events.specs.Values.{wires_of};
ghost use Rattle.mdr_exec.specs.Effects.{did, fill_of, fills_of};
ghost use Rattle.mdr_exec.specs.Entering.{BearsParams, filling, params_by, shapes_in};
ghost use Rattle.mdr_exec.specs.Events.{came_as, came_with};
ghost use Rattle.mdr_exec.specs.Executing.{Knows, StepsTo};
ghost use Rattle.mdr_exec.specs.Holding.{held_of};
ghost use Rattle.mdr_exec.specs.declared.frame.Front.TheVariants as front;
ghost use Rattle.mdr_exec.specs.Storing.{locals_of};

use crate::assign::stored;
use crate::event::Outcome;
use crate::frame::{Front, Machine};
use crate::slots::{of_param, shape_of};
use crate::values::slot_value;
use mdr_core::{At, Items, Param, Program, StopKind, Value};
use mdr_events::{Asked, Memory};
use mdr_meaning::Shape64;
use std::alloc::{AllocError, Global};

// ---- which parameters are objects

fn add_shape(
    shapes: &mut Items<Shape64>,
    program: &Program,
    param: &Param,
) -> Result<(), AllocError>
    ensures { OnOk result (shapes.new ≡ shapes.old ++ param_shapes (known_of program.now) (slot_of_param param.now ∷ [])) }
{
    if param.object {
        let shape = shape_of(program, of_param(param));
        shapes.push(shape)?;
        Ok(())
    } else {
        Ok(())
    }
}

/// What the parameters that are objects are born as.
fn shapes_of(
    alloc: Global,
    program: &Program,
    params: &[Param],
) -> Result<Items<Shape64>, AllocError>
    ensures { IfOk result (λ shapes. shapes ≡ param_shapes (known_of program.now) (map slot_of_param params.now)) }
{
    let mut shapes = Items::new(alloc);
    for param in params {
        add_shape(&mut shapes, program, param)?;
    }
    Ok(shapes)
}

fn add_number(numbers: &mut Items<usize>, i: usize, param: &Param) -> Result<(), AllocError>
    ensures { OnOk result (numbers.new ≡ numbers.old ++ object_params i (slot_of_param param.now ∷ [])) }
{
    if param.object {
        numbers.push(i)?;
        Ok(())
    } else {
        Ok(())
    }
}

/// The slots of the parameters that are objects.
fn numbers_of(alloc: Global, params: &[Param]) -> Result<Items<usize>, AllocError>
    ensures { IfOk result (λ numbers. numbers ≡ object_params 0 (map slot_of_param params.now)) }
{
    let mut numbers = Items::new(alloc);
    for i in 0..params.len() {
        add_number(&mut numbers, i, &params[i])?;
    }
    Ok(numbers)
}

fn params_in<'a>(program: &'a Program, func: u32) -> &'a [Param]
    ensures { result.now ≡ params_by (slice_get program.now.funcs func) }
{
    match program.funcs.as_slice().get(func as usize) {
        Some(func) => func.params.as_slice(),
        None => &[],
    }
}

// ---- they are born

fn room_for(alloc: Global, count: usize) -> Result<Vec<Value>, AllocError>
    ensures { IfOk result (λ room. length room.items ≡ count) }
{
    vec![in alloc; Value::NoValue; count]
}

/// The question for objects.
fn asked_for_all(alloc: Global, at: At, shapes: Items<Shape64>) -> Asked
    ensures { asked_as result ≡ asked_for 13 at [] shapes [] }
{
    Asked {
        service: 13,
        at,
        args: Items::new(alloc),
        shapes,
        bytes: Items::new(alloc),
    }
}

/// The parameters' objects are asked for.
fn ask_params<C: Memory>(
    machine: &mut Machine,
    alloc: Global,
    memory: &C,
    shapes: Items<Shape64>,
) -> Result<Outcome, AllocError>
    requires { machine.old.front ≡ front.Enters }
    ensures { IfOk result (λ e. BearsParams C.accesses machine.old memory.now shapes true (came_with e) machine.new memory.now) }
{
    let room = room_for(alloc, shapes.len())?;
    let at = At {
        func: machine.top.func,
        stmt: 0,
    };
    machine.front = Front::WaitsParams(room);
    Ok(Outcome::Service(asked_for_all(alloc, at, shapes)))
}

/// The parameters' objects are born in place.
fn bear_params<C: Memory>(
    machine: &mut Machine,
    alloc: Global,
    memory: &mut C,
    shapes: &[Shape64],
) -> Result<(), AllocError>
    requires { machine.old.front ≡ front.Enters }
    ensures { OnOk result (BearsParams C.accesses machine.old memory.old shapes.now false Goes machine.new memory.new) }
{
    let pointers = memory.birth(alloc, shapes)?;
    machine.front = Front::Fills(pointers);
    Ok(())
}

/// No parameter is an object.
fn bear_none<C: Memory>(machine: &mut Machine, alloc: Global, memory: &C)
    requires { machine.old.front ≡ front.Enters }
    ensures { (program : AnyProgram) (side : AnySide) → [] ≡ shapes_in side program machine.old → StepsTo C.accesses side program machine.old memory.now Goes machine.new memory.now }
{
    machine.front = Front::Fills(Items::new(alloc));
}

/// A function begins: the objects of its parameters are born or asked for.
pub(crate) fn enter_function<C: Memory>(
    machine: &mut Machine,
    alloc: Global,
    program: &Program,
    memory: &mut C,
    asks: bool,
) -> Result<Option<Outcome>, AllocError>
    requires { machine.old.front ≡ front.Enters }
    ensures { IfOk result (λ e. (side : AnySide) → Knows side program.now → side.asks ≡ asks → StepsTo C.accesses side program.now machine.old memory.old (came_as e) machine.new memory.new) }
{
    let shapes = shapes_of(alloc, program, params_in(program, machine.top.func))?;
    if shapes.is_empty() {
        bear_none(machine, alloc, memory);
        return Ok(None);
    }
    if asks {
        let event = ask_params(machine, alloc, memory, shapes)?;
        Ok(Some(event))
    } else {
        bear_params(machine, alloc, memory, shapes.as_slice())?;
        Ok(None)
    }
}

// ---- and given their values

/// The object of a parameter is given its value, and the parameter's slot holds its address.
fn fill_one<C: Memory>(
    memory: &mut C,
    slots: &mut Items<Value>,
    born: &mut Items<Value>,
    i: usize,
    pointer: Value,
) -> Result<Result<(), StopKind>, AllocError>
    ensures { IfOk result (λ r. fill_of C.accesses i (wire_of pointer) (locals_of slots.old born.old) memory.old ≡ did (when_made r (locals_of slots.new born.new)) memory.new) }
{
    let value = slot_value(slots.as_slice(), i);
    let done = stored(memory, Ok(pointer), value);
    match done {
        Ok(()) => {
            slots.set(i, pointer);
            born.push(pointer)?;
            Ok(Ok(()))
        }
        Err(stop) => Ok(Err(stop)),
    }
}

fn pointer_at(pointers: &[Value], i: usize) -> Option<Value>
    ensures { result ≡ slice_get pointers.now i }
{
    match pointers.get(i) {
        Some(pointer) => Some(*pointer),
        None => None,
    }
}

/// The objects of the parameters are given their values, one after the other, up to the first stop.
fn fill_all<C: Memory>(
    memory: &mut C,
    slots: &mut Items<Value>,
    born: &mut Items<Value>,
    params: &[usize],
    pointers: &[Value],
) -> Result<Result<(), StopKind>, AllocError>
    ensures { IfOk result (λ r. fills_of C.accesses params.now (wires_of pointers.now) (locals_of slots.old born.old) memory.old ≡ did (when_made r (locals_of slots.new born.new)) memory.new) }
{
    for i in 0..params.len() {
        match pointer_at(pointers, i) {
            Some(pointer) => {
                let done = fill_one(memory, slots, born, params[i], pointer)?;
                match done {
                    Ok(()) => {}
                    Err(stop) => return Ok(Err(stop)),
                }
            }
            None => return Ok(Ok(())),
        }
    }
    Ok(Ok(()))
}

/// The parameters that are objects are given their values, and the body runs.
pub(crate) fn fill<C: Memory>(
    machine: &mut Machine,
    alloc: Global,
    program: &Program,
    memory: &mut C,
    pointers: &[Value],
) -> Result<Option<Outcome>, AllocError>
    ensures { IfOk result (λ e. (side : AnySide) → Steps C.accesses side (filling program.now machine.old pointers.now) memory.old (came_as e) (held_of program.now machine.new) memory.new) }
{
    let params = numbers_of(alloc, params_in(program, machine.top.func))?;
    let done = fill_all(
        memory,
        &mut machine.top.slots,
        &mut machine.top.born,
        params.as_slice(),
        pointers,
    )?;
    machine.front = Front::Runs;
    match done {
        Ok(()) => Ok(None),
        Err(stop) => {
            let at = At {
                func: machine.top.func,
                stmt: 0,
            };
            Ok(Some(Outcome::Stop(stop, at)))
        }
    }
}
