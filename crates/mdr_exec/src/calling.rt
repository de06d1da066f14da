// What a call comes to before anything of it runs (C99 6.5.2.2).

ghost use Rattle.std.specs.Prelude.{◌≡◌, [], IfOk, option_copied, unwrap_or};
ghost use Rattle.mdr_core.specs.declared.program.Program.{Program as AnyProgram};
ghost use Rattle.mdr_core.specs.Code.{Called};
ghost use Rattle.mdr_core.specs.Folds.{call_of, term_of};
ghost use Rattle.mdr_core.specs.Services.{service_numbered};
ghost use Rattle.mdr_core.specs.Sound.{IsSound};
ghost use Rattle.mdr_meaning.specs.Asking.{allocated};
ghost use Rattle.mdr_meaning.specs.Bodies.{known_of};
ghost use Rattle.mdr_meaning.specs.Calls.{function_of};
ghost use Rattle.mdr_meaning.specs.Lives.{asked_for};
ghost use Rattle.mdr_meaning.specs.Printed.{print_text};
ghost use Rattle.mdr_meaning.specs.Values.{wire_of};
ghost use Rattle.mdr_events.specs.Outcomes.{all_wired};
ghost use Rattle.mdr_events.specs.Values.{wires_of};
ghost use Rattle.mdr_exec.specs.Calling.{Asking, delivered, direct_of, goes_by, served_of, service_of, through_of};
ghost use Rattle.mdr_exec.specs.Evaluation.{after_value, values_of};
ghost use Rattle.mdr_exec.specs.Halves.{called_as, called_at, called_through_at, calling_as, here_at, side_at, taking_by};

use crate::arguments::{rest, second, values};
use crate::evaluate::evaluated;
use crate::frame::Machine;
use crate::halves::is_entered;
use crate::pointers::type_number;
use crate::printing::{counted, print_text};
use crate::values::first;
use mdr_core::{At, CallForm, Callee, Expr, Half, Items, Name, Program, StopKind, Ty, Value};
use mdr_events::{Asked, Memory};
use mdr_meaning::Shape64;
use std::alloc::{AllocError, Global};

/// What a call comes to.
#[derive(Drop)]
pub enum Calling {
    /// The body of a function is entered with these arguments.
    Entering(u32, Items<Value>),
    /// A function of the other half is called.
    Crossing(u32, Items<Value>),
    /// A service is asked for.
    Asking(Asked),
}

/// Where a call is made: in a machine, over a program and the halves of its functions.
#[derive(Clone, Copy)]
pub(crate) struct Calls<'a> {
    pub(crate) machine: &'a Machine,
    pub(crate) program: &'a Program,
    pub(crate) halves: &'a [Half],
}

// ---- functions

fn goes_to(calls: Calls, func: u32, args: Items<Value>) -> Calling
    ensures { calling_as calls.entry.program.now result ≡ goes_by func (wires_of args) ((side_at calls.entry).own func) }
{
    if is_entered(calls.program, calls.halves, calls.machine.side, func) {
        Calling::Entering(func, args)
    } else {
        Calling::Crossing(func, args)
    }
}

/// A function is called: at most 256 are active.
fn direct<C: Memory>(
    calls: Calls,
    memory: &C,
    func: u32,
    args: Items<Value>,
) -> Result<Calling, StopKind>
    ensures { called_as calls.entry.program.now result ≡ direct_of C.accesses (side_at calls.entry) (here_at calls.entry) memory.now func (wires_of args) }
{
    if calls.machine.top.depth < 256 {
        Ok(goes_to(calls, func, args))
    } else {
        Err(StopKind::Depth)
    }
}

fn direct_with<C: Memory>(
    calls: Calls,
    memory: &C,
    func: u32,
    args: Result<Items<Value>, StopKind>,
) -> Result<Calling, StopKind>
    ensures { called_as calls.entry.program.now result ≡ after_value (all_wired args) (λ vs. direct_of C.accesses (side_at calls.entry) (here_at calls.entry) memory.now func vs) }
{
    match args {
        Ok(args) => direct(calls, memory, func, args),
        Err(stop) => Err(stop),
    }
}

fn function_of(value: Value) -> Result<u32, StopKind>
    ensures { result ≡ function_of (wire_of value) }
{
    match value {
        Value::Fn(func) => Ok(func),
        Value::Int(_, _) => Err(StopKind::Null),
        Value::Null => Err(StopKind::Null),
        Value::Ptr(_) => Err(StopKind::Null),
        Value::Dead => Err(StopKind::Null),
        Value::Lock(_) => Err(StopKind::Null),
        Value::NoValue => Err(StopKind::Null),
    }
}

/// What a value names is called.
fn through<C: Memory>(
    calls: Calls,
    memory: &C,
    value: Value,
    args: Items<Value>,
) -> Result<Calling, StopKind>
    ensures { called_as calls.entry.program.now result ≡ through_of C.accesses (side_at calls.entry) (here_at calls.entry) memory.now (wire_of value) (wires_of args) }
{
    match function_of(value) {
        Ok(func) => direct(calls, memory, func, args),
        Err(stop) => Err(stop),
    }
}

fn through_with<C: Memory>(
    calls: Calls,
    memory: &C,
    value: Value,
    args: Result<Items<Value>, StopKind>,
) -> Result<Calling, StopKind>
    ensures { called_as calls.entry.program.now result ≡ after_value (all_wired args) (λ vs. through_of C.accesses (side_at calls.entry) (here_at calls.entry) memory.now (wire_of value) vs) }
{
    match args {
        Ok(args) => through(calls, memory, value, args),
        Err(stop) => Err(stop),
    }
}

// ---- services

/// So many elements of the type that an allocation names.
fn allocated(
    alloc: Global,
    program: &Program,
    shape: Option<&Ty>,
    count: u64,
) -> Result<Items<Shape64>, AllocError>
    ensures { IfOk result (λ shapes. shapes ≡ allocated (known_of program.now) (option_copied shape.entry) count) }
{
    match shape {
        Some(ty) => {
            let ty = type_number(program, ty);
            Ok(Items::from_slice(alloc, &[Shape64 { ty, count }])?)
        }
        None => Ok(Items::new(alloc)),
    }
}

fn asking(
    alloc: Global,
    service: u32,
    at: At,
    args: Items<Value>,
    shapes: Items<Shape64>,
    bytes: Items<u8>,
) -> Calling
    ensures { (program : AnyProgram) → calling_as program result ≡ Asking (asked_for service at (wires_of args) shapes bytes) }
{
    Calling::Asking(Asked {
        service,
        at,
        args,
        shapes,
        bytes,
    })
}

fn asks_for_objects(
    calls: Calls,
    alloc: Global,
    service: u32,
    at: At,
    shape: Option<&Ty>,
    count: u64,
) -> Result<Calling, AllocError>
    ensures { IfOk result (λ c. calling_as calls.entry.program.now c ≡ Asking (asked_for service at [] (allocated (known_of calls.entry.program.now) (option_copied shape.entry) count) [])) }
{
    let shapes = allocated(alloc, calls.program, shape, count)?;
    Ok(asking(
        alloc,
        service,
        at,
        Items::new(alloc),
        shapes,
        Items::new(alloc),
    ))
}

/// The text of a call that prints.
fn text_of(alloc: Global, format: Option<&Name>, args: &[Value]) -> Result<Items<u8>, AllocError>
    ensures { IfOk result (λ text. text ≡ print_text (unwrap_or (option_copied format.entry) []) (wires_of args.now)) }
{
    match format {
        Some(format) => {
            let text = print_text(alloc, format.as_slice(), args)?;
            Ok(text)
        }
        None => {
            let text = print_text(alloc, &[], args)?;
            Ok(text)
        }
    }
}

/// A text is printed.
fn asks_to_print(
    alloc: Global,
    service: u32,
    at: At,
    format: Option<&Name>,
    args: &[Value],
) -> Result<Calling, AllocError>
    ensures { IfOk result (λ c. (program : AnyProgram) → calling_as program c ≡ Asking (asked_for service at [] [] (print_text (unwrap_or (option_copied format.entry) []) (wires_of args.now)))) }
{
    let bytes = text_of(alloc, format, args)?;
    Ok(asking(
        alloc,
        service,
        at,
        Items::new(alloc),
        Items::new(alloc),
        bytes,
    ))
}

/// Bytes are read, and delivered.
fn asks_to_deliver<C: Memory>(
    alloc: Global,
    memory: &C,
    service: u32,
    at: At,
    args: &[Value],
) -> Result<Result<Calling, StopKind>, AllocError>
    ensures { IfOk result (λ r. (program : AnyProgram) → called_as program r ≡ delivered C.accesses memory.now service at (wires_of args.now)) }
{
    let count = counted(second(args));
    let read = memory.read(alloc, first(args), count)?;
    match read {
        Ok(bytes) => Ok(Ok(asking(
            alloc,
            service,
            at,
            Items::new(alloc),
            Items::new(alloc),
            bytes,
        ))),
        Err(stop) => Ok(Err(stop)),
    }
}

/// Which services take other things than their arguments.
#[derive(Clone, Copy)]
pub(crate) enum Taking {
    Object,
    Objects,
    Text,
    Bytes,
    Arguments,
}

fn taken_by(service: u32) -> Taking
    ensures { result ≡ taking_by (service_numbered service) }
{
    if service == 1 {
        return Taking::Object;
    }
    if service == 2 {
        return Taking::Objects;
    }
    if service == 6 {
        return Taking::Text;
    }
    if service == 9 {
        return Taking::Bytes;
    }
    Taking::Arguments
}

/// A service of the kernel is asked for.
fn served<C: Memory>(
    calls: Calls,
    alloc: Global,
    memory: &C,
    form: &CallForm,
    service: u32,
    at: At,
    args: Items<Value>,
) -> Result<Result<Calling, StopKind>, AllocError>
    ensures { IfOk result (λ r. called_as calls.entry.program.now r ≡ served_of C.accesses (side_at calls.entry) (here_at calls.entry) memory.now at (call_of form.now) service (wires_of args)) }
{
    match taken_by(service) {
        Taking::Object => {
            let c = asks_for_objects(calls, alloc, service, at, form.shape.as_ref(), 1)?;
            Ok(Ok(c))
        }
        Taking::Objects => {
            let count = counted(first(args.as_slice()));
            let c = asks_for_objects(calls, alloc, service, at, form.shape.as_ref(), count)?;
            Ok(Ok(c))
        }
        Taking::Text => {
            let c = asks_to_print(alloc, service, at, form.format.as_ref(), args.as_slice())?;
            Ok(Ok(c))
        }
        Taking::Bytes => {
            let c = asks_to_deliver(alloc, memory, service, at, args.as_slice())?;
            Ok(c)
        }
        Taking::Arguments => Ok(Ok(asking(
            alloc,
            service,
            at,
            args,
            Items::new(alloc),
            Items::new(alloc),
        ))),
    }
}

/// A service is called. One of them calls what its first argument names.
fn service_with<C: Memory>(
    calls: Calls,
    alloc: Global,
    memory: &C,
    form: &CallForm,
    service: u32,
    at: At,
    args: Items<Value>,
) -> Result<Result<Calling, StopKind>, AllocError>
    ensures { IfOk result (λ r. called_as calls.entry.program.now r ≡ service_of C.accesses (side_at calls.entry) (here_at calls.entry) memory.now at (call_of form.now) service (wires_of args)) }
{
    if service == 15 {
        let rest = rest(alloc, args.as_slice())?;
        Ok(through(calls, memory, first(args.as_slice()), rest))
    } else {
        let c = served(calls, alloc, memory, form, service, at, args)?;
        Ok(c)
    }
}

// ---- calls

fn arguments<C: Memory>(
    calls: Calls,
    alloc: Global,
    memory: &C,
    form: &CallForm,
) -> Result<Result<Items<Value>, StopKind>, AllocError>
    requires { IsSound calls.program.now }
    ensures { IfOk result (λ r. all_wired r ≡ values_of C.accesses memory.now (known_of calls.entry.program.now) (wires_of calls.entry.machine.now.top.slots) (call_of form.now).args) }
{
    let args = values(
        alloc,
        calls.program,
        memory,
        calls.machine.top.slots.as_slice(),
        form.args.as_slice(),
    )?;
    Ok(args)
}

/// A call through a pointer, which is evaluated before the arguments.
fn called_through<C: Memory>(
    calls: Calls,
    alloc: Global,
    memory: &C,
    form: &CallForm,
    e: &Expr,
) -> Result<Result<Calling, StopKind>, AllocError>
    requires { IsSound calls.program.now }
    ensures { IfOk result (λ r. called_as calls.entry.program.now r ≡ called_through_at C.accesses calls.entry memory.now (call_of form.now) (term_of e.now)) }
{
    let callee = evaluated(calls.program, memory, calls.machine.top.slots.as_slice(), e);
    match callee {
        Ok(callee) => {
            let args = arguments(calls, alloc, memory, form)?;
            Ok(through_with(calls, memory, callee, args))
        }
        Err(stop) => Ok(Err(stop)),
    }
}

fn called_service<C: Memory>(
    calls: Calls,
    alloc: Global,
    memory: &C,
    form: &CallForm,
    service: u32,
    at: At,
) -> Result<Result<Calling, StopKind>, AllocError>
    requires { IsSound calls.program.now }
    ensures { IfOk result (λ r. called_as calls.entry.program.now r ≡ called_at C.accesses calls.entry memory.now at (call_of form.now) (Called.Service service)) }
{
    let args = arguments(calls, alloc, memory, form)?;
    match args {
        Ok(args) => {
            let c = service_with(calls, alloc, memory, form, service, at, args)?;
            Ok(c)
        }
        Err(stop) => Ok(Err(stop)),
    }
}

/// What a call comes to: what is called and with which arguments, or the first stop.
pub(crate) fn called<C: Memory>(
    calls: Calls,
    alloc: Global,
    memory: &C,
    form: &CallForm,
    at: At,
) -> Result<Result<Calling, StopKind>, AllocError>
    requires { IsSound calls.program.now }
    ensures { IfOk result (λ r. called_as calls.entry.program.now r ≡ called_at C.accesses calls.entry memory.now at (call_of form.now) (call_of form.now).callee) }
{
    match &form.callee {
        Callee::Direct(func) => {
            let args = arguments(calls, alloc, memory, form)?;
            Ok(direct_with(calls, memory, *func, args))
        }
        Callee::Through(e) => {
            let c = called_through(calls, alloc, memory, form, e)?;
            Ok(c)
        }
        Callee::Service(service) => {
            let c = called_service(calls, alloc, memory, form, *service, at)?;
            Ok(c)
        }
    }
}
