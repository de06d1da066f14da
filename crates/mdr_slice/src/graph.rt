// Which function may call which.

ghost use Rattle.std.specs.Prelude.{◌≡◌, ◌↔◌, ◌≤◌, IsTrue, IfOk, get_or, false, true, length, map, slice_get, vec_items};
ghost use Rattle.std.specs.Option.{option_copied};
ghost use Rattle.mdr_core.specs.declared.code.CallForm.{CallForm as AnyCall};
ghost use Rattle.mdr_core.specs.Folds.{call_of, term_of};
ghost use Rattle.mdr_core.specs.Sound.{HasFewNumbers};
ghost use Rattle.mdr_core.specs.Typing.{slots_of};
ghost use Rattle.mdr_paths.specs.Marking.{AreMarks, AreNodes, Tells};
ghost use Rattle.mdr_paths.specs.Numbers.{marked};
ghost use Rattle.mdr_slice.specs.Calls.{all_calls, body_code, names_of};
ghost use Rattle.mdr_slice.specs.Graph.{AreCallees, KernelCallReaches, MayPointTo, OneReaches, Reaches};

use crate::calls::calls_of;
use crate::names::names_of;
use crate::pointed::is_called_type;
use mdr_core::{CallForm, Callee, Expr, Func, OutOfMemory, Program};
use mdr_paths::{marked_nodes, marks_of};
use std::alloc::{AllocError, Global};

/// The service that calls a function of the other half.
const KERNEL_CALL: u32 = 15;

/// Whether a number is marked.
pub(crate) fn is_marked(marks: &[bool], node: u32) -> bool
    ensures { result ≡ marked marks.now node }
{
    match marks.get(node as usize) {
        Some(mark) => *mark,
        None => false,
    }
}

/// A function, by its number.
pub(crate) fn func_at(program: &Program, func: u32) -> Option<&Func>
    ensures { option_copied result ≡ slice_get program.now.funcs func }
{
    program.funcs.as_slice().get(func as usize)
}

/// Whether a pointer may point to a function.
fn may_point_to(program: &Program, taken: &[bool], own: &Func, e: &Expr, func: u32) -> bool
    requires { AreMarks (length program.now.funcs) (names_of program.now) taken.now }
    ensures { IsTrue result ↔ MayPointTo program.now (slots_of own.now) (term_of e.now) func }
{
    match func_at(program, func) {
        Some(target) => is_marked(taken, func) && is_called_type(program, own, e, target),
        None => false,
    }
}

/// Whether a call of a service may call a function.
fn service_reaches(
    program: &Program,
    taken: &[bool],
    own: &Func,
    service: u32,
    args: &[Expr],
    func: u32,
) -> bool
    requires { AreMarks (length program.now.funcs) (names_of program.now) taken.now }
    ensures { IsTrue result ↔ KernelCallReaches program.now (slots_of own.now) service (map term_of args.now) func }
{
    match args {
        [e, ..] => service == KERNEL_CALL && may_point_to(program, taken, own, e, func),
        _ => false,
    }
}

/// Whether a call may call a function. Calls of the kernel's service that calls back count or not.
fn reaches(
    program: &Program,
    taken: &[bool],
    own: &Func,
    counts: bool,
    call: &CallForm,
    func: u32,
) -> bool
    requires { AreMarks (length program.now.funcs) (names_of program.now) taken.now }
    ensures { IsTrue result ↔ Reaches program.now (slots_of own.now) counts (call_of call.now) func }
{
    match &call.callee {
        Callee::Direct(named) => *named == func,
        Callee::Through(e) => may_point_to(program, taken, own, e, func),
        Callee::Service(service) => {
            counts && service_reaches(program, taken, own, *service, call.args.as_slice(), func)
        }
    }
}

/// Whether one of these calls may call a function.
fn one_reaches(
    program: &Program,
    taken: &[bool],
    own: &Func,
    counts: bool,
    calls: &[&CallForm],
    func: u32,
) -> bool
    requires { AreMarks (length program.now.funcs) (names_of program.now) taken.now }
    ensures { IsTrue result ↔ OneReaches program.now (slots_of own.now) counts (map (λ r. call_of r.now) calls.now) func }
{
    for call in calls {
        if reaches(program, taken, own, counts, call, func) {
            return true;
        }
    }
    false
}

/// Marks the functions that a function may call.
fn callee_marks(
    alloc: Global,
    program: &Program,
    taken: &[bool],
    own: &Func,
    counts: bool,
) -> Result<Vec<bool>, AllocError>
    requires taken { AreMarks (length program.now.funcs) (names_of program.now) taken.now }
    requires few { length program.now.funcs ≤ 4294967296 }
    ensures { IfOk result (λ marks. Tells (length program.now.funcs) (OneReaches program.now (slots_of own.now) counts (all_calls (body_code own.now.body))) marks.items) }
{
    let calls = calls_of(alloc, own)?;
    let count = program.funcs.len();
    let mut marks = vec![in alloc; false; count]?;
    for func in 0..count {
        marks[func] = one_reaches(program, taken, own, counts, calls.as_slice(), func as u32);
    }
    Ok(marks)
}

/// The functions that a function may call, rising.
fn callees(
    alloc: Global,
    program: &Program,
    taken: &[bool],
    own: &Func,
    counts: bool,
) -> Result<Vec<u32>, AllocError>
    requires taken { AreMarks (length program.now.funcs) (names_of program.now) taken.now }
    requires few { length program.now.funcs ≤ 4294967296 }
    ensures { IfOk result (λ nodes. AreNodes (length program.now.funcs) (OneReaches program.now (slots_of own.now) counts (all_calls (body_code own.now.body))) nodes.items) }
{
    let marks = callee_marks(alloc, program, taken, own, counts)?;
    let nodes = marked_nodes(alloc, marks.as_slice())?;
    Ok(nodes)
}

/// For each function those that it may call. Calls of the kernel's service that calls back count or not.
pub(crate) fn graph(
    alloc: Global,
    program: &Program,
    counts: bool,
) -> Result<Vec<Vec<u32>>, OutOfMemory>
    requires { HasFewNumbers program.now }
    ensures { IfOk result (λ edges. AreCallees program.now counts (map vec_items edges.items)) }
{
    let count = program.funcs.len();
    let names = names_of(alloc, program)?;
    let taken = marks_of(alloc, count, names.as_slice())?;
    let mut edges = Vec::new(alloc);
    for own in program.funcs.as_slice() {
        let row = callees(alloc, program, taken.as_slice(), own, counts)?;
        edges.push(row)?;
    }
    Ok(edges)
}

/// For each function those that it may call, rising: by name, or through a pointer of their type where their address is
/// taken somewhere. A call by the kernel's service that calls back counts as one through a pointer.
pub fn call_graph(alloc: Global, program: &Program) -> Result<Vec<Vec<u32>>, OutOfMemory>
    requires { HasFewNumbers program.now }
    ensures { IfOk result (λ edges. AreCallees program.now true (map vec_items edges.items)) }
{
    graph(alloc, program, true)
}
