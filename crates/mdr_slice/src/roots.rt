// The roots: what must stay in the kernel.

ghost use Rattle.std.specs.Prelude.{◌≡◌, ◌↔◌, ◌≤◌, IsTrue, IfOk, length};
ghost use Rattle.mdr_core.specs.Sound.{HasFewNumbers};
ghost use Rattle.mdr_paths.specs.Marking.{AreMarks, Tells};
ghost use Rattle.mdr_slice.specs.Calls.{handlers_of};
ghost use Rattle.mdr_slice.specs.Graph.{AreRoots, IsRoot};

use crate::graph::{func_at, is_marked};
use crate::handlers::handlers_of;
use mdr_core::{OutOfMemory, Program};
use mdr_paths::{marked_nodes, marks_of};
use std::alloc::{AllocError, Global};

/// Whether a function is a root.
fn is_root(program: &Program, handlers: &[bool], func: u32) -> bool
    requires { AreMarks (length program.now.funcs) (handlers_of program.now) handlers.now }
    ensures { IsTrue result ↔ IsRoot program.now func }
{
    match func_at(program, func) {
        Some(own) => own.critical || is_marked(handlers, func),
        None => false,
    }
}

/// Marks the roots.
fn root_marks(alloc: Global, program: &Program, handlers: &[bool]) -> Result<Vec<bool>, AllocError>
    requires handlers { AreMarks (length program.now.funcs) (handlers_of program.now) handlers.now }
    requires few { length program.now.funcs ≤ 4294967296 }
    ensures { IfOk result (λ marks. Tells (length program.now.funcs) (IsRoot program.now) marks.items) }
{
    let count = program.funcs.len();
    let mut marks = vec![in alloc; false; count]?;
    for func in 0..count {
        marks[func] = is_root(program, handlers, func as u32);
    }
    Ok(marks)
}

/// The functions that are marked `__critical` or that `request_irq` is given, rising.
pub fn roots_of(alloc: Global, program: &Program) -> Result<Vec<u32>, OutOfMemory>
    requires { HasFewNumbers program.now }
    ensures { IfOk result (λ roots. AreRoots program.now roots.items) }
{
    let count = program.funcs.len();
    let names = handlers_of(alloc, program)?;
    let handlers = marks_of(alloc, count, names.as_slice())?;
    let marks = root_marks(alloc, program, handlers.as_slice())?;
    let roots = marked_nodes(alloc, marks.as_slice())?;
    Ok(roots)
}
