// The halves.

ghost use Rattle.std.specs.Prelude.{◌≡◌, ◌&&◌, [], IfOk, length, map, vec_items};
ghost use Rattle.mdr_core.specs.Layout.{chosen};
ghost use Rattle.mdr_core.specs.Sound.{HasFewNumbers};
ghost use Rattle.mdr_paths.specs.Marking.{Tells, Adds};
ghost use Rattle.mdr_slice.specs.Graph.{AreCallees};
ghost use Rattle.mdr_slice.specs.Halves.{AreFunctions, AreHalves, HasDownStub, IsKernel};
ghost use Rattle.mdr_slice.specs.Marks.{CalledByUser, HasBoth, IsDown, half_by};

use crate::graph::graph;
use mdr_core::{Half, Items, OutOfMemory, Program};
use mdr_paths::{mark_all, marks_of, reached};
use std::alloc::{AllocError, Global};

/// The halves of a driver. Of each function: its half, whether it is a root, and whether it has a down stub, by which the
/// user half calls it.
#[derive(Drop)]
pub struct Halves {
    pub halves: Items<Half>,
    pub roots: Items<bool>,
    pub down: Items<bool>,
}

/// Marks the functions of the kernel half.
fn kernel_marks(alloc: Global, program: &Program, roots: &[u32]) -> Result<Vec<bool>, OutOfMemory>
    requires few { HasFewNumbers program.now }
    requires roots { AreFunctions program.now roots.now }
    ensures { IfOk result (λ marks. Tells (length program.now.funcs) (IsKernel program.now roots.now) marks.items) }
{
    let edges = graph(alloc, program, false)?;
    let marks = reached(alloc, edges.as_slice(), roots)?;
    Ok(marks)
}

/// Marks nodes unless they are those of the kernel half's function.
fn mark_unless(marks: &mut Vec<bool>, kernel: bool, nodes: &[u32])
    ensures { Adds marks.old.items (chosen kernel [] nodes.now) marks.new.items }
{
    if kernel {
        return;
    }
    mark_all(marks, nodes);
}

/// Marks, of so many nodes, those that stand in a row without a mark. With the functions of the kernel half marked, and what
/// each may call in its row, these are what functions of the user half may call.
pub fn called_marks(
    alloc: Global,
    count: usize,
    edges: &[Vec<u32>],
    kernel: &[bool],
) -> Result<Vec<bool>, AllocError>
    requires { length kernel.now ≡ length edges.now }
    ensures { IfOk result (λ marks. Tells count (CalledByUser kernel.now (map vec_items edges.now) (length edges.now)) marks.items) }
{
    let mut marks = vec![in alloc; false; count]?;
    for caller in 0..edges.len() {
        mark_unless(&mut marks, kernel[caller], edges[caller].as_slice());
    }
    Ok(marks)
}

fn and(one: bool, other: bool) -> bool
    ensures { result ≡ (one && other) }
{
    one && other
}

/// Whether each function has both marks.
fn both(alloc: Global, one: &[bool], other: &[bool]) -> Result<Vec<bool>, AllocError>
    requires { length one.now ≡ length other.now }
    ensures { IfOk result (λ marks. Tells (length one.now) (HasBoth one.now other.now) marks.items) }
{
    let mut marks = vec![in alloc; false; one.len()]?;
    for at in 0..one.len() {
        marks[at] = and(one[at], other[at]);
    }
    Ok(marks)
}

/// Marks the functions with a down stub.
fn down_marks(alloc: Global, program: &Program, kernel: &[bool]) -> Result<Vec<bool>, OutOfMemory>
    requires few { HasFewNumbers program.now }
    requires marks { length kernel.now ≡ length program.now.funcs }
    ensures { IfOk result (λ marks. Tells (length program.now.funcs) (IsDown program.now kernel.now) marks.items) }
{
    let edges = graph(alloc, program, true)?;
    let called = called_marks(alloc, program.funcs.len(), edges.as_slice(), kernel)?;
    let marks = both(alloc, kernel, called.as_slice())?;
    Ok(marks)
}

fn half(kernel: bool) -> Half
    ensures { result ≡ half_by kernel }
{
    if kernel { Half::Kernel } else { Half::User }
}

/// The halves that marks of the kernel half tell.
fn halves_by(alloc: Global, kernel: &[bool]) -> Result<Vec<Half>, AllocError>
    ensures { IfOk result (λ halves. halves.items ≡ map half_by kernel.now) }
{
    let mut halves = Vec::new(alloc);
    for mark in kernel {
        halves.push(half(*mark))?;
    }
    Ok(halves)
}

/// The half of each function: the kernel half has what a list of possible calls leads to from one of the roots, the user
/// half all else. A call by the kernel's service that calls back isn't possible here; for down stubs it is.
pub fn slice(alloc: Global, program: &Program, roots: &[u32]) -> Result<Halves, OutOfMemory>
    requires few { HasFewNumbers program.now }
    requires roots { AreFunctions program.now roots.now }
    ensures { IfOk result (λ halves. AreHalves program.now roots.now halves) }
{
    let kernel = kernel_marks(alloc, program, roots)?;
    let down = down_marks(alloc, program, kernel.as_slice())?;
    let halves = halves_by(alloc, kernel.as_slice())?;
    let root = marks_of(alloc, program.funcs.len(), roots)?;
    Ok(Halves {
        halves: Items::from_vec(halves),
        roots: Items::from_vec(root),
        down: Items::from_vec(down),
    })
}
