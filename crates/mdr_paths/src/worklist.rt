// The nodes that have a path, by marks and a list of those whose edges are still to be followed.

ghost use Rattle.std.specs.Prelude.{◌≡◌, ◌++◌, ◌≤◌, map, IfOk, OnOk, vec_items, length};
ghost use Rattle.mdr_paths.specs.Numbers.{AreReached, marks_of};
ghost use Rattle.mdr_paths.specs.Marking.{marks_after, entered, Adds, AreMarks};

use std::alloc::{AllocError, Global};

/// Enters nodes, one after the other.
fn enter_all(marks: &mut Vec<bool>, todo: &mut Vec<u32>, nodes: &[u32]) -> Result<(), AllocError>
    ensures marks { OnOk result (marks.new.items ≡ marks_after marks.old.items nodes.now) }
    ensures todo { OnOk result (todo.new.items ≡ todo.old.items ++ entered marks.old.items nodes.now) }
{
    for node in nodes {
        let at = *node as usize;
        if at < marks.len() && !marks[at] {
            marks[at] = true;
            todo.push(*node)?;
        }
    }
    Ok(())
}

/// Marks the nodes that the roots reach. The nodes are the numbers below that of the lists of edges; other numbers count
/// for nothing. The time is linear in nodes, edges and roots.
pub fn reached(alloc: Global, edges: &[Vec<u32>], roots: &[u32]) -> Result<Vec<bool>, AllocError>
    ensures { IfOk result (λ marks. AreReached (map vec_items edges.now) roots.now marks.items) }
{
    let mut marks = vec![in alloc; false; edges.len()]?;
    let mut todo = Vec::new(alloc);
    enter_all(&mut marks, &mut todo, roots)?;
    while let Some(node) = todo.pop() {
        enter_all(&mut marks, &mut todo, &edges[node as usize])?;
    }
    Ok(marks)
}

/// Marks nodes, one after the other.
fn mark_each(marks: &mut Vec<bool>, nodes: &[u32])
    ensures { marks.new.items ≡ marks_after marks.old.items nodes.now }
{
    for node in nodes {
        let at = *node as usize;
        if at < marks.len() && !marks[at] {
            marks[at] = true;
        }
    }
}

/// Marks nodes beside those that are marked. Numbers past the marks count for nothing.
pub fn mark_all(marks: &mut Vec<bool>, nodes: &[u32])
    ensures { Adds marks.old.items nodes.now marks.new.items }
{
    mark_each(marks, nodes);
}

/// The marks of these nodes, of so many.
pub fn marks_of(alloc: Global, count: usize, nodes: &[u32]) -> Result<Vec<bool>, AllocError>
    ensures { IfOk result (λ marks. AreMarks count nodes.now marks.items) }
{
    let mut marks = vec![in alloc; false; count]?;
    mark_each(&mut marks, nodes);
    Ok(marks)
}

/// The marked nodes, rising.
#[tactic(auto, unfolding(crate::specs::Numbers::marks_of))]
pub fn marked_nodes(alloc: Global, marks: &[bool]) -> Result<Vec<u32>, AllocError>
    requires { length marks.now ≤ 4294967296 }
    ensures { IfOk result (λ nodes. nodes.items ≡ marks_of marks.now) }
{
    let mut nodes = Vec::new(alloc);
    for at in 0..marks.len() {
        if marks[at] {
            nodes.push(at as u32)?;
        }
    }
    Ok(nodes)
}
