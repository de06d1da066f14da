// A table's edges turned round.

ghost use Rattle.std.specs.Prelude.{◌≡◌, ◌≤◌, [], map, IfOk, OnOk, vec_items, length, replicate};
ghost use Rattle.mdr_paths.specs.Turned.{AreTurned, with_edge, with_edges};

use std::alloc::{AllocError, Global};

/// So many empty rows.
fn empty_rows(alloc: Global, count: usize) -> Result<Vec<Vec<u32>>, AllocError>
    ensures { IfOk result (λ rows. map vec_items rows.items ≡ replicate count []) }
{
    let mut rows = Vec::new(alloc);
    for _ in 0..count {
        rows.push(Vec::new(alloc))?;
    }
    Ok(rows)
}

/// Adds a node to a row. A number past the rows counts for nothing.
fn add_edge(rows: &mut Vec<Vec<u32>>, from: u32, to: u32) -> Result<(), AllocError>
    ensures { OnOk result (map vec_items rows.new.items ≡ with_edge (map vec_items rows.old.items) from to) }
{
    let at = to as usize;
    if at < rows.len() {
        rows[at].push(from)?;
    }
    Ok(())
}

/// Adds a node to the rows of nodes.
fn add_edges(rows: &mut Vec<Vec<u32>>, from: u32, nodes: &[u32]) -> Result<(), AllocError>
    ensures { OnOk result (map vec_items rows.new.items ≡ with_edges (map vec_items rows.old.items) from nodes.now) }
{
    for node in nodes {
        add_edge(rows, from, *node)?;
    }
    Ok(())
}

/// The table of the same edges the other way. The nodes are the numbers below that of the lists of edges; edges to other
/// numbers count for nothing. The time is linear in nodes and edges.
pub fn turned_edges(alloc: Global, edges: &[Vec<u32>]) -> Result<Vec<Vec<u32>>, AllocError>
    requires { length edges.now ≤ 4294967296 }
    ensures { IfOk result (λ turned. AreTurned (map vec_items edges.now) (map vec_items turned.items)) }
{
    let mut turned = empty_rows(alloc, edges.len())?;
    for from in 0..edges.len() {
        add_edges(&mut turned, from as u32, &edges[from])?;
    }
    Ok(turned)
}
