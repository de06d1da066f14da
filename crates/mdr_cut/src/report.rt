// The report of a source.

ghost use Rattle.std.specs.Prelude.{◌≡◌, ◌++◌, IfOk, map, true, vec_items};
ghost use Rattle.mdr_core.specs.Sound.{HasFewNumbers, IsSound};
ghost use Rattle.mdr_slice.specs.Graph.{AreCallees};
ghost use Rattle.mdr_cut.specs.Cuts.{IsReport};

use crate::plan::plan_of;
use mdr_core::{Items, OutOfMemory, Program};
use mdr_half::{calls_text, plan_text};
use mdr_slice::call_graph;
use std::alloc::{AllocError, Global};

/// The rows of a graph as lists.
fn rows_of(alloc: Global, edges: &[Vec<u32>]) -> Result<Vec<Items<u32>>, AllocError>
    ensures { IfOk result (λ rows. rows.items ≡ map vec_items edges.now) }
{
    let mut rows = Vec::new(alloc);
    for edge in edges {
        let row = Items::from_slice(alloc, edge.as_slice())?;
        rows.push(row)?;
    }
    Ok(rows)
}

/// For each function those that it may call.
fn graph_of(alloc: Global, program: &Program) -> Result<Vec<Items<u32>>, OutOfMemory>
    requires { HasFewNumbers program.now }
    ensures { IfOk result (λ graph. AreCallees program.now true graph.items) }
{
    let edges = call_graph(alloc, program)?;
    let rows = rows_of(alloc, edges.as_slice())?;
    Ok(rows)
}

/// The report of a source, by its program: for each function those that it may call, and then the plan.
pub fn report_text(alloc: Global, program: &Program) -> Result<Vec<u8>, OutOfMemory>
    requires { IsSound program.now }
    ensures { IfOk result (λ text. IsReport program.now text.items) }
{
    let graph = graph_of(alloc, program)?;
    let plan = plan_of(alloc, program)?;
    let mut text = calls_text(alloc, program, graph.as_slice())?;
    let lines = plan_text(alloc, program, &plan)?;
    text.extend_from_slice(lines.as_slice())?;
    Ok(text)
}
