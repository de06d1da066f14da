// What a report says of calls.

ghost use Rattle.std.specs.Prelude.{◌≡◌, ◌++◌, OnOk, IfOk, codes, slice_get};
ghost use Rattle.mdr_half.specs.Plans.{func_name_or, callees_text, calls_line, numbers_or_none, calls_lines, calls_text, newline};

use crate::put::{put_bytes, put_newline, put_word};
use mdr_core::{Func, Items, OutOfMemory, Program};
use std::alloc::{AllocError, Global};

/// A function's name behind a blank. A number that names no function has no name.
fn put_callee(out: &mut Vec<u8>, program: &Program, f: u32) -> Result<(), AllocError>
    ensures { OnOk result (out.new.items ≡ out.old.items ++ (codes " " ++ func_name_or (slice_get program.now.funcs f))) }
{
    put_word(out, " ")?;
    match program.funcs.as_slice().get(f as usize) {
        Some(func) => put_bytes(out, func.name.as_slice()),
        None => Ok(()),
    }
}

fn put_callees(out: &mut Vec<u8>, program: &Program, callees: &[u32]) -> Result<(), AllocError>
    ensures { OnOk result (out.new.items ≡ out.old.items ++ callees_text program.now callees.now) }
{
    for f in callees {
        put_callee(out, program, *f)?;
    }
    Ok(())
}

fn put_calls_line(
    out: &mut Vec<u8>,
    program: &Program,
    name: &[u8],
    callees: &[u32],
) -> Result<(), AllocError>
    ensures { OnOk result (out.new.items ≡ out.old.items ++ calls_line program.now name.now callees.now) }
{
    put_word(out, "calls ")?;
    put_bytes(out, name)?;
    put_word(out, ":")?;
    put_callees(out, program, callees)?;
    put_newline(out)
}

fn put_calls_line_at(
    out: &mut Vec<u8>,
    program: &Program,
    graph: &[Items<u32>],
    k: usize,
    name: &[u8],
) -> Result<(), AllocError>
    ensures { OnOk result (out.new.items ≡ out.old.items ++ calls_line program.now name.now (numbers_or_none (slice_get graph.now k))) }
{
    match graph.get(k) {
        Some(callees) => put_calls_line(out, program, name, callees.as_slice()),
        None => put_calls_line(out, program, name, &[]),
    }
}

fn put_calls(
    out: &mut Vec<u8>,
    program: &Program,
    graph: &[Items<u32>],
    funcs: &[Func],
) -> Result<(), AllocError>
    ensures { OnOk result (out.new.items ≡ out.old.items ++ calls_lines program.now graph.now 0 funcs.now) }
{
    for k in 0..funcs.len() {
        put_calls_line_at(out, program, graph, k, funcs[k].name.as_slice())?;
    }
    Ok(())
}

/// A line for each function with the names of those that it may call. The graph has their numbers, a list for each
/// function.
#[tactic(auto, unfolding(crate::specs::Plans::calls_text))]
pub fn calls_text(
    alloc: Global,
    program: &Program,
    graph: &[Items<u32>],
) -> Result<Vec<u8>, OutOfMemory>
    ensures { IfOk result (λ bytes. bytes.items ≡ calls_text program.now graph.now) }
{
    let mut out = Vec::new(alloc);
    match put_calls(&mut out, program, graph, program.funcs.as_slice()) {
        Ok(()) => Ok(out),
        Err(error) => Err(error.into()),
    }
}
