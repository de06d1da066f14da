// The text of a plan.

ghost use Rattle.std.specs.Prelude.{◌≡◌, ◌++◌, OnOk, IfOk, codes, decimal, slice_get};
ghost use Rattle.mdr_half.specs.Plans.{half_or_user, true_or_not, keys_or_none, heading, type_line, half_text, root_text, function_line, down_line, key_text};
ghost use Rattle.mdr_half.specs.Plans.{key_line, key_lines, up_lines_of, ending, type_lines, function_lines, down_lines, up_lines, plan_text, newline};

use crate::put::{put_bytes, put_newline, put_number, put_word};
use mdr_core::{Half, Items, Key, Name, OutOfMemory, Plan, Program, Ty, type_text};
use std::alloc::{AllocError, Global};

/// A word and a number.
fn put_numbered(alloc: Global, out: &mut Vec<u8>, word: &str, k: u64) -> Result<(), AllocError>
    ensures { OnOk result (out.new.items ≡ out.old.items ++ (word.now ++ decimal k)) }
{
    put_word(out, word)?;
    put_number(alloc, out, k)
}

fn put_type_line(
    alloc: Global,
    out: &mut Vec<u8>,
    program: &Program,
    k: u64,
    ty: &Ty,
) -> Result<(), AllocError>
    ensures { OnOk result (out.new.items ≡ out.old.items ++ type_line program.now k ty.now) }
{
    put_numbered(alloc, out, "type ", k)?;
    put_word(out, " ")?;
    type_text(out, program, ty)?;
    put_newline(out)
}

fn put_half(out: &mut Vec<u8>, half: Half) -> Result<(), AllocError>
    ensures { OnOk result (out.new.items ≡ out.old.items ++ half_text half) }
{
    match half {
        Half::Kernel => put_word(out, " kernel"),
        Half::User => put_word(out, " user"),
    }
}

fn put_root(out: &mut Vec<u8>, is_root: bool) -> Result<(), AllocError>
    ensures { OnOk result (out.new.items ≡ out.old.items ++ root_text is_root) }
{
    if is_root {
        put_word(out, " root")
    } else {
        Ok(())
    }
}

/// A blank, a function's name, and what the plan says of it.
fn put_function(out: &mut Vec<u8>, name: &[u8], half: Half, is_root: bool) -> Result<(), AllocError>
    ensures { OnOk result (out.new.items ≡ out.old.items ++ (codes " " ++ (name.now ++ (half_text half ++ root_text is_root)))) }
{
    put_word(out, " ")?;
    put_bytes(out, name)?;
    put_half(out, half)?;
    put_root(out, is_root)
}

fn put_function_line(
    alloc: Global,
    out: &mut Vec<u8>,
    k: u64,
    name: &[u8],
    half: Half,
    is_root: bool,
) -> Result<(), AllocError>
    ensures { OnOk result (out.new.items ≡ out.old.items ++ function_line k name.now half is_root) }
{
    put_numbered(alloc, out, "function ", k)?;
    put_function(out, name, half, is_root)?;
    put_newline(out)
}

fn put_down_line(alloc: Global, out: &mut Vec<u8>, k: u64, is_down: bool) -> Result<(), AllocError>
    ensures { OnOk result (out.new.items ≡ out.old.items ++ down_line k is_down) }
{
    if !is_down {
        return Ok(());
    }
    put_numbered(alloc, out, "down ", k)?;
    put_newline(out)
}

fn put_key(alloc: Global, out: &mut Vec<u8>, key: Key) -> Result<(), AllocError>
    ensures { OnOk result (out.new.items ≡ out.old.items ++ key_text key) }
{
    match key {
        Key::Global(global) => put_numbered(alloc, out, " global ", u64::from(global)),
        Key::Field(s, field) => {
            put_numbered(alloc, out, " field ", u64::from(s))?;
            put_numbered(alloc, out, " ", u64::from(field))
        }
        Key::Elem(ty) => put_numbered(alloc, out, " elem ", u64::from(ty)),
    }
}

fn put_key_line(alloc: Global, out: &mut Vec<u8>, k: u64, key: Key) -> Result<(), AllocError>
    ensures { OnOk result (out.new.items ≡ out.old.items ++ key_line k key) }
{
    put_numbered(alloc, out, "key ", k)?;
    put_key(alloc, out, key)?;
    put_newline(out)
}

fn put_key_lines(alloc: Global, out: &mut Vec<u8>, k: u64, keys: &[Key]) -> Result<(), AllocError>
    ensures { OnOk result (out.new.items ≡ out.old.items ++ key_lines k keys.now) }
{
    for key in keys {
        put_key_line(alloc, out, k, *key)?;
    }
    Ok(())
}

fn put_up_lines_of(
    alloc: Global,
    out: &mut Vec<u8>,
    k: u64,
    half: Half,
    keys: &[Key],
) -> Result<(), AllocError>
    ensures { OnOk result (out.new.items ≡ out.old.items ++ up_lines_of k half keys.now) }
{
    match half {
        Half::Kernel => Ok(()),
        Half::User => {
            put_numbered(alloc, out, "up ", k)?;
            put_newline(out)?;
            put_key_lines(alloc, out, k, keys)
        }
    }
}

fn put_type_lines(
    alloc: Global,
    out: &mut Vec<u8>,
    program: &Program,
    types: &[Ty],
) -> Result<(), AllocError>
    ensures { OnOk result (out.new.items ≡ out.old.items ++ type_lines program.now 0 types.now) }
{
    for k in 0..types.len() {
        put_type_line(alloc, out, program, k as u64, &types[k])?;
    }
    Ok(())
}

/// The half of function k. One without a half isn't in the kernel.
pub fn half_at(plan: &Plan, k: usize) -> Half
    ensures { result ≡ half_or_user (slice_get plan.now.halves k) }
{
    match plan.halves.as_slice().get(k) {
        Some(half) => *half,
        None => Half::User,
    }
}

fn is_root_at(plan: &Plan, k: usize) -> bool
    ensures { result ≡ true_or_not (slice_get plan.now.roots k) }
{
    match plan.roots.as_slice().get(k) {
        Some(is_root) => *is_root,
        None => false,
    }
}

fn put_function_lines(
    alloc: Global,
    out: &mut Vec<u8>,
    plan: &Plan,
    names: &[Name],
) -> Result<(), AllocError>
    ensures { OnOk result (out.new.items ≡ out.old.items ++ function_lines plan.now 0 names.now) }
{
    for k in 0..names.len() {
        let half = half_at(plan, k);
        let is_root = is_root_at(plan, k);
        put_function_line(alloc, out, k as u64, names[k].as_slice(), half, is_root)?;
    }
    Ok(())
}

fn put_down_lines(alloc: Global, out: &mut Vec<u8>, down: &[bool]) -> Result<(), AllocError>
    ensures { OnOk result (out.new.items ≡ out.old.items ++ down_lines 0 down.now) }
{
    for k in 0..down.len() {
        put_down_line(alloc, out, k as u64, down[k])?;
    }
    Ok(())
}

/// The lines of function k, where it is in the user half.
fn put_up_lines_at(
    alloc: Global,
    out: &mut Vec<u8>,
    plan: &Plan,
    k: usize,
    half: Half,
) -> Result<(), AllocError>
    ensures { OnOk result (out.new.items ≡ out.old.items ++ up_lines_of k half (keys_or_none (slice_get plan.now.keys k))) }
{
    match plan.keys.as_slice().get(k) {
        Some(keys) => put_up_lines_of(alloc, out, k as u64, half, keys.as_slice()),
        None => put_up_lines_of(alloc, out, k as u64, half, &[]),
    }
}

fn put_up_lines(
    alloc: Global,
    out: &mut Vec<u8>,
    plan: &Plan,
    halves: &[Half],
) -> Result<(), AllocError>
    ensures { OnOk result (out.new.items ≡ out.old.items ++ up_lines plan.now 0 halves.now) }
{
    for k in 0..halves.len() {
        put_up_lines_at(alloc, out, plan, k, halves[k])?;
    }
    Ok(())
}

/// The lines of stubs.
fn put_stubs(alloc: Global, out: &mut Vec<u8>, plan: &Plan) -> Result<(), AllocError>
    ensures { OnOk result (out.new.items ≡ out.old.items ++ (down_lines 0 plan.now.down ++ (up_lines plan.now 0 plan.now.halves ++ ending))) }
{
    put_down_lines(alloc, out, plan.down.as_slice())?;
    put_up_lines(alloc, out, plan, plan.halves.as_slice())?;
    put_word(out, "end\n")
}

#[tactic(auto, unfolding(crate::specs::Plans::plan_text))]
fn put_plan(
    alloc: Global,
    out: &mut Vec<u8>,
    program: &Program,
    plan: &Plan,
) -> Result<(), AllocError>
    ensures { OnOk result (out.new.items ≡ out.old.items ++ plan_text program.now plan.now) }
{
    put_word(out, "plan 1\n")?;
    put_type_lines(alloc, out, program, plan.types.as_slice())?;
    put_function_lines(alloc, out, plan, plan.names.as_slice())?;
    put_stubs(alloc, out, plan)
}

/// The text of a plan: a line for each type of the table and for each function, one for each that the user half may
/// call by a stub, and for each function of the user half a line and one for each of its keys. The program gives
/// the names of structs.
pub fn plan_text(alloc: Global, program: &Program, plan: &Plan) -> Result<Vec<u8>, OutOfMemory>
    ensures { IfOk result (λ bytes. bytes.items ≡ plan_text program.now plan.now) }
{
    let mut out = Vec::new(alloc);
    match put_plan(alloc, &mut out, program, plan) {
        Ok(()) => Ok(out),
        Err(error) => Err(error.into()),
    }
}
