// What functions of the user half lead to.

ghost use Rattle.std.specs.Prelude.{◌≡◌, ◌++◌, ◌∷◌, [], IfOk, OnOk, get_or, length, map, not, vec_items};
ghost use Rattle.mdr_core.specs.Layout.{chosen};
ghost use Rattle.mdr_paths.specs.Numbers.{AreReached};
ghost use Rattle.mdr_access.specs.AllKeys.{picked};
ghost use Rattle.mdr_access.specs.Walked.{is_user_half, is_user, users};

use mdr_core::{Half, Key};
use mdr_paths::reached;
use std::alloc::{AllocError, Global};

fn is_user_half(half: Half) -> bool
    ensures { result ≡ is_user_half half }
{
    match half {
        Half::Kernel => false,
        Half::User => true,
    }
}

/// Whether a function is of the user half.
pub(crate) fn is_user(halves: &[Half], func: u32) -> bool
    ensures { result ≡ is_user halves.now func }
{
    match halves.get(func as usize) {
        Some(half) => is_user_half(*half),
        None => false,
    }
}

fn add_user(halves: &[Half], func: u32, out: &mut Vec<u32>) -> Result<(), AllocError>
    ensures { OnOk result (out.new.items ≡ out.old.items ++ chosen (is_user halves.now func) (func ∷ []) []) }
{
    if is_user(halves, func) {
        out.push(func)?;
    }
    Ok(())
}

/// Those of the functions that are of the user half.
fn users(alloc: Global, halves: &[Half], funcs: &[u32]) -> Result<Vec<u32>, AllocError>
    ensures { IfOk result (λ out. out.items ≡ users halves.now funcs.now) }
{
    let mut out = Vec::new(alloc);
    for func in funcs {
        add_user(halves, *func, &mut out)?;
    }
    Ok(out)
}

/// The edges to functions of the user half.
pub(crate) fn user_edges(
    alloc: Global,
    halves: &[Half],
    edges: &[Vec<u32>],
) -> Result<Vec<Vec<u32>>, AllocError>
    ensures { IfOk result (λ out. map vec_items out.items ≡ map (users halves.now) (map vec_items edges.now)) }
{
    let mut out = Vec::new(alloc);
    for row in edges {
        let kept = users(alloc, halves, row.as_slice())?;
        out.push(kept)?;
    }
    Ok(out)
}

/// Marks what a function leads to by edges.
pub(crate) fn led_marks(
    alloc: Global,
    edges: &[Vec<u32>],
    func: u32,
) -> Result<Vec<bool>, AllocError>
    ensures { IfOk result (λ marks. AreReached (map vec_items edges.now) (func ∷ []) marks.items) }
{
    let marks = reached(alloc, edges, &[func])?;
    Ok(marks)
}

/// The marks turned.
pub(crate) fn turned(alloc: Global, marks: &[bool]) -> Result<Vec<bool>, AllocError>
    ensures { IfOk result (λ out. out.items ≡ map not marks.now) }
{
    let mut out = Vec::new(alloc);
    for mark in marks {
        out.push(!*mark)?;
    }
    Ok(out)
}

fn add_picked(mark: bool, key: Key, out: &mut Vec<Key>) -> Result<(), AllocError>
    ensures { OnOk result (out.new.items ≡ out.old.items ++ chosen mark (key ∷ []) []) }
{
    if mark {
        out.push(key)?;
    }
    Ok(())
}

/// Those of the keys that are marked.
pub(crate) fn picked(alloc: Global, keys: &[Key], marks: &[bool]) -> Result<Vec<Key>, AllocError>
    requires { length marks.now ≡ length keys.now }
    ensures { IfOk result (λ out. out.items ≡ picked keys.now marks.now) }
{
    let mut out = Vec::new(alloc);
    for at in 0..keys.len() {
        add_picked(marks[at], keys[at], &mut out)?;
    }
    Ok(out)
}
