// Functions that lead to each other share what they lead to: an early one of them stands for the others.

ghost use Rattle.std.specs.Prelude.{◌≡◌, ◌<◌, ◌≤◌, ◌&&◌, IfOk, OnOk, length, map, vec_items};
ghost use Rattle.std.specs.List.{list_any, range_with_len};
ghost use Rattle.mdr_paths.specs.Numbers.{marked};
ghost use Rattle.mdr_access.specs.Shared.{KeepsFirsts, SharesMarked};

use mdr_paths::reached;
use std::alloc::{AllocError, Global};

/// Each function stands for itself.
pub(crate) fn each_alone(alloc: Global, count: usize) -> Result<Vec<u32>, AllocError>
    requires { count ≤ 4294967296 }
    ensures { IfOk result (λ firsts. firsts.items ≡ range_with_len 0 count) }
{
    let mut firsts = Vec::new(alloc);
    for func in 0..count {
        firsts.push(func as u32)?;
    }
    Ok(firsts)
}

/// Whether a function is marked.
fn is_marked(marks: &[bool], func: u32) -> bool
    ensures { result ≡ marked marks.now func }
{
    match marks.get(func as usize) {
        Some(mark) => *mark,
        None => false,
    }
}

/// Whether one of the functions is marked.
fn any_marked(marks: &[bool], funcs: &[u32]) -> bool
    ensures { result ≡ list_any (marked marks.now) funcs.now }
{
    for func in funcs {
        if is_marked(marks, *func) {
            return true;
        }
    }
    false
}

/// Whether a function has both marks.
fn has_both(one: &[bool], other: &[bool], func: u32) -> bool
    ensures { result ≡ (marked one.now func && marked other.now func) }
{
    is_marked(one, func) && is_marked(other, func)
}

/// Lets a function stand for the later ones that have both marks.
fn share_marked(firsts: &mut Vec<u32>, led: &[bool], leading: &[bool], func: u32)
    requires { length firsts.old.items ≤ 4294967296 }
    ensures { SharesMarked led.now leading.now func firsts.old.items firsts.new.items }
{
    for at in func as usize + 1..firsts.len() {
        if has_both(led, leading, at as u32) {
            firsts[at] = func;
        }
    }
}

/// Lets a function, of which what it leads to is marked, stand for the later ones of these that lead to it. That takes a walk
/// over the turned edges, but none where the function doesn't lead to itself.
pub(crate) fn share(
    alloc: Global,
    turned: &[Vec<u32>],
    led: &[bool],
    firsts: &mut Vec<u32>,
    func: u32,
) -> Result<(), AllocError>
    requires inside { func < length turned.now }
    requires few { length firsts.old.items ≤ 4294967296 }
    ensures { OnOk result (KeepsFirsts (map vec_items turned.now) led.now func firsts.old.items firsts.new.items) }
{
    if !any_marked(led, &turned[func as usize]) {
        return Ok(());
    }
    let leading = reached(alloc, turned, &[func])?;
    share_marked(firsts, led, leading.as_slice(), func);
    Ok(())
}
