// Whether the functions of a text are those of a plan.

ghost use Rattle.std.specs.Prelude.{◌≡◌, is_some};
ghost use Rattle.std.specs.Str.{bytes_eq};
ghost use Rattle.mdr_check_half.specs.Suiting.{are_named, is_whole, is_bare, each_function};

use mdr_core::{Func, Half, Name};

fn is_name(name: &Name, f: &Func) -> bool
    ensures { result ≡ bytes_eq name.now f.now.name }
{
    name.as_slice() == f.name.as_slice()
}

/// Whether the functions have these names, in order.
#[tactic(auto, using(crate::proofs::Endings::unlike_lengths))]
pub fn are_named(names: &[Name], funcs: &[Func]) -> bool
    ensures { result ≡ are_named names.now funcs.now }
{
    if names.len() != funcs.len() {
        return false;
    }
    for i in 0..names.len() {
        if !is_name(&names[i], &funcs[i]) {
            return false;
        }
    }
    true
}

/// Whether a function's body stands in the text.
fn has_body(f: &Func) -> bool
    ensures { result ≡ is_some f.now.body }
{
    f.body.is_some()
}

fn is_whole(half: Half, f: &Func) -> bool
    ensures { result ≡ is_whole half f.now }
{
    match half {
        Half::User => has_body(f),
        Half::Kernel => true,
    }
}

fn is_bare(half: Half, f: &Func) -> bool
    ensures { result ≡ is_bare half f.now }
{
    match half {
        Half::User => true,
        Half::Kernel => f.body.is_none(),
    }
}

/// Whether each function of the user half has its body.
pub fn are_whole(halves: &[Half], funcs: &[Func]) -> bool
    ensures { result ≡ each_function is_whole halves.now funcs.now }
{
    for i in 0..halves.len().min(funcs.len()) {
        if !is_whole(halves[i], &funcs[i]) {
            return false;
        }
    }
    true
}

/// Whether no function of the kernel half has a body.
pub fn are_bare(halves: &[Half], funcs: &[Func]) -> bool
    ensures { result ≡ each_function is_bare halves.now funcs.now }
{
    for i in 0..halves.len().min(funcs.len()) {
        if !is_bare(halves[i], &funcs[i]) {
            return false;
        }
    }
    true
}
