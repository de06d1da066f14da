// How many things numbers tell apart.

ghost use Rattle.std.specs.Prelude.{◌≡◌, ◌↔◌, ◌≤◌, length, true};
ghost use Rattle.mdr_core.specs.Sound.{HasFewNumbers};

use crate::program::Program;

/// The most types, globals, structs or functions that a program has.
const MOST: usize = 16_777_216;

fn is_few<T>(things: &[T]) -> bool
    ensures { (result ≡ true) ↔ (length things.now ≤ 16777216) }
{
    things.len() <= MOST
}

/// Whether a program's types, globals, structs and functions are few, as those of a sound one are. A source of a mebibyte
/// has no more of them than that.
pub fn has_few_numbers(program: &Program) -> bool
    ensures { (result ≡ true) ↔ HasFewNumbers program.now }
{
    if !is_few(program.types.as_slice()) {
        return false;
    }
    if !is_few(program.globals.as_slice()) {
        return false;
    }
    if !is_few(program.structs.as_slice()) {
        return false;
    }
    is_few(program.funcs.as_slice())
}
