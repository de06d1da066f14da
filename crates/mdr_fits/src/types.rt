// Types by their numbers, and those of functions.

ghost use Rattle.std.specs.Prelude.{◌≡◌, slice_get};
ghost use Rattle.mdr_core.specs.Services.{handler_type};
ghost use Rattle.mdr_core.specs.Typing.{function_type};
ghost use Rattle.mdr_meaning.specs.Numbers.{is_same_type};
ghost use Rattle.mdr_split.specs.Fits.{is_named};

use mdr_core::{Func, Program, Ty, same_type};
use mdr_slice::has_function_type;

fn is_same(one: &Ty, other: &Ty) -> bool
    ensures { result ≡ is_same_type one.now other.now }
{
    same_type(one, other)
}

/// Whether a function's address has the type.
pub(crate) fn has_type(func: &Func, ty: &Ty) -> bool
    ensures { result ≡ is_same_type (function_type func.now) ty.now }
{
    has_function_type(func, ty)
}

/// Whether the type with a number is this one.
#[tactic(auto, unfolding(mdr_split::specs::Fits::is_named))]
pub(crate) fn is_named(program: &Program, number: u32, ty: &Ty) -> bool
    ensures { result ≡ is_named program.now number ty.now }
{
    match program.types.as_slice().get(number as usize) {
        Some(named) => is_same(named, ty),
        None => false,
    }
}

/// Whether a function takes and gives nothing.
pub(crate) fn is_handler(func: &Func) -> bool
    ensures { result ≡ is_same_type (function_type func.now) handler_type }
{
    if func.params.len() == 0 {
        same_type(&func.result, &Ty::Void)
    } else {
        false
    }
}
