// Whose code is entered, and whose objects are asked for.

ghost use Rattle.std.specs.Prelude.{◌≡◌, None, Some, option_copied, slice_get};
ghost use Rattle.mdr_core.specs.Layout.{chosen};
ghost use Rattle.mdr_meaning.specs.Bodies.{body_of};
ghost use Rattle.mdr_exec.specs.Halves.{body_in, is_own, is_kernel, side_in};

use crate::frame::Side;
use mdr_core::{Func, Half, Program};

fn is_kernel(halves: &[Half], func: u32) -> bool
    ensures { result ≡ is_kernel halves.now func }
{
    match halves.get(func as usize) {
        Some(Half::Kernel) => true,
        Some(Half::User) => false,
        None => false,
    }
}

/// Whether code of a function runs on a side.
fn is_own(side: Side, kernel: bool) -> bool
    ensures { result ≡ is_own side kernel }
{
    match side {
        Side::Whole => true,
        Side::Kernel => kernel,
        Side::User => !kernel,
    }
}

fn func_at<'a>(program: &'a Program, func: u32) -> Option<&'a Func>
    ensures { option_copied result ≡ slice_get program.now.funcs func }
{
    program.funcs.as_slice().get(func as usize)
}

fn has_body(program: &Program, func: u32) -> bool
    ensures { body_of program.now func ≡ chosen result (Some (body_in program.now func)) None }
{
    match func_at(program, func) {
        Some(func) => match &func.body {
            Some(_) => true,
            None => false,
        },
        None => false,
    }
}

/// Whether a function's body is entered on a side.
pub(crate) fn is_entered(program: &Program, halves: &[Half], side: Side, func: u32) -> bool
    ensures { (side_in side halves.now program.now).own func ≡ chosen result (Some (body_in program.now func)) None }
{
    if is_own(side, is_kernel(halves, func)) {
        has_body(program, func)
    } else {
        false
    }
}
