// What is watched.

ghost use Rattle.std.specs.Prelude.{◌≡◌, [], option_copied, slice_get};
ghost use Rattle.mdr_watched.specs.Driver.{is_user, is_user_half, touched_by};
ghost use Rattle.mdr_watched.specs.Watched.{kernel_of};
ghost use Rattle.mdr_whole.specs.Going.{driver_code};
ghost use Rattle.mdr_watch.specs.Watching.{IsFit, driver_in};

use mdr_core::{Func, Half, Items, Key, Plan, Program};
use mdr_exec::Side;
use mdr_whole::Code;

/// A driver and its plan.
#[derive(Clone, Copy)]
pub struct Watch<'a> {
    pub program: &'a Program,
    pub plan: &'a Plan,
}

/// A call of a function of the user half, by the kernel.
#[derive(Clone, Copy)]
pub struct Upcall<'a> {
    pub watch: Watch<'a>,
    pub func: u32,
}

/// A function of the user half runs: with so many functions active before it, and with room for so many upcalls that open
/// within one another below it.
#[derive(Clone, Copy)]
pub(crate) struct Activation<'a> {
    pub upcall: Upcall<'a>,
    pub depth: u32,
    pub room: u32,
}

/// The code of the kernel half.
pub fn kernel_code<'a>(watch: Watch<'a>) -> Code<'a>
    requires { IsFit watch }
    ensures code { driver_code result ≡ kernel_of (driver_in watch.entry) }
    ensures program { result.program.now ≡ watch.entry.program.now }
{
    Code {
        program: watch.program,
        halves: watch.plan.halves.as_slice(),
        side: Side::Kernel,
    }
}

/// Whether a function is of the user half.
pub fn is_user(plan: &Plan, func: u32) -> bool
    ensures { result ≡ is_user plan.now func }
{
    match plan.halves.as_slice().get(func as usize) {
        Some(Half::User) => true,
        Some(Half::Kernel) => false,
        None => false,
    }
}

/// The keys of what a function of the user half may touch, with all that it calls in its half.
pub fn touched<'a>(plan: &'a Plan, func: u32) -> &'a [Key]
    ensures { result.now ≡ touched_by plan.now func }
{
    match plan.keys.as_slice().get(func as usize) {
        Some(keys) => keys.as_slice(),
        None => &[],
    }
}

pub(crate) fn func_at<'a>(program: &'a Program, func: u32) -> Option<&'a Func>
    ensures { option_copied result ≡ slice_get program.now.funcs func }
{
    program.funcs.as_slice().get(func as usize)
}
