// Which values fit, where the kernel half waits.

ghost use Rattle.std.specs.Prelude.{◌≡◌, slice_get};
ghost use Rattle.mdr_core.specs.Sound.{IsSound};
ghost use Rattle.mdr_fits.specs.Judged.{places_of, types_of};
ghost use Rattle.mdr_slice.specs.Calls.{names_of};
ghost use Rattle.mdr_split.specs.Fits.{fits, fits_result};
ghost use Rattle.mdr_split.specs.Legal.{args_fault, kernel_places, params_of, reply_runs_fault, result_of};
ghost use Rattle.mdr_legal.specs.Waiting.{driver_at, kernel_at};

use crate::places::func_at;
use crate::standing::Standing;
use mdr_core::{Param, Ty};
use mdr_fits::{Passes, Places, args_fault, fits_result, runs_fault};
use mdr_model::{Fault, Run, Wire};

/// What values are judged by. The kernel half knows whose addresses are taken.
pub(crate) fn places<'a>(standing: Standing<'a>) -> Places<'a>
    requires names { standing.passes.now ≡ names_of standing.program.now }
    ensures program { result.program.now ≡ standing.entry.program.now }
    ensures same { places_of result ≡ kernel_places (driver_at standing.entry) (kernel_at standing.entry) }
{
    Places {
        program: standing.program,
        passes: Passes::These(standing.passes),
        paired: standing.agreed,
        memory: standing.memory,
    }
}

fn fits_type(standing: Standing, ty: &Ty, value: Wire) -> bool
    requires sound { IsSound standing.program.now }
    requires names { standing.passes.now ≡ names_of standing.program.now }
    ensures { result ≡ fits_result (kernel_places (driver_at standing.entry) (kernel_at standing.entry)) ty.now value }
{
    fits_result(places(standing), ty, value)
}

/// Whether a value fits the result of the function that was called.
pub(crate) fn fits_upcall(standing: Standing, value: Wire) -> bool
    requires sound { IsSound standing.program.now }
    requires names { standing.passes.now ≡ names_of standing.program.now }
    ensures { result ≡ fits_result (kernel_places (driver_at standing.entry) (kernel_at standing.entry)) (result_of (slice_get standing.entry.program.now.funcs standing.entry.func)) value }
{
    match func_at(standing.program, standing.func) {
        Some(own) => fits_type(standing, &own.result, value),
        None => fits_type(standing, &Ty::Void, value),
    }
}

fn params_fault(standing: Standing, params: &[Param], args: &[Wire]) -> Option<Fault>
    requires sound { IsSound standing.program.now }
    requires names { standing.passes.now ≡ names_of standing.program.now }
    ensures { result ≡ args_fault (fits (kernel_places (driver_at standing.entry) (kernel_at standing.entry))) 0 (types_of params.now) args.now }
{
    args_fault(places(standing), params, args)
}

/// The first fault of the arguments of a function.
pub(crate) fn call_args_fault(standing: Standing, func: u32, args: &[Wire]) -> Option<Fault>
    requires sound { IsSound standing.program.now }
    requires names { standing.passes.now ≡ names_of standing.program.now }
    ensures { result ≡ args_fault (fits (kernel_places (driver_at standing.entry) (kernel_at standing.entry))) 0 (params_of (slice_get standing.entry.program.now.funcs func)) args.now }
{
    match func_at(standing.program, func) {
        Some(own) => params_fault(standing, own.params.as_slice(), args),
        None => params_fault(standing, &[], args),
    }
}

/// The first fault of the runs of values that a reply tells.
pub(crate) fn reply_runs_fault(standing: Standing, runs: &[Run]) -> Option<Fault>
    requires sound { IsSound standing.program.now }
    requires names { standing.passes.now ≡ names_of standing.program.now }
    ensures { result ≡ reply_runs_fault (driver_at standing.entry) (kernel_at standing.entry) runs.now }
{
    runs_fault(places(standing), standing.view, runs)
}
