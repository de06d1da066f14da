// What is wrong with arguments.

ghost use Rattle.std.specs.Prelude.{◌≡◌, Some, option_map, slice_get};
ghost use Rattle.mdr_core.specs.Sound.{IsSound};
ghost use Rattle.mdr_fits.specs.Judged.{fits_at, places_of, type_of, types_of};
ghost use Rattle.mdr_model.specs.Faults.{fault};
ghost use Rattle.mdr_split.specs.Fits.{fits};
ghost use Rattle.mdr_split.specs.Legal.{args_fault};

use crate::places::Places;
use crate::values::fits;
use mdr_core::{Param, RefuseKind};
use mdr_model::{Fault, Wire};

pub(crate) fn fault(kind: RefuseKind, number: u64) -> Option<Fault>
    ensures { result ≡ Some (fault kind number) }
{
    Some(Fault { kind, number })
}

fn fits_param(places: Places, params: &[Param], i: usize, arg: Wire) -> bool
    requires { IsSound places.program.now }
    ensures { result ≡ fits_at (fits (places_of places.entry)) (option_map type_of (slice_get params.now i)) arg }
{
    match params.get(i) {
        Some(param) => fits(places, &param.ty, arg),
        None => false,
    }
}

/// The position of the first argument that doesn't fit its parameter, else the smaller number where there are too few
/// or too many.
pub fn args_fault(places: Places, params: &[Param], args: &[Wire]) -> Option<Fault>
    requires { IsSound places.program.now }
    ensures { result ≡ args_fault (fits (places_of places.entry)) 0 (types_of params.now) args.now }
{
    for (i, arg) in args.iter().enumerate() {
        if !fits_param(places, params, i, *arg) {
            return fault(RefuseKind::BadArgs, i as u64);
        }
    }
    if args.len() < params.len() {
        fault(RefuseKind::BadArgs, args.len() as u64)
    } else {
        None
    }
}
