// What a service is asked with.

ghost use Rattle.std.specs.Prelude.{◌≡◌, Some, length, slice_get};
ghost use Rattle.mdr_core.specs.Services.{service_numbered};
ghost use Rattle.mdr_core.specs.Sound.{IsSound};
ghost use Rattle.mdr_fits.specs.Judged.{fits_at};
ghost use Rattle.mdr_fits.specs.Tables.{arguments_as, terms_as, type_of};
ghost use Rattle.mdr_model.specs.Faults.{fault};
ghost use Rattle.mdr_slice.specs.Calls.{names_of};
ghost use Rattle.mdr_split.specs.Fits.{fits};
ghost use Rattle.mdr_split.specs.Legal.{args_fault, fits_service, is_asked_so, kernel_places, may_be_given, names_kernel};
ghost use Rattle.mdr_split.specs.Services.{asked_of, types_of};
ghost use Rattle.mdr_legal.specs.Waiting.{driver_at, kernel_at, open_at, service_fault_at, terms_fault_at};

use crate::places::is_kernel_half;
use crate::standing::Standing;
use crate::values::places;
use mdr_core::RefuseKind;
use mdr_fits::{
    Arguments, Parameter, Terms, fits_parameter, may_die, parameter, parameter_count, shapes_fit,
    terms_of,
};
use mdr_model::{Ask, Fault, Wire};

fn fault(kind: RefuseKind, number: u64) -> Option<Fault>
    ensures { result ≡ Some (fault kind number) }
{
    Some(Fault { kind, number })
}

fn names_kernel(standing: Standing, value: Wire) -> bool
    ensures { result ≡ names_kernel (driver_at standing.entry) value }
{
    match value {
        Wire::Fn(func) => is_kernel_half(standing, func),
        Wire::Int(_, _) | Wire::Null | Wire::Ptr(_) | Wire::Dead | Wire::Lock(_) | Wire::NoValue =>
            false,
    }
}

/// Whether a service may be given a value that fits: a function that handles interrupts is of the kernel half.
fn may_be_given(standing: Standing, service: u32, value: Wire) -> bool
    ensures { result ≡ may_be_given (driver_at standing.entry) (service_numbered service) value }
{
    if service == 7 {
        names_kernel(standing, value)
    } else {
        true
    }
}

fn fits_so(standing: Standing, parameter: Parameter, value: Wire) -> bool
    requires sound { IsSound standing.program.now }
    requires names { standing.passes.now ≡ names_of standing.program.now }
    ensures { result ≡ fits (kernel_places (driver_at standing.entry) (kernel_at standing.entry)) (type_of parameter) value }
{
    fits_parameter(places(standing), parameter, value)
}

/// Whether a value fits an argument of a service.
#[tactic(auto, unfolding(mdr_split::specs::Legal::fits_service))]
fn fits_argument(standing: Standing, service: u32, parameter: Parameter, value: Wire) -> bool
    requires sound { IsSound standing.program.now }
    requires names { standing.passes.now ≡ names_of standing.program.now }
    ensures { result ≡ fits_service (driver_at standing.entry) (kernel_at standing.entry) (service_numbered service) (type_of parameter) value }
{
    fits_so(standing, parameter, value) && may_be_given(standing, service, value)
}

/// Whether there is an argument at a position, and a value fits it.
fn fits_at(
    standing: Standing,
    service: u32,
    arguments: Arguments,
    args: &[Wire],
    i: usize,
    value: Wire,
) -> bool
    requires sound { IsSound standing.program.now }
    requires names { standing.passes.now ≡ names_of standing.program.now }
    ensures { result ≡ fits_at (fits_service (driver_at standing.entry) (kernel_at standing.entry) (service_numbered service)) (slice_get (types_of (arguments_as arguments) args.now) i) value }
{
    match parameter(arguments, args.len(), i) {
        Some(parameter) => fits_argument(standing, service, parameter, value),
        None => false,
    }
}

/// How many arguments a service takes, where it is given these.
fn how_many(arguments: Arguments, args: &[Wire]) -> usize
    ensures { result ≡ length (types_of (arguments_as arguments) args.now) }
{
    parameter_count(arguments, args.len())
}

/// The first fault of the arguments of a service.
fn asked_args_fault(
    standing: Standing,
    service: u32,
    arguments: Arguments,
    args: &[Wire],
) -> Option<Fault>
    requires sound { IsSound standing.program.now }
    requires names { standing.passes.now ≡ names_of standing.program.now }
    ensures { result ≡ args_fault (fits_service (driver_at standing.entry) (kernel_at standing.entry) (service_numbered service)) 0 (types_of (arguments_as arguments) args.now) args.now }
{
    for (i, arg) in args.iter().enumerate() {
        if !fits_at(standing, service, arguments, args, i, *arg) {
            return fault(RefuseKind::BadArgs, i as u64);
        }
    }
    if args.len() < how_many(arguments, args) {
        fault(RefuseKind::BadArgs, args.len() as u64)
    } else {
        None
    }
}

/// Whether a service is asked so, as far as its terms say it of shapes, bytes and objects that die.
fn is_asked_so(standing: Standing, terms: Terms, ask: &Ask) -> bool
    requires sound { IsSound standing.program.now }
    ensures { result ≡ is_asked_so (driver_at standing.entry) (open_at standing.entry) (terms_as terms) (asked_of ask.now) }
{
    shapes_fit(standing.program, terms.shapes, ask.shapes.as_slice())
        && (ask.bytes.len() <= terms.bytes as usize
            && may_die(terms.arguments, standing.entered, ask.args.as_slice()))
}

fn terms_fault(standing: Standing, terms: Terms, ask: &Ask) -> Option<Fault>
    requires sound { IsSound standing.program.now }
    requires names { standing.passes.now ≡ names_of standing.program.now }
    ensures { result ≡ terms_fault_at standing.entry ask.now.service (terms_as terms) (asked_of ask.now) }
{
    if is_asked_so(standing, terms, ask) {
        asked_args_fault(standing, ask.service, terms.arguments, ask.args.as_slice())
    } else {
        fault(RefuseKind::BadService, 0)
    }
}

/// The fault of what is asked for: of the service, and then of its arguments.
#[tactic(auto, unfolding(mdr_split::specs::Legal::service_fault))]
pub(crate) fn service_fault(standing: Standing, ask: &Ask) -> Option<Fault>
    requires sound { IsSound standing.program.now }
    requires names { standing.passes.now ≡ names_of standing.program.now }
    ensures { result ≡ service_fault_at standing.entry (asked_of ask.now) }
{
    match terms_of(ask.service) {
        Some(terms) => terms_fault(standing, terms, ask),
        None => fault(RefuseKind::BadService, 0),
    }
}
