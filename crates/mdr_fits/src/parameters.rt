// The types of a service's arguments.

ghost use Rattle.std.specs.Prelude.{◌≡◌, ◌∷◌, [], List, length, option_map, slice_get};
ghost use Rattle.mdr_core.specs.Sound.{IsSound};
ghost use Rattle.mdr_fits.specs.Judged.{places_of};
ghost use Rattle.mdr_fits.specs.Tables.{arguments_as, type_of};
ghost use Rattle.mdr_meaning.specs.declared.wire.Wire.{Wire as AnyWire};
ghost use Rattle.mdr_split.specs.Fits.{fits};
ghost use Rattle.mdr_split.specs.Services.{types_of};

use crate::places::Places;
use crate::table::{Arguments, Parameter};
use crate::values::{fits, fits_handler, fits_pointer};
use mdr_core::{Kind, Ty};
use mdr_model::Wire;

fn of_one(first: Parameter, i: usize) -> Option<Parameter>
    ensures { option_map type_of result ≡ slice_get (type_of first ∷ []) i }
{
    if i == 0 { Some(first) } else { None }
}

fn of_two(first: Parameter, second: Parameter, i: usize) -> Option<Parameter>
    ensures { option_map type_of result ≡ slice_get (type_of first ∷ type_of second ∷ []) i }
{
    if i == 0 {
        Some(first)
    } else if i == 1 {
        Some(second)
    } else {
        None
    }
}

/// The type of the argument at a position, where there are so many arguments.
pub fn parameter(arguments: Arguments, given: usize, i: usize) -> Option<Parameter>
    ensures { (args : List AnyWire) → length args ≡ given → option_map type_of result ≡ slice_get (types_of (arguments_as arguments) args) i }
{
    match arguments {
        Arguments::Nothing => None,
        Arguments::One(first) => of_one(first, i),
        Arguments::Two(first, second) => of_two(first, second, i),
        Arguments::Objects => {
            if i < given {
                Some(Parameter::Pointer)
            } else {
                None
            }
        }
    }
}

/// How many arguments a service takes, where it is given so many.
pub fn parameter_count(arguments: Arguments, given: usize) -> usize
    ensures { (args : List AnyWire) → length args ≡ given → result ≡ length (types_of (arguments_as arguments) args) }
{
    match arguments {
        Arguments::Nothing => 0,
        Arguments::One(_) => 1,
        Arguments::Two(_, _) => 2,
        Arguments::Objects => given,
    }
}

/// Whether a value fits an argument of a service.
pub fn fits_parameter(places: Places, parameter: Parameter, value: Wire) -> bool
    requires { IsSound places.program.now }
    ensures { result ≡ fits (places_of places.entry) (type_of parameter) value }
{
    match parameter {
        Parameter::Number => fits(places, &Ty::Int(Kind::U32), value),
        Parameter::Pointer => fits(places, &Ty::VoidPtr, value),
        Parameter::Handler => fits_handler(places, value),
        Parameter::Lock => fits_lock_pointer(places, value),
    }
}

/// Whether a value fits a pointer to a lock.
fn fits_lock_pointer(places: Places, value: Wire) -> bool
    requires { IsSound places.program.now }
    ensures { result ≡ fits (places_of places.entry) (type_of Parameter.Lock) value }
{
    fits_pointer(places, &Ty::Lock, value)
}
