// Constants (C99 6.6).

ghost use Rattle.std.specs.Prelude.{◌≡◌};
ghost use Rattle.std.specs.Option.{option_copied};
ghost use Rattle.mdr_faults.specs.Faults.{told};
ghost use Rattle.mdr_faults.specs.Declarations.{opposite, number_constant, constant_entity, constant_named, constant, enumerated};

use crate::fault::{Fault, FaultKind};
use crate::scope::{Constant, Entity, Named, Scope, entity_named};
use mdr_core::{Kind, Place};
use mdr_syntax::Const;

/// The negation of a number in its kind (C99 6.5.3.3).
fn opposite(kind: Kind, n: u64) -> i128
    ensures { result ≡ opposite kind n }
{
    if kind.is_signed() || n == 0 {
        -(n as i128)
    } else {
        kind.greatest() + 1 - n as i128
    }
}

/// A number, perhaps with a `-` before it.
pub fn number_constant(is_negative: bool, n: u64, kind: Kind) -> Constant
    ensures { result ≡ number_constant is_negative n kind }
{
    let number = if is_negative {
        opposite(kind, n)
    } else {
        n as i128
    };
    Constant { kind, number }
}

fn constant_entity(place: Place, entity: &Entity) -> Result<Constant, Fault>
    ensures { result ≡ told (constant_entity place entity.now) }
{
    match entity {
        Entity::Constant(c) => Ok(*c),
        Entity::Global(_, _) | Entity::Function(_) => Err(Fault {
            place,
            kind: FaultKind::Mismatch,
        }),
    }
}

fn constant_named(at: Place, place: Place, entry: Option<&Named>) -> Result<Constant, Fault>
    ensures { result ≡ told (constant_named at place (option_copied entry.entry)) }
{
    match entry {
        None => Err(Fault {
            place: at,
            kind: FaultKind::UnknownName,
        }),
        Some(entry) => match &entry.means {
            Ok(entity) => constant_entity(place, entity),
            Err(fault) => Err(*fault),
        },
    }
}

/// A constant of the declaration at this place (C99 6.6).
pub fn constant(scope: &Scope, place: Place, c: &Const) -> Result<Constant, Fault>
    ensures { result ≡ told (constant scope.now place c.now) }
{
    match c {
        Const::Number(_, is_negative, n, kind) => Ok(number_constant(*is_negative, *n, *kind)),
        Const::Name(at, name) => constant_named(*at, place, entity_named(scope, name.as_slice())),
    }
}

pub fn enumerated(place: Place, number: i128) -> Result<Constant, Fault>
    ensures { result ≡ told (enumerated place number) }
{
    if Kind::S32.contains(number) {
        Ok(Constant {
            kind: Kind::S32,
            number,
        })
    } else {
        Err(Fault {
            place,
            kind: FaultKind::Mismatch,
        })
    }
}
