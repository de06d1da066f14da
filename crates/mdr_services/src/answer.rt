// What a service comes to.

ghost use Rattle.std.specs.Prelude.{◌≡◌, IfOk};
ghost use Rattle.mdr_core.specs.declared.place.At.{At as Place};
ghost use Rattle.mdr_meaning.specs.Values.{wire_of};
ghost use Rattle.mdr_plain.specs.Services.{gives, gives_none};
ghost use Rattle.mdr_plain.specs.World.{World as State};
ghost use Rattle.mdr_services.specs.Serving.{served_as};

use mdr_core::{Items, StopKind, Value};
use std::alloc::{AllocError, Global};

/// What a service comes to: its results, or a stop at the place where it was asked for.
#[derive(Drop)]
pub enum Served {
    Done(Items<Value>),
    Stop(StopKind),
}

/// A service that gives nothing.
pub(crate) fn nothing(alloc: Global) -> Served
    ensures { (at : Place) (w : State) → served_as result at w ≡ gives_none w }
{
    Served::Done(Items::new(alloc))
}

/// A service that gives a value.
pub(crate) fn one(alloc: Global, value: Value) -> Result<Served, AllocError>
    ensures { IfOk result (λ s. (at : Place) (w : State) → served_as s at w ≡ gives (wire_of value) w) }
{
    let values = Items::from_slice(alloc, &[value])?;
    Ok(Served::Done(values))
}
