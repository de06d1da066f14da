// What a step of a machine comes to, other than the next step.

ghost use Rattle.std.specs.Prelude.{◌≡◌};
ghost use Rattle.mdr_exec.specs.Beginning.{came_of};
ghost use Rattle.mdr_exec.specs.Events.{came_as};

use mdr_core::{At, StopKind, Value};
use mdr_events::{Asked, Crossing};

/// What running code comes to.
#[derive(Drop)]
pub enum Outcome {
    /// The function that was started last ended with a value.
    Done(Value),
    Cross(Crossing),
    Service(Asked),
    Stop(StopKind, At),
}

/// A stop is an event, at its place.
pub(crate) fn stopped(came: Option<StopKind>, at: At) -> Option<Outcome>
    ensures { came_as result ≡ came_of came at }
{
    match came {
        Some(stop) => Some(Outcome::Stop(stop, at)),
        None => None,
    }
}
