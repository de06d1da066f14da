// What follows an event of running code.

use crate::ending::Gave;
use mdr_events::{Crossing, Event};

/// The next event, or what the call gives, or a call of a function of the other half.
#[derive(Drop)]
pub(crate) enum Next {
    Came(Event),
    Gave(Gave),
    Calls(Crossing),
}
