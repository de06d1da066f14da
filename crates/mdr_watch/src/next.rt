// What follows in an upcall, and what is left behind it.

use mdr_events::Event;
use mdr_whole::Gave;
use mdr_world::World;

/// What follows an event of user code: the next one, or what its function gives.
#[derive(Drop)]
pub(crate) enum Next {
    Came(Event),
    Gave(Gave),
}

/// What an upcall gave, with the world behind it.
#[derive(Drop)]
pub struct Closed<'a> {
    pub gave: Gave,
    pub world: World<'a>,
}
