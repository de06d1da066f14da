// A law, as a function that does nothing.

ghost use Rattle.mdr_world.specs.Driven.{DriversWalk};

/// What a driver's code does up to its next event is what it does to the state of its run, beside the same program.
pub fn drivers_walk()
    ensures { DriversWalk }
{}
