// What holds of functions with bodies.

ghost use Rattle.mdr_sound.specs.Allocating.{AllocationsAreFormed};
ghost use Rattle.mdr_sound.specs.Bodies.{BodiesAreSound};

/// What a function's head and body come to has locals and statements as a sound program has.
pub fn bodies_are_sound()
    ensures { BodiesAreSound }
{}

/// The types that a body's allocations name are types of objects, whatever stands in the type table.
pub fn allocations_are_formed()
    ensures { AllocationsAreFormed }
{}
