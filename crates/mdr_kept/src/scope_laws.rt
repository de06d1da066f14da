// What holds of the scopes in the program that a source comes to, and in each function with a body.

ghost use Rattle.mdr_kept.specs.Bodies.{BodiesAreScoped};
ghost use Rattle.mdr_kept.specs.ScopedSources.{SourcesAreScoped};

/// What a function's head and body come to names objects of locals only where they live, if the rules of what stands in
/// statements are sound, and give steps without declarations.
pub fn bodies_are_scoped()
    ensures { BodiesAreScoped }
{}

/// Where no fault is found in a source, the code of its program names objects of locals only where they live, if its
/// types, globals, structs and functions are few.
pub fn sources_are_scoped()
    ensures { SourcesAreScoped }
{}
