// The law of code that names objects where they live, as a function that does nothing.

ghost use Rattle.mdr_kept.specs.Current.{ScopedTreesAreCurrent};

/// What running code of a sound program passes on, as an argument, with a question or as a result, names no block that has
/// died, where its code names objects of locals only where they live.
pub fn scoped_trees_are_current()
    ensures { ScopedTreesAreCurrent }
{}
