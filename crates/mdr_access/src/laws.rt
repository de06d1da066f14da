// The laws of keys.

ghost use Rattle.mdr_access.specs.Laws.{KeysAreRight};

/// The keys of a function of the user half grow along calls in that half, none is a lock's, and the plan that has them suits
/// the program.
pub fn keys_are_right()
    ensures { KeysAreRight }
{}
