// What holds of globals as they are typed.

ghost use Rattle.mdr_sound.specs.GlobalLaws.{GlobalsAreSound};

/// A global in which no fault is found keeps to the rules of sound programs.
pub fn globals_are_sound()
    ensures { GlobalsAreSound }
{}
