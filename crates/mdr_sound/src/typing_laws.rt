// What holds of the rules of the profile.

ghost use Rattle.mdr_sound.specs.TypingLaws.{ProfileRulesAreSound};

/// What stands in statements has the types that the rules of sound programs give it, and so has each step that is made of
/// it.
pub fn profile_rules_are_sound()
    ensures { ProfileRulesAreSound }
{}
